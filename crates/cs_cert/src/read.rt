// Bytes to a paper.
ghost use Rattle.std.specs.Prelude.{◌≡◌, ◌⊎◌, IfOk, IsErrOf, Ok};
ghost use Rattle.serde_json.specs.View.{view};
ghost use Rattle.cs_json.specs.declared.document.Place.{Place as PlaceValue};
ghost use Rattle.cs_cert.specs.declared.paper.Paper.{Paper as PaperValue};
ghost use Rattle.cs_cert.specs.Gives.{Answers};
ghost use Rattle.cs_cert.specs.PaperShape.{paper, paper_of, reading_of, Says, RefusedAt, NoJson};
ghost use Rattle.cs_cert.specs.Papers.{IsInRange};

use crate::error::CertError;
use crate::paper::Paper;
use crate::walk::paper;
use cs_json::{Place, ReadError, json_value};
use serde_json::Value;
use std::alloc::Global;

fn shaped(alloc: Global, value: &Value) -> Result<Paper, CertError>
    ensures { Answers result (reading_of (paper (view value.now))) }
{
    match paper(alloc, value) {
        Ok(paper) => Ok(paper),
        Err(ReadError::NoMemory) => Err(CertError::NoMemory),
        Err(ReadError::Refused(path)) => Err(CertError::BadShape { at: Place { path } }),
    }
}

fn answer(alloc: Global, bytes: &[u8]) -> Result<Paper, CertError>
    ensures { Answers result (paper_of bytes.now) }
{
    match json_value(alloc, bytes)? {
        Some(value) => shaped(alloc, &value),
        None => Err(CertError::NotJson),
    }
}

/// Reads a certificate, a refusal or a fallback paper from the bytes of a file, of version 1 or 2.
///
/// It errs where the bytes are no JSON that `serde_json` reads, at the first place that no paper may have, and where
/// memory runs out. The tree of values is walked once: `kind` first, then in byte order of keys, but `table` after
/// `version`.
pub fn read_certificate(alloc: Global, bytes: &[u8]) -> Result<Paper, CertError>
    ensures ok { IfOk result (λ paper. paper_of bytes.now ≡ Says paper) }
    ensures range { IfOk result IsInRange }
    ensures not_json { IsErrOf result CertError.NotJson → paper_of bytes.now ≡ NoJson }
    ensures bad_shape { (at : PlaceValue) → IsErrOf result (CertError.BadShape at)
        → paper_of bytes.now ≡ RefusedAt at }

    // The other way, each answer comes unless memory ran out.
    ensures ok_comes { (paper : PaperValue) → paper_of bytes.now ≡ Says paper
        → (result ≡ Ok paper) ⊎ IsErrOf result CertError.NoMemory }
    ensures not_json_comes { paper_of bytes.now ≡ NoJson
        → IsErrOf result CertError.NotJson ⊎ IsErrOf result CertError.NoMemory }
    ensures bad_shape_comes { (at : PlaceValue) → paper_of bytes.now ≡ RefusedAt at
        → IsErrOf result (CertError.BadShape at) ⊎ IsErrOf result CertError.NoMemory }
{
    answer(alloc, bytes)
}
