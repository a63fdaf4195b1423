// Bytes to a document.
ghost use Rattle.std.specs.Prelude.{◌≡◌, ◌⊎◌, IfOk, IsErrOf, Ok, option_map};
ghost use Rattle.serde_json.specs.View.{view};
ghost use Rattle.cs_json.specs.declared.document.Document.{Document};
ghost use Rattle.cs_json.specs.declared.document.Place.{Place};
ghost use Rattle.cs_json.specs.Gives.{Answers};
ghost use Rattle.cs_json.specs.Readable.{IsReadable};
ghost use Rattle.cs_json.specs.Shape.{json_of, doc_of, reading_of, document, Says, RefusedAt, NoJson};

use crate::document::{Document, Place};
use crate::error::{DocError, ReadError};
use crate::modules::root;
use serde_json::Value;
use std::alloc::{AllocError, Global};

/// The JSON value of the bytes of a file, as `serde_json` reads it, or None exactly where it gives no reading.
pub fn json_value(alloc: Global, bytes: &[u8]) -> Result<Option<Value>, AllocError>
    ensures { IfOk result (λ value. option_map view value ≡ json_of bytes.now) }
{
    match Value::from_slice(alloc, bytes) {
        Ok(value) => Ok(Some(value)),
        Err(error) => if error.is_memory() {
            Err(AllocError)
        } else {
            Ok(None)
        },
    }
}

fn shaped(alloc: Global, value: &Value) -> Result<Document, DocError>
    ensures { Answers result (reading_of (doc_of (view value.now))) }
{
    match root(alloc, value) {
        Ok(document) => Ok(document),
        Err(ReadError::NoMemory) => Err(DocError::NoMemory),
        Err(ReadError::Refused(path)) => Err(DocError::BadShape { at: Place { path } }),
    }
}

fn answer(alloc: Global, bytes: &[u8]) -> Result<Document, DocError>
    ensures { Answers result (document bytes.now) }
{
    match json_value(alloc, bytes) {
        Ok(Some(value)) => shaped(alloc, &value),
        Ok(None) => Err(DocError::NotJson),
        Err(AllocError) => Err(DocError::NoMemory),
    }
}

/// Reads a document from the bytes of a file of Yosys JSON.
///
/// It errs where the bytes are no JSON that `serde_json` reads, at the first place that no document
/// may have, and where memory runs out. The tree of values is walked once, in byte order of keys.
pub fn read_document(alloc: Global, bytes: &[u8]) -> Result<Document, DocError>
    ensures ok { IfOk result (λ doc. document bytes.now ≡ Says doc) }
    ensures readable { IfOk result IsReadable }
    ensures not_json { IsErrOf result DocError.NotJson → document bytes.now ≡ NoJson }
    ensures bad_shape { (at : Place) → IsErrOf result (DocError.BadShape at)
        → document bytes.now ≡ RefusedAt at }

    // The other way, each answer comes unless memory ran out.
    ensures ok_comes { (doc : Document) → document bytes.now ≡ Says doc
        → (result ≡ Ok doc) ⊎ IsErrOf result DocError.NoMemory }
    ensures not_json_comes { document bytes.now ≡ NoJson
        → IsErrOf result DocError.NotJson ⊎ IsErrOf result DocError.NoMemory }
    ensures bad_shape_comes { (at : Place) → document bytes.now ≡ RefusedAt at
        → IsErrOf result (DocError.BadShape at) ⊎ IsErrOf result DocError.NoMemory }
{
    answer(alloc, bytes)
}
