// Words and digits.
ghost use Rattle.std.specs.Prelude.{◌≡◌, ◌==◌, IfOk, MatchResult, Ok, map};
ghost use Rattle.std.specs.List.{list_all};
ghost use Rattle.serde_json.specs.View.{view};
ghost use Rattle.cs_json.specs.Gives.{Fails};
ghost use Rattle.cs_json.specs.Walk.{text};
ghost use Rattle.cs_cert.specs.PaperShape.{bits_of, is_digit, mode_of, paper_kind_of, step_kind_of};

use crate::kind::{PaperKind, StepKind};
use crate::lists::Readable;
use cs_base::{Mode, Sequence};
use cs_json::ReadError;
use cs_json::places::refused_here;
use serde_json::Value;
use std::alloc::{AllocError, Global};

fn text(alloc: Global, value: &Value) -> Result<&str, ReadError>
    ensures { MatchResult result
        (λ s. text (view value.now) ≡ Ok s.now)
        (λ e. Fails e (text (view value.now))) }
{
    match value {
        Value::String(text) => Ok(text.as_str()),
        _ => Err(refused_here(alloc)),
    }
}

fn mode_of(text: &str) -> Option<Mode>
    ensures { result ≡ mode_of text.now }
{
    match text {
        "any" => Some(Mode::Any),
        "forward" => Some(Mode::Forward),
        _ => None,
    }
}

fn step_kind_of(text: &str) -> Option<StepKind>
    ensures { result ≡ step_kind_of text.now }
{
    match text {
        "edge" => Some(StepKind::AlongEdge),
        "path" => Some(StepKind::AlongPath),
        "pin" => Some(StepKind::BetweenPins),
        _ => None,
    }
}

fn paper_kind_of(text: &str) -> Option<PaperKind>
    ensures { result ≡ paper_kind_of text.now }
{
    match text {
        "certificate" => Some(PaperKind::OfCertificate),
        "refusal" => Some(PaperKind::OfRefusal),
        "fallback" => Some(PaperKind::OfFallback),
        _ => None,
    }
}

fn is_digit(byte: u8) -> bool
    ensures { result ≡ is_digit byte }
{
    byte == b'0' || byte == b'1'
}

fn are_digits(text: &[u8]) -> bool
    ensures { result ≡ list_all is_digit text.now }
{
    text.iter().all(|byte| is_digit(*byte))
}

fn ones(alloc: Global, digits: &[u8]) -> Result<Vec<bool>, AllocError>
    ensures { IfOk result (λ bits. bits.items ≡ map (λ c. c == 49) digits.now) }
{
    digits.iter().map(|byte| *byte == b'1').collect(alloc)
}

fn bits_of(alloc: Global, text: &str) -> Result<Option<Sequence<bool>>, AllocError>
    ensures { IfOk result (λ bits. bits ≡ bits_of text.now) }
{
    let digits = text.as_bytes();
    if !are_digits(digits) {
        return Ok(None);
    }
    let bits = ones(alloc, digits)?;
    Ok(Some(Sequence::from_vec(bits)))
}

impl Readable for Mode {
    ghost use Rattle.cs_cert.specs.PaperShape.{mode};

    ghost read_from = { mode };

    fn read(alloc: Global, value: &Value) -> Result<Self, ReadError> {
        match mode_of(text(alloc, value)?) {
            Some(mode) => Ok(mode),
            None => Err(refused_here(alloc)),
        }
    }
}

impl Readable for StepKind {
    ghost use Rattle.cs_cert.specs.PaperShape.{step_kind};

    ghost read_from = { step_kind };

    fn read(alloc: Global, value: &Value) -> Result<Self, ReadError> {
        match step_kind_of(text(alloc, value)?) {
            Some(kind) => Ok(kind),
            None => Err(refused_here(alloc)),
        }
    }
}

impl Readable for PaperKind {
    ghost use Rattle.cs_cert.specs.PaperShape.{paper_kind};

    ghost read_from = { paper_kind };

    fn read(alloc: Global, value: &Value) -> Result<Self, ReadError> {
        match paper_kind_of(text(alloc, value)?) {
            Some(kind) => Ok(kind),
            None => Err(refused_here(alloc)),
        }
    }
}

impl Readable for Sequence<bool> {
    ghost use Rattle.cs_cert.specs.PaperShape.{bits};

    ghost read_from = { bits };

    fn read(alloc: Global, value: &Value) -> Result<Self, ReadError> {
        match bits_of(alloc, text(alloc, value)?)? {
            Some(bits) => Ok(bits),
            None => Err(refused_here(alloc)),
        }
    }
}
