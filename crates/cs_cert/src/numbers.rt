// Whole numbers, ids, lags and literals.
ghost use Rattle.std.specs.Prelude.{◌≡◌, codes};
ghost use Rattle.serde_json.specs.View.{view, members_view};
ghost use Rattle.cs_json.specs.Gives.{Gives};
ghost use Rattle.cs_json.specs.Walk.{required as required_at};
ghost use Rattle.cs_cert.specs.PaperShape.{id_of, integer, lag_of, literal_of, table, table_by, version, version_of};

use crate::lists::Readable;
use cs_base::{EdgeId, Lit, VertexId};
use cs_json::ReadError;
use cs_json::members::{Members, required};
use cs_json::places::{at_key, refused_here};
use serde_json::Value;
use std::alloc::Global;

// The greatest lag, and the greatest variable of a literal.
const MOST: i128 = 1 << 31;

fn integer(value: &Value) -> Option<i128>
    ensures { result ≡ integer (view value.now) }
{
    match value {
        Value::Number(number) => number.as_i128(),
        _ => None,
    }
}

fn lag_of(number: i128) -> Option<i64>
    ensures { result ≡ lag_of number }
{
    if -MOST <= number && number <= MOST {
        Some(number as i64)
    } else {
        None
    }
}

fn literal_of(number: i128) -> Option<Lit>
    ensures { result ≡ literal_of number }
{
    if 0 < number && number <= MOST {
        Some(Lit {
            var: number as u32,
            positive: true,
        })
    } else if -MOST <= number && number < 0 {
        Some(Lit {
            var: (-number) as u32,
            positive: false,
        })
    } else {
        None
    }
}

fn vertex_of(number: u64) -> Option<VertexId>
    ensures { result ≡ id_of number }
{
    if number <= u64::from(u32::MAX) {
        Some(VertexId::new(number as u32))
    } else {
        None
    }
}

fn edge_of(number: u64) -> Option<EdgeId>
    ensures { result ≡ id_of number }
{
    if number <= u64::from(u32::MAX) {
        Some(EdgeId::new(number as u32))
    } else {
        None
    }
}

fn version_of(number: u64) -> Option<u64>
    ensures { result ≡ version_of number }
{
    match number {
        1 => Some(1),
        2 => Some(2),
        _ => None,
    }
}

impl Readable for u64 {
    ghost use Rattle.cs_cert.specs.PaperShape.{whole};

    ghost read_from = { whole };

    fn read(alloc: Global, value: &Value) -> Result<Self, ReadError> {
        match value.as_u64() {
            Some(number) => Ok(number),
            None => Err(refused_here(alloc)),
        }
    }
}

impl Readable for i64 {
    ghost use Rattle.cs_cert.specs.PaperShape.{lag};

    ghost read_from = { lag };

    fn read(alloc: Global, value: &Value) -> Result<Self, ReadError> {
        match integer(value).and_then(lag_of) {
            Some(lag) => Ok(lag),
            None => Err(refused_here(alloc)),
        }
    }
}

impl Readable for Lit {
    ghost use Rattle.cs_cert.specs.PaperShape.{literal};

    ghost read_from = { literal };

    fn read(alloc: Global, value: &Value) -> Result<Self, ReadError> {
        match integer(value).and_then(literal_of) {
            Some(literal) => Ok(literal),
            None => Err(refused_here(alloc)),
        }
    }
}

impl Readable for VertexId {
    ghost use Rattle.cs_cert.specs.PaperShape.{id};

    ghost read_from = { id };

    fn read(alloc: Global, value: &Value) -> Result<Self, ReadError> {
        match value.as_u64().and_then(vertex_of) {
            Some(vertex) => Ok(vertex),
            None => Err(refused_here(alloc)),
        }
    }
}

impl Readable for EdgeId {
    ghost use Rattle.cs_cert.specs.PaperShape.{id};

    ghost read_from = { id };

    fn read(alloc: Global, value: &Value) -> Result<Self, ReadError> {
        match value.as_u64().and_then(edge_of) {
            Some(edge) => Ok(edge),
            None => Err(refused_here(alloc)),
        }
    }
}

fn version(alloc: Global, value: &Value) -> Result<u64, ReadError>
    ensures { Gives result (version (view value.now)) }
{
    match value.as_u64().and_then(version_of) {
        Some(version) => Ok(version),
        None => Err(refused_here(alloc)),
    }
}

fn version_at(alloc: Global, members: &Members, key: &str) -> Result<u64, ReadError>
    ensures { Gives result (required_at version key.now (members_view members.now.entries)) }
{
    let value = required(alloc, members, key)?;
    at_key(alloc, key, version(alloc, value))
}

/// The version of the delay table, behind that of the paper.
pub(crate) fn table(alloc: Global, members: &Members) -> Result<u64, ReadError>
    ensures { Gives result (table (members_view members.now.entries)) }
{
    match version_at(alloc, members, "version")? {
        1 => Ok(1),
        _ => version_at(alloc, members, "table"),
    }
}
