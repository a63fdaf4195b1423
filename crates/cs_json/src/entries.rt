// Attributes and parameters.
ghost use Rattle.std.specs.Prelude.{◌≡◌, IfOk, option_map, option_and_then};
ghost use Rattle.serde_json.specs.View.{view, members_view, number_view};
ghost use Rattle.serde_json.specs.Find.{as_integer};
ghost use Rattle.cs_json.specs.declared.document.Datum.TheVariants.{Number as whole};
ghost use Rattle.cs_json.specs.Gives.{members_at};
ghost use Rattle.cs_json.specs.Shape.{datum_of, kept_number, entries_of};

use crate::document::{Datum, Entry};
use crate::members::Members;
use cs_base::{Sequence, Text};
use serde_json::{Number, Value};
use std::alloc::{AllocError, Global};

fn kept(n: &Number) -> Option<i128>
    ensures { option_map whole result
        ≡ option_and_then kept_number (as_integer (number_view n.now)) }
{
    let z = n.as_i128()?;
    if -0x8000_0000 <= z && z <= u64::MAX as i128 {
        Some(z)
    } else {
        None
    }
}

// A text or a whole number in range, and nothing else.
fn datum(alloc: Global, value: &Value) -> Result<Option<Datum>, AllocError>
    ensures { IfOk result (λ found. found ≡ datum_of (view value.now)) }
{
    match value {
        Value::String(s) => Ok(Some(Datum::Digits(Text::from_str(alloc, s.as_str())?))),
        Value::Number(n) => Ok(kept(n).map(Datum::Number)),
        _ => Ok(None),
    }
}

fn entries(alloc: Global, map: &Members) -> Result<Sequence<Entry>, AllocError>
    ensures { IfOk result (λ es. es ≡ entries_of (members_view map.now.entries)) }
{
    let mut found = Sequence::new(alloc);
    for (name, value) in map.iter() {
        match datum(alloc, value)? {
            Some(datum) => found.push(Entry {
                name: Text::from_str(alloc, name.as_str())?,
                datum,
            })?,
            None => {}
        }
    }
    Ok(found)
}

/// The attributes or parameters of an object that may be missing, in byte order of their names.
pub(crate) fn entries_at(
    alloc: Global,
    map: Option<&Members>,
) -> Result<Sequence<Entry>, AllocError>
    ensures { IfOk result (λ es. es ≡ entries_of (members_at map.entry)) }
{
    match map {
        Some(map) => entries(alloc, map),
        None => Ok(Sequence::new(alloc)),
    }
}
