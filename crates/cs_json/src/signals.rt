// Bit lists.
ghost use Rattle.std.specs.Prelude.{◌≡◌, map};
ghost use Rattle.serde_json.specs.View.{view};
ghost use Rattle.cs_json.specs.Gives.{Gives, Fails};
ghost use Rattle.cs_json.specs.Shape.{signal_of, constant, bit_number, signal as signal_at, signals, no_signal};
ghost use Rattle.cs_json.specs.Walk.{each_item, to_item};

use crate::error::ReadError;
use crate::places::refused_here;
use cs_base::{BitId, Sequence, Signal, Text};
use serde_json::Value;
use std::alloc::Global;

fn bit(number: u64) -> Option<Signal>
    ensures { result ≡ bit_number number }
{
    if 2 <= number && number < u32::MAX as u64 {
        Some(Signal::Bit(BitId::new(number as u32)))
    } else {
        None
    }
}

fn constant_of(text: &str) -> Option<Signal>
    ensures { result ≡ constant text.now }
{
    match text {
        "0" => Some(Signal::Zero),
        "1" => Some(Signal::One),
        "x" => Some(Signal::Unknown),
        "z" => Some(Signal::HighZ),
        _ => None,
    }
}

fn signal(only_bits: bool, value: &Value) -> Option<Signal>
    ensures { result ≡ signal_of only_bits (view value.now) }
{
    match value {
        Value::Number(n) => n.as_u64().and_then(bit),
        Value::String(s) => if only_bits {
            None
        } else {
            constant_of(s.as_str())
        },
        _ => None,
    }
}

// The item at this place is refused.
fn refused_item(alloc: Global, i: usize) -> ReadError
    ensures { Fails result (no_signal (to_item i)) }
{
    match format!(in alloc; "/{i}") {
        Ok(path) => ReadError::Refused(Text::from_string(path)),
        Err(_) => ReadError::NoMemory,
    }
}

fn each_signal(
    alloc: Global,
    only_bits: bool,
    items: &[Value],
) -> Result<Sequence<Signal>, ReadError>
    ensures { Gives result (each_item (signal_at only_bits) 0 (map view items.now)) }
{
    let mut found = Sequence::new(alloc);
    for (i, item) in items.iter().enumerate() {
        let Some(s) = signal(only_bits, item) else {
            return Err(refused_item(alloc, i));
        };
        found.push(s)?;
    }
    Ok(found)
}

/// The bits of a port, a pin or a netname; the list of an input port holds no constant.
pub(crate) fn signals_of(
    alloc: Global,
    only_bits: bool,
    value: &Value,
) -> Result<Sequence<Signal>, ReadError>
    ensures { Gives result (signals only_bits (view value.now)) }
{
    match value {
        Value::Array(items) => each_signal(alloc, only_bits, items.as_slice()),
        _ => Err(refused_here(alloc)),
    }
}
