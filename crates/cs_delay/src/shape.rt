// The walk over a JSON value: the table that it is, or the first refused place.
ghost use Rattle.std.specs.Prelude.{◌≡◌, codes};
ghost use Rattle.serde_json.specs.View.{view, members_view};
ghost use Rattle.cs_json.specs.Walk.{each_member, entries, required as required_at};
ghost use Rattle.cs_json.specs.Gives.{Gives};
ghost use Rattle.cs_delay.specs.Shape.{capped, delay, pin, one, by_pin, delays, entry, types, fallback, known_version, version, is_second_version, written};

use crate::entry::{DelayEntry, PinDelay, PinDelays};
use crate::written::Written;
use cs_base::{Sequence, Text};
use cs_json::ReadError;
use cs_json::members::{Members, member, object, required};
use cs_json::places::{at_key, refused_here};
use serde_json::Value;
use std::alloc::Global;

fn capped(number: u64) -> u32
    ensures { result ≡ capped number }
{
    number.min(u64::from(u32::MAX)) as u32
}

fn delay(alloc: Global, value: &Value) -> Result<u32, ReadError>
    ensures { Gives result (delay (view value.now)) }
{
    match value.as_u64() {
        Some(number) => Ok(capped(number)),
        None => Err(refused_here(alloc)),
    }
}

fn pin(alloc: Global, name: &str, value: &Value) -> Result<PinDelay, ReadError>
    ensures { Gives result (pin name.now (view value.now)) }
{
    let delay = delay(alloc, value)?;
    Ok(PinDelay {
        pin: Text::from_str(alloc, name)?,
        delay,
    })
}

fn pins(alloc: Global, map: &Members) -> Result<Sequence<PinDelay>, ReadError>
    ensures { Gives result (each_member pin (entries (members_view map.now.entries))) }
{
    let mut found = Sequence::new(alloc);
    for (name, value) in map.iter() {
        found.push(at_key(alloc, name.as_str(), pin(alloc, name.as_str(), value))?)?;
    }
    Ok(found)
}

fn one(alloc: Global, value: &Value) -> Result<PinDelays, ReadError>
    ensures { Gives result (one (view value.now)) }
{
    Ok(PinDelays::One(delay(alloc, value)?))
}

fn by_pin(alloc: Global, value: &Value) -> Result<PinDelays, ReadError>
    ensures { Gives result (by_pin (view value.now)) }
{
    let members = object(alloc, value)?;
    Ok(PinDelays::Pins(pins(alloc, members)?))
}

fn delays(alloc: Global, is_second: bool, value: &Value) -> Result<PinDelays, ReadError>
    ensures { Gives result (delays is_second (view value.now)) }
{
    if is_second && value.is_object() {
        by_pin(alloc, value)
    } else {
        one(alloc, value)
    }
}

fn entry(alloc: Global, is_second: bool, kind: &str, value: &Value) -> Result<DelayEntry, ReadError>
    ensures { Gives result (entry is_second kind.now (view value.now)) }
{
    let delay = delays(alloc, is_second, value)?;
    Ok(DelayEntry {
        kind: Text::from_str(alloc, kind)?,
        delay,
    })
}

fn listed(alloc: Global, is_second: bool, map: &Members) -> Result<Sequence<DelayEntry>, ReadError>
    ensures { Gives result
        (each_member (entry is_second) (entries (members_view map.now.entries))) }
{
    let mut found = Sequence::new(alloc);
    for (kind, value) in map.iter() {
        let read = entry(alloc, is_second, kind.as_str(), value);
        found.push(at_key(alloc, kind.as_str(), read)?)?;
    }
    Ok(found)
}

fn types(alloc: Global, is_second: bool, value: &Value) -> Result<Sequence<DelayEntry>, ReadError>
    ensures { Gives result (types is_second (view value.now)) }
{
    let members = object(alloc, value)?;
    listed(alloc, is_second, members)
}

// The delays of all types, which have to be there.
fn types_in(
    alloc: Global,
    is_second: bool,
    members: &Members,
) -> Result<Sequence<DelayEntry>, ReadError>
    ensures { Gives result
        (required_at (types is_second) (codes "delays") (members_view members.now.entries)) }
{
    let value = required(alloc, members, "delays")?;
    at_key(alloc, "delays", types(alloc, is_second, value))
}

// The delay of what isn't named, which may be missing.
fn fallback(alloc: Global, members: &Members) -> Result<Option<u32>, ReadError>
    ensures { Gives result (fallback (members_view members.now.entries)) }
{
    match member(members, "default") {
        Some(value) => Ok(Some(at_key(alloc, "default", delay(alloc, value))?)),
        None => Ok(None),
    }
}

fn known_version(number: u64) -> Option<u32>
    ensures { result ≡ known_version number }
{
    match number {
        1 => Some(1),
        2 => Some(2),
        _ => None,
    }
}

fn version(alloc: Global, value: &Value) -> Result<u32, ReadError>
    ensures { Gives result (version (view value.now)) }
{
    match value.as_u64().and_then(known_version) {
        Some(found) => Ok(found),
        None => Err(refused_here(alloc)),
    }
}

// The version, which has to be there.
fn version_in(alloc: Global, members: &Members) -> Result<u32, ReadError>
    ensures { Gives result (required_at version (codes "version") (members_view members.now.entries)) }
{
    let value = required(alloc, members, "version")?;
    at_key(alloc, "version", version(alloc, value))
}

fn is_second_version(members: &Members) -> bool
    ensures { result ≡ is_second_version (members_view members.now.entries) }
{
    match member(members, "version") {
        Some(value) => value.as_u64() == Some(2),
        None => false,
    }
}

/// The delay table that a JSON value is.
#[tactic(auto, unfolding(crate::specs::Shape::written))]
pub(crate) fn written(alloc: Global, value: &Value) -> Result<Written, ReadError>
    ensures { Gives result (written (view value.now)) }
{
    let members = object(alloc, value)?;
    let fallback = fallback(alloc, members)?;
    let entries = types_in(alloc, is_second_version(members), members)?;
    let version = version_in(alloc, members)?;
    Ok(Written {
        version,
        entries,
        fallback,
    })
}
