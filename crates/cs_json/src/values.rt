// The values that ports, netnames and cells print as.
ghost use Rattle.std.specs.Prelude.{◌≡◌, IfOk, IsTrue, OnOk, codes, map};
ghost use Rattle.serde_json.specs.Data.{number as number_data, put, string as string_data};
ghost use Rattle.serde_json.specs.Find.{of_integer};
ghost use Rattle.serde_json.specs.View.{members_view, view};
ghost use Rattle.cs_json.specs.Printed.{object_from, entry_member, port_member, net_member, cell_member, signal_data, signals_data, datum_data, direction_text, wire_member, wire_of, side_member};
ghost use Rattle.cs_json.specs.Readable.{AreInOrder, AreEntries, IsNet, IsCell, is_readable_datum};
ghost use Rattle.cs_json.specs.Shape.{is_kept_number};

use crate::document::{CellDecl, Datum, Direction, Entry, NetDecl, PinDecl, PortDecl};
use crate::members::Members;
use cs_base::Signal;
use serde_json::{Map, Value};
use std::alloc::{AllocError, Global};

// An object of attributes or parameters.
pub(crate) fn entries_value(alloc: Global, entries: &[Entry]) -> Result<Value, AllocError>
    requires { AreEntries entries.now }
    ensures { IfOk result (λ v. view v ≡ object_from entry_member entries.now) }
{
    let mut map = Map::new(alloc);
    for entry in entries {
        let value = datum(alloc, &entry.datum)?;
        serde_json::put(&mut map, alloc, entry.name.as_str(), value)?;
    }
    Ok(Value::Object(map))
}

fn put_entries(
    alloc: Global,
    members: &mut Members,
    key: &str,
    entries: &[Entry],
) -> Result<(), AllocError>
    requires { AreEntries entries.now }
    ensures { OnOk result (members_view members.new.entries
        ≡ put key.now (object_from entry_member entries.now) (members_view members.old.entries)) }
{
    let value = entries_value(alloc, entries)?;
    serde_json::put(members, alloc, key, value)
}

fn signal(alloc: Global, signal: Signal) -> Result<Value, AllocError>
    ensures { IfOk result (λ v. view v ≡ signal_data signal) }
{
    match signal {
        Signal::Zero => Value::try_from_str(alloc, "0"),
        Signal::One => Value::try_from_str(alloc, "1"),
        Signal::Unknown => Value::try_from_str(alloc, "x"),
        Signal::HighZ => Value::try_from_str(alloc, "z"),
        Signal::Bit(bit) => Ok(Value::from(bit.get())),
    }
}

fn signals(alloc: Global, bits: &[Signal]) -> Result<Value, AllocError>
    ensures { IfOk result (λ v. view v ≡ signals_data bits.now) }
{
    let mut items = Vec::new(alloc);
    for bit in bits {
        items.push(signal(alloc, *bit)?)?;
    }
    Ok(Value::Array(items))
}

// Puts a bit list.
fn put_signals(
    alloc: Global,
    members: &mut Members,
    key: &str,
    bits: &[Signal],
) -> Result<(), AllocError>
    ensures { OnOk result (members_view members.new.entries
        ≡ put key.now (signals_data bits.now) (members_view members.old.entries)) }
{
    let value = signals(alloc, bits)?;
    serde_json::put(members, alloc, key, value)
}

// Puts a text.
fn put_text(alloc: Global, members: &mut Members, key: &str, text: &str) -> Result<(), AllocError>
    ensures { OnOk result (members_view members.new.entries
        ≡ put key.now (string_data text.now) (members_view members.old.entries)) }
{
    let value = Value::try_from_str(alloc, text)?;
    serde_json::put(members, alloc, key, value)
}

fn number(z: i128) -> Value
    requires { IsTrue (is_kept_number z) }
    ensures { view result ≡ number_data (of_integer z) }
{
    if 0 <= z {
        Value::from(z as u64)
    } else {
        Value::from(z as i64)
    }
}

fn datum(alloc: Global, datum: &Datum) -> Result<Value, AllocError>
    requires { IsTrue (is_readable_datum datum.now) }
    ensures { IfOk result (λ v. view v ≡ datum_data datum.now) }
{
    match datum {
        Datum::Digits(text) => Value::try_from_str(alloc, text.as_str()),
        Datum::Number(z) => Ok(number(*z)),
    }
}

fn direction(direction: Direction) -> &'static str
    ensures { result.now ≡ direction_text direction }
{
    match direction {
        Direction::Input => "input",
        Direction::Output => "output",
        Direction::Inout => "inout",
    }
}

/// The value of a port.
pub(crate) fn port_value(alloc: Global, port: &PortDecl) -> Result<Value, AllocError>
    ensures { IfOk result (λ v. view v ≡ (port_member port.now).1) }
{
    let mut members = Map::new(alloc);
    put_signals(alloc, &mut members, "bits", port.bits.as_slice())?;
    put_text(alloc, &mut members, "direction", direction(port.direction))?;
    Ok(Value::Object(members))
}

/// The value of a netname.
pub(crate) fn net_value(alloc: Global, net: &NetDecl) -> Result<Value, AllocError>
    requires { IsNet net.now }
    ensures { IfOk result (λ v. view v ≡ (net_member net.now).1) }
{
    let mut members = Map::new(alloc);
    put_entries(alloc, &mut members, "attributes", net.attributes.as_slice())?;
    put_signals(alloc, &mut members, "bits", net.bits.as_slice())?;
    serde_json::put(&mut members, alloc, "hide_name", Value::from(1u64))?;
    Ok(Value::Object(members))
}

fn connections(alloc: Global, pins: &[PinDecl]) -> Result<Value, AllocError>
    requires { AreInOrder (λ p. p.name) pins.now }
    ensures { IfOk result (λ v. view v ≡ object_from wire_member (map wire_of pins.now)) }
{
    let mut map = Map::new(alloc);
    for pin in pins {
        put_signals(alloc, &mut map, pin.name.as_str(), pin.bits.as_slice())?;
    }
    Ok(Value::Object(map))
}

fn side(pin: &PinDecl) -> &'static str
    ensures { string_data result.now ≡ (side_member pin.now).1 }
{
    if pin.output { "output" } else { "input" }
}

fn sides(alloc: Global, pins: &[PinDecl]) -> Result<Value, AllocError>
    requires { AreInOrder (λ p. p.name) pins.now }
    ensures { IfOk result (λ v. view v ≡ object_from side_member pins.now) }
{
    let mut map = Map::new(alloc);
    for pin in pins {
        put_text(alloc, &mut map, pin.name.as_str(), side(pin))?;
    }
    Ok(Value::Object(map))
}

fn put_connections(alloc: Global, members: &mut Members, pins: &[PinDecl]) -> Result<(), AllocError>
    requires { AreInOrder (λ p. p.name) pins.now }
    ensures { OnOk result (members_view members.new.entries
        ≡ put (codes "connections") (object_from wire_member (map wire_of pins.now)) (members_view members.old.entries)) }
{
    let value = connections(alloc, pins)?;
    serde_json::put(members, alloc, "connections", value)
}

fn put_sides(alloc: Global, members: &mut Members, pins: &[PinDecl]) -> Result<(), AllocError>
    requires { AreInOrder (λ p. p.name) pins.now }
    ensures { OnOk result (members_view members.new.entries
        ≡ put (codes "port_directions") (object_from side_member pins.now) (members_view members.old.entries)) }
{
    let value = sides(alloc, pins)?;
    serde_json::put(members, alloc, "port_directions", value)
}

/// The value of a cell.
pub(crate) fn cell_value(alloc: Global, cell: &CellDecl) -> Result<Value, AllocError>
    requires { IsCell cell.now }
    ensures { IfOk result (λ v. view v ≡ (cell_member cell.now).1) }
{
    let mut members = Map::new(alloc);
    put_entries(
        alloc,
        &mut members,
        "attributes",
        cell.attributes.as_slice(),
    )?;
    put_connections(alloc, &mut members, cell.pins.as_slice())?;
    serde_json::put(&mut members, alloc, "hide_name", Value::from(1u64))?;
    put_entries(
        alloc,
        &mut members,
        "parameters",
        cell.parameters.as_slice(),
    )?;
    put_sides(alloc, &mut members, cell.pins.as_slice())?;
    put_text(alloc, &mut members, "type", cell.kind.as_str())?;
    Ok(Value::Object(members))
}
