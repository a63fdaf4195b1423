// Cells and their pins.
ghost use Rattle.std.specs.Prelude.{◌≡◌, IfOk, map, codes};
ghost use Rattle.serde_json.specs.View.{members_view, view};
ghost use Rattle.cs_json.specs.Gives.{Gives, members_at};
ghost use Rattle.cs_json.specs.Shape.{wires, pin_of, cell, entries_of, says};
ghost use Rattle.cs_json.specs.Walk.{required as required_at, text as text_at};

use crate::document::{CellDecl, PinDecl};
use crate::entries::entries_at;
use crate::error::ReadError;
use crate::keyed::{Keyed, each_at};
use crate::members::{Members, object, optional, required, says};
use crate::places::{at_key, refused_here};
use crate::signals::signals_of;
use cs_base::{Sequence, Signal, Text};
use serde_json::Value;
use std::alloc::{AllocError, Global};

// The bits of a pin under its name; the direction stands elsewhere.
type Wire = (Text, Sequence<Signal>);

impl Keyed for Wire {
    ghost use Rattle.cs_json.specs.Shape.{wire};

    ghost read_from = { wire };

    fn read(alloc: Global, name: &str, value: &Value) -> Result<Self, ReadError> {
        let bits = signals_of(alloc, false, value)?;
        Ok((Text::from_str(alloc, name)?, bits))
    }
}

fn wires(alloc: Global, value: &Value) -> Result<Sequence<Wire>, ReadError>
    ensures { Gives result (wires (view value.now)) }
{
    let members = object(alloc, value)?;
    each_at(alloc, Some(members))
}

fn is_output(directions: Option<&Members>, name: &str) -> bool
    ensures { result ≡ says (codes "output") name.now (members_at directions.entry) }
{
    match directions {
        Some(map) => says(map, name, "output"),
        None => false,
    }
}

fn pins(
    alloc: Global,
    wires: Sequence<Wire>,
    directions: Option<&Members>,
) -> Result<Sequence<PinDecl>, AllocError>
    ensures { IfOk result (λ ps. ps ≡ map (pin_of (members_at directions.entry)) wires) }
{
    let mut found = Sequence::new(alloc);
    for (name, bits) in wires.into_vec() {
        let output = is_output(directions, name.as_str());
        found.push(PinDecl { name, bits, output })?;
    }
    Ok(found)
}

fn text(alloc: Global, value: &Value) -> Result<Text, ReadError>
    ensures { Gives result (text_at (view value.now)) }
{
    match value {
        Value::String(text) => Ok(Text::from_str(alloc, text.as_str())?),
        _ => Err(refused_here(alloc)),
    }
}

// The bits of all pins, which have to be there.
fn wires_in(alloc: Global, members: &Members) -> Result<Sequence<Wire>, ReadError>
    ensures { Gives result (required_at wires (codes "connections") (members_view members.now.entries)) }
{
    let connections = required(alloc, members, "connections")?;
    at_key(alloc, "connections", wires(alloc, connections))
}

// The name of the type, which has to be there.
fn kind_in(alloc: Global, members: &Members) -> Result<Text, ReadError>
    ensures { Gives result (required_at text_at (codes "type") (members_view members.now.entries)) }
{
    let kind = required(alloc, members, "type")?;
    at_key(alloc, "type", text(alloc, kind))
}

// A cell of these parts, none of which is refused any more.
fn declared(
    alloc: Global,
    name: &str,
    kind: Text,
    parameters: Option<&Members>,
    attributes: Option<&Members>,
    pins: Sequence<PinDecl>,
) -> Result<CellDecl, AllocError>
    ensures { IfOk result (λ made. made ≡ record {
      name = name.now;
      kind = kind;
      parameters = entries_of (members_at parameters.entry);
      attributes = entries_of (members_at attributes.entry);
      pins = pins;
    }) }
{
    Ok(CellDecl {
        name: Text::from_str(alloc, name)?,
        kind,
        parameters: entries_at(alloc, parameters)?,
        attributes: entries_at(alloc, attributes)?,
        pins,
    })
}

fn cell(alloc: Global, name: &str, value: &Value) -> Result<CellDecl, ReadError>
    ensures { Gives result (cell name.now (view value.now)) }
{
    let members = object(alloc, value)?;
    let attributes = optional(alloc, members, "attributes")?;
    let wires = wires_in(alloc, members)?;
    let parameters = optional(alloc, members, "parameters")?;
    let directions = optional(alloc, members, "port_directions")?;
    let pins = pins(alloc, wires, directions)?;
    let kind = kind_in(alloc, members)?;
    Ok(declared(alloc, name, kind, parameters, attributes, pins)?)
}

impl Keyed for CellDecl {
    ghost use Rattle.cs_json.specs.Shape.{cell};

    ghost read_from = { cell };

    fn read(alloc: Global, name: &str, value: &Value) -> Result<Self, ReadError> {
        cell(alloc, name, value)
    }
}
