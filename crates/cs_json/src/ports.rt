// Ports and netnames.
ghost use Rattle.std.specs.Prelude.{◌≡◌};
ghost use Rattle.serde_json.specs.View.{view};
ghost use Rattle.cs_json.specs.Gives.{Gives};
ghost use Rattle.cs_json.specs.Shape.{direction_of, direction, port, net};

use crate::document::{Direction, NetDecl, PortDecl};
use crate::entries::entries_at;
use crate::error::ReadError;
use crate::keyed::Keyed;
use crate::members::{object, optional, required, says};
use crate::places::{at_key, refused_here};
use crate::signals::signals_of;
use cs_base::Text;
use serde_json::Value;
use std::alloc::Global;

fn direction_of(text: &str) -> Option<Direction>
    ensures { result ≡ direction_of text.now }
{
    match text {
        "input" => Some(Direction::Input),
        "output" => Some(Direction::Output),
        "inout" => Some(Direction::Inout),
        _ => None,
    }
}

fn direction(alloc: Global, value: &Value) -> Result<Direction, ReadError>
    ensures { Gives result (direction (view value.now)) }
{
    match value {
        Value::String(text) => match direction_of(text.as_str()) {
            Some(found) => Ok(found),
            None => Err(refused_here(alloc)),
        },
        _ => Err(refused_here(alloc)),
    }
}

fn port(alloc: Global, name: &str, value: &Value) -> Result<PortDecl, ReadError>
    ensures { Gives result (port name.now (view value.now)) }
{
    let members = object(alloc, value)?;
    let only_bits = says(members, "direction", "input");
    let bits = required(alloc, members, "bits")?;
    let bits = at_key(alloc, "bits", signals_of(alloc, only_bits, bits))?;
    let direction_value = required(alloc, members, "direction")?;
    let direction = at_key(alloc, "direction", direction(alloc, direction_value))?;
    Ok(PortDecl {
        name: Text::from_str(alloc, name)?,
        direction,
        bits,
    })
}

fn net(alloc: Global, name: &str, value: &Value) -> Result<NetDecl, ReadError>
    ensures { Gives result (net name.now (view value.now)) }
{
    let members = object(alloc, value)?;
    let attributes = optional(alloc, members, "attributes")?;
    let bits = required(alloc, members, "bits")?;
    let bits = at_key(alloc, "bits", signals_of(alloc, false, bits))?;
    Ok(NetDecl {
        name: Text::from_str(alloc, name)?,
        bits,
        attributes: entries_at(alloc, attributes)?,
    })
}

impl Keyed for PortDecl {
    ghost use Rattle.cs_json.specs.Shape.{port};

    ghost read_from = { port };

    fn read(alloc: Global, name: &str, value: &Value) -> Result<Self, ReadError> {
        port(alloc, name, value)
    }
}

impl Keyed for NetDecl {
    ghost use Rattle.cs_json.specs.Shape.{net};

    ghost read_from = { net };

    fn read(alloc: Global, name: &str, value: &Value) -> Result<Self, ReadError> {
        net(alloc, name, value)
    }
}
