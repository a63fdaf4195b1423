// Modules and the root.
ghost use Rattle.serde_json.specs.View.{view, members_view};
ghost use Rattle.cs_json.specs.Gives.{Gives};
ghost use Rattle.cs_json.specs.Shape.{«module» as module_of, modules, root};
ghost use Rattle.cs_json.specs.Walk.{each_of};

use crate::document::{Document, Module};
use crate::entries::entries_at;
use crate::error::ReadError;
use crate::keyed::{Keyed, each_at};
use crate::members::{Members, object, optional, required};
use crate::places::at_key;
use cs_base::{Sequence, Text};
use serde_json::Value;
use std::alloc::Global;

fn each_under<T: Keyed>(alloc: Global, map: &Members, key: &str) -> Result<Sequence<T>, ReadError>
    ensures { Gives result (each_of T.read_from key.now (members_view map.now.entries)) }
{
    let found = optional(alloc, map, key)?;
    at_key(alloc, key, each_at(alloc, found))
}

fn module(alloc: Global, name: &str, value: &Value) -> Result<Module, ReadError>
    ensures { Gives result (module_of name.now (view value.now)) }
{
    let members = object(alloc, value)?;
    let attributes = optional(alloc, members, "attributes")?;
    let cells = each_under(alloc, members, "cells")?;
    let nets = each_under(alloc, members, "netnames")?;
    let ports = each_under(alloc, members, "ports")?;
    Ok(Module {
        name: Text::from_str(alloc, name)?,
        attributes: entries_at(alloc, attributes)?,
        ports,
        cells,
        nets,
    })
}

impl Keyed for Module {
    ghost use Rattle.cs_json.specs.Shape.{«module» as module_of};

    ghost read_from = { module_of };

    fn read(alloc: Global, name: &str, value: &Value) -> Result<Self, ReadError> {
        module(alloc, name, value)
    }
}

fn modules(alloc: Global, value: &Value) -> Result<Sequence<Module>, ReadError>
    ensures { Gives result (modules (view value.now)) }
{
    let members = object(alloc, value)?;
    each_at(alloc, Some(members))
}

/// The document that a JSON value is.
pub(crate) fn root(alloc: Global, value: &Value) -> Result<Document, ReadError>
    ensures { Gives result (root (view value.now)) }
{
    let members = object(alloc, value)?;
    let value = required(alloc, members, "modules")?;
    let modules = at_key(alloc, "modules", modules(alloc, value))?;
    Ok(Document { modules })
}
