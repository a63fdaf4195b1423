// A document to bytes, a part at a time.
ghost use Rattle.std.specs.Prelude.{◌≡◌, ◌++◌, ◌∷◌, [], IfOk, OnOk, false, string_bytes};
ghost use Rattle.std.specs.List.{AllByRecursion};
ghost use Rattle.json.specs.Print.{quoted};
ghost use Rattle.serde_json.specs.View.{view};
ghost use Rattle.serde_json.specs.Written.{comma_if, compact_text, has_float};
ghost use Rattle.cs_json.specs.Printed.{Member, entry_member, object_from, printed};
ghost use Rattle.cs_json.specs.Readable.{AreEntries, IsReadable};
ghost use Rattle.cs_json.specs.Shape.{document, Says};

use crate::document::{CellDecl, Document, Entry, Module, NetDecl, PortDecl};
use crate::values::{cell_value, entries_value, net_value, port_value};
use serde_json::Value;
use std::alloc::{AllocError, Global};

// What prints as a member of an object: ports, netnames, cells and modules.
trait Printing {
    // The key and the value that it prints as.
    ghost member: { Self → Member };

    // It is read again.
    ghost is_readable: { Self → Type 0 };

    fn name(&self) -> &str
        ensures { result.now ≡ (member self.now).0 };

    // Prints its value behind a text.
    fn put(&self, alloc: Global, text: &mut String) -> Result<(), AllocError>
        requires { is_readable self.now }
        ensures { OnOk result (string_bytes text.new
            ≡ string_bytes text.old ++ compact_text (member self.now).1) };
}

fn put_value(alloc: Global, text: &mut String, value: &Value) -> Result<(), AllocError>
    requires { has_float (view value.now) ≡ false }
    ensures { OnOk result (string_bytes text.new
        ≡ string_bytes text.old ++ compact_text (view value.now)) }
{
    let part = value.to_string(alloc)?;
    text.push_str(part.as_str())
}

fn put_string(alloc: Global, text: &mut String, string: &str) -> Result<(), AllocError>
    ensures { OnOk result (string_bytes text.new ≡ string_bytes text.old ++ quoted string.now) }
{
    let value = Value::try_from_str(alloc, string)?;
    put_value(alloc, text, &value)
}

// Prints a key and its colon, behind a comma where a member stands before.
fn put_key(alloc: Global, text: &mut String, later: bool, key: &str) -> Result<(), AllocError>
    ensures { OnOk result (string_bytes text.new
        ≡ string_bytes text.old ++ (comma_if later ++ (quoted key.now ++ 58 ∷ []))) }
{
    if later {
        text.push_str(",")?;
    }
    put_string(alloc, text, key)?;
    text.push_str(":")
}

// Prints an object with a member for each thing of a list, a thing at a time.
fn put_object<T: Printing>(alloc: Global, text: &mut String, items: &[T]) -> Result<(), AllocError>
    requires { AllByRecursion T.is_readable items.now }
    ensures { OnOk result (string_bytes text.new
        ≡ string_bytes text.old ++ compact_text (object_from T.member items.now)) }
{
    text.push_str("{")?;
    let mut later = false;
    for item in items {
        put_key(alloc, text, later, item.name())?;
        item.put(alloc, text)?;
        later = true;
    }
    text.push_str("}")
}

fn put_entries(alloc: Global, text: &mut String, entries: &[Entry]) -> Result<(), AllocError>
    requires { AreEntries entries.now }
    ensures { OnOk result (string_bytes text.new
        ≡ string_bytes text.old ++ compact_text (object_from entry_member entries.now)) }
{
    let value = entries_value(alloc, entries)?;
    put_value(alloc, text, &value)
}

impl Printing for PortDecl {
    ghost use Rattle.cs_json.specs.Printed.{port_member};
    ghost use Rattle.cs_json.specs.Readable.{IsPort};

    ghost member = { port_member };

    ghost is_readable = { IsPort };

    fn name(&self) -> &str {
        self.name.as_str()
    }

    fn put(&self, alloc: Global, text: &mut String) -> Result<(), AllocError> {
        let value = port_value(alloc, self)?;
        put_value(alloc, text, &value)
    }
}

impl Printing for NetDecl {
    ghost use Rattle.cs_json.specs.Printed.{net_member};
    ghost use Rattle.cs_json.specs.Readable.{IsNet};

    ghost member = { net_member };

    ghost is_readable = { IsNet };

    fn name(&self) -> &str {
        self.name.as_str()
    }

    fn put(&self, alloc: Global, text: &mut String) -> Result<(), AllocError> {
        let value = net_value(alloc, self)?;
        put_value(alloc, text, &value)
    }
}

impl Printing for CellDecl {
    ghost use Rattle.cs_json.specs.Printed.{cell_member};
    ghost use Rattle.cs_json.specs.Readable.{IsCell};

    ghost member = { cell_member };

    ghost is_readable = { IsCell };

    fn name(&self) -> &str {
        self.name.as_str()
    }

    fn put(&self, alloc: Global, text: &mut String) -> Result<(), AllocError> {
        let value = cell_value(alloc, self)?;
        put_value(alloc, text, &value)
    }
}

impl Printing for Module {
    ghost use Rattle.cs_json.specs.Printed.{module_member};
    ghost use Rattle.cs_json.specs.Readable.{IsModule};

    ghost member = { module_member };

    ghost is_readable = { IsModule };

    fn name(&self) -> &str {
        self.name.as_str()
    }

    fn put(&self, alloc: Global, text: &mut String) -> Result<(), AllocError> {
        text.push_str("{")?;
        put_key(alloc, text, false, "attributes")?;
        put_entries(alloc, text, self.attributes.as_slice())?;
        put_key(alloc, text, true, "cells")?;
        put_object(alloc, text, self.cells.as_slice())?;
        put_key(alloc, text, true, "netnames")?;
        put_object(alloc, text, self.nets.as_slice())?;
        put_key(alloc, text, true, "ports")?;
        put_object(alloc, text, self.ports.as_slice())?;
        text.push_str("}")
    }
}

/// Prints a document as compact JSON with keys in byte order, and one newline.
///
/// A value is built for one port, netname or cell at a time. It errs only where memory runs out.
pub fn print_document(alloc: Global, doc: &Document) -> Result<Vec<u8>, AllocError>
    requires { IsReadable doc.now }
    ensures text { IfOk result (λ bytes. bytes.items ≡ printed doc.now) }
    ensures reads_back { IfOk result (λ bytes. document bytes.items ≡ Says doc.now) }
{
    let mut text = String::from_str(alloc, "{")?;
    put_key(alloc, &mut text, false, "creator")?;
    put_string(alloc, &mut text, "cslow")?;
    put_key(alloc, &mut text, true, "modules")?;
    put_object(alloc, &mut text, doc.modules.as_slice())?;
    text.push_str("}\n")?;
    Ok(text.into_bytes())
}
