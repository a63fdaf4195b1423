// Machines of documents, as texts.
ghost use Rattle.cs_json.specs.Readable.{IsReadable};

use crate::documents::document;
use cs_base::{EdgeId, MemId, VertexId};
use cs_graph::{Feed, Machine, Memory, Vertex, VertexKind};
use cs_json::{Document, read_document};
use cs_lower::{LowerError, Lowered, lower};
use cs_net::{Netlist, accept};
use std::alloc::{AllocError, Global};
use std::process::Abort;

// ---- lowering

fn read(rt: &impl Abort, alloc: Global, items: &str) -> Document
    ensures { IsReadable result }
{
    let text = document(alloc, items).expect(rt, "a text");
    read_document(alloc, text.as_bytes()).expect(rt, "a document")
}

fn netlist(rt: &impl Abort, alloc: Global, items: &str) -> Netlist {
    let document = read(rt, alloc, items);
    accept(alloc, &document, None).expect(rt, "a netlist")
}

/// The machine of the document of these items.
pub(crate) fn lowered(rt: &impl Abort, alloc: Global, items: &str) -> Result<Lowered, LowerError> {
    let net = netlist(rt, alloc, items);
    lower(alloc, &net)
}

// ---- texts

// Bits as digits.
fn digits(alloc: Global, bits: &[bool]) -> Result<String, AllocError> {
    let mut text = String::new(alloc);
    for bit in bits {
        text.push_str(if *bit { "1" } else { "0" })?;
    }
    Ok(text)
}

fn kind_text(alloc: Global, kind: VertexKind) -> Result<String, AllocError> {
    match kind {
        VertexKind::Host => String::from_str(alloc, "Host"),
        VertexKind::Input => String::from_str(alloc, "Input"),
        VertexKind::Output => String::from_str(alloc, "Output"),
        VertexKind::Constant(bit) => format!(in alloc; "Constant {}", u8::from(bit)),
        VertexKind::Gate(gate) => String::from_str(alloc, gate.name()),
        VertexKind::Read { memory, port } => format!(in alloc; "Read {}.{port}", memory.get()),
        VertexKind::Write { memory, port } => format!(in alloc; "Write {}.{port}", memory.get()),
    }
}

// An edge: its number, the vertex and the output that it comes from, and its contents.
fn edge_text(alloc: Global, machine: &Machine, id: EdgeId) -> Result<String, AllocError> {
    if id.get() >= machine.edge_count() {
        return String::from_str(alloc, "no edge");
    }
    let edge = machine.edge(id);
    let contents = digits(alloc, edge.contents.as_slice())?;
    let (from, output) = (edge.from.get(), edge.output);
    format!(in alloc; "e{}={from}.{output}:{}", id.get(), contents.as_str())
}

fn feed_text(alloc: Global, machine: &Machine, feed: Feed) -> Result<String, AllocError> {
    match feed {
        Feed::Tied(bit) => format!(in alloc; "={}", u8::from(bit)),
        Feed::Edge(id) => edge_text(alloc, machine, id),
    }
}

// A vertex: its kind, the name of the gate cell that it is, and its pins.
fn vertex_text(
    alloc: Global,
    machine: &Machine,
    vertex: &Vertex,
    origin: &str,
) -> Result<String, AllocError> {
    let mut text = kind_text(alloc, vertex.kind)?;
    if !origin.is_empty() {
        text.push_str(" ")?;
        text.push_str(origin)?;
    }
    for feed in vertex.pins.as_slice() {
        text.push_str(" ")?;
        let feed = feed_text(alloc, machine, *feed)?;
        text.push_str(feed.as_str())?;
    }
    Ok(text)
}

fn memory_text(alloc: Global, memory: &Memory) -> Result<String, AllocError> {
    let Memory {
        size,
        words,
        abits,
        width,
        start,
    } = memory;
    let start = digits(alloc, start.as_slice())?;
    format!(in alloc;
        "; size {size} words {words} abits {abits} width {width} start {}",
        start.as_str()
    )
}

// The origin of the vertex of a number.
fn origin_of(lowered: &Lowered, v: u32) -> &str {
    match lowered.origins.as_slice().get(v as usize) {
        Some(origin) => origin.as_str(),
        None => "no origin",
    }
}

fn push_vertices(alloc: Global, text: &mut String, lowered: &Lowered) -> Result<(), AllocError> {
    let machine = &lowered.machine;
    for v in 0..machine.vertex_count() {
        let vertex = machine.vertex(VertexId::new(v));
        let vertex = vertex_text(alloc, machine, vertex, origin_of(lowered, v))?;
        let comma = if v == 0 { "" } else { "; " };
        let vertex = format!(in alloc; "{comma}{v} {}", vertex.as_str())?;
        text.push_str(vertex.as_str())?;
    }
    Ok(())
}

/// The vertices, each with its number, its kind, the name of the gate cell that it is and its pins, and then the
/// memories. A pin is a tied bit, as `=1`, or an edge, as `e0=3.1:01`: its number, the vertex and the output that it comes
/// from, and its contents.
pub(crate) fn machine_text(alloc: Global, lowered: &Lowered) -> Result<String, AllocError> {
    let mut text = String::new(alloc);
    push_vertices(alloc, &mut text, lowered)?;
    for memory in 0..lowered.machine.memory_count() {
        let memory = memory_text(alloc, lowered.machine.memory(MemId::new(memory)))?;
        text.push_str(memory.as_str())?;
    }
    Ok(text)
}

/// Asserts that the machine of the document of these items is this.
pub(crate) fn assert_machine(rt: &impl Abort, alloc: Global, items: &str, wanted: &str) {
    let lowered = lowered(rt, alloc, items).expect(rt, "a machine");
    let found = machine_text(alloc, &lowered).expect(rt, "a text");
    assert!(rt; lowered.origins.len() == lowered.machine.vertex_count() as usize);
    assert!(rt; found.as_str() == wanted, "{items}: {found}");
}
