// Machines with one memory, whose ports have all pins tied.
ghost use Rattle.std.specs.Prelude.{◌≤◌, ◌^◌};
ghost use Rattle.std.specs.Bool.{OnTrue};
ghost use Rattle.cs_graph.specs.Invariant.{IsMemory};

use crate::checks::addresses;
use cs_base::{Sequence, VertexId};
use cs_cells::Kind;
use cs_graph::{Machine, MachineBuilder, Memory, VertexKind};
use std::alloc::Global;
use std::process::Abort;

// Whether a builder takes the memory.
fn is_memory(memory: &Memory) -> bool
    ensures { OnTrue result (IsMemory memory.now) }
{
    let bits = u64::from(memory.words) * u64::from(memory.width);
    memory.abits <= 20
        && memory.words > 0
        && memory.width > 0
        && u64::from(memory.words) <= addresses(memory.abits)
        && bits <= 4_194_304
        && memory.start.len() as u64 == bits
}

/// A memory with a word for each address; every third bit of the words below its size is 1.
pub fn memory(rt: &impl Abort, alloc: Global, size: u32, abits: u32, width: u32) -> Memory {
    assert!(rt; abits <= 20 && width <= 4 && size <= 2_097_152);
    let words = addresses(abits);
    let (bits, reached) = (words * u64::from(width), u64::from(size) * u64::from(width));
    let mut start = Vec::new(alloc);
    for bit in 0..bits {
        start
            .push(bit < reached && bit % 3 == 0)
            .expect(rt, "a bit");
    }
    Memory {
        size,
        words: words as u32,
        abits,
        width,
        start: Sequence::from_vec(start),
    }
}

// Ties the open pins of a vertex.
fn tie(builder: &mut MachineBuilder, v: VertexId, pins: u32) {
    for pin in 0..pins {
        if builder.is_open(v, pin) {
            builder.tie(v, pin, false);
        }
    }
}

/// A Read 1 and a Write 2 of this memory.
pub fn with_read_and_write(rt: &impl Abort, alloc: Global, memory: Memory) -> Machine {
    assert!(rt; is_memory(&memory) && memory.width <= 4);
    let (abits, width) = (memory.abits, memory.width);
    let mut builder = MachineBuilder::new(alloc).expect(rt, "a builder");
    let memory = builder.add_memory(memory).expect(rt, "a memory");
    let read = builder.add_vertex(alloc, VertexKind::Read { memory, port: 0 });
    let read = read.expect(rt, "a read port");
    let write = builder.add_vertex(alloc, VertexKind::Write { memory, port: 0 });
    let write = write.expect(rt, "a write port");
    tie(&mut builder, read, abits);
    tie(&mut builder, write, abits + 2 * width);
    builder.finish(alloc).expect(rt, "a machine")
}

/// Two Writes 1 and 2 of this memory.
pub fn with_two_writes(rt: &impl Abort, alloc: Global, memory: Memory) -> Machine {
    assert!(rt; is_memory(&memory) && memory.width <= 4);
    let (abits, width) = (memory.abits, memory.width);
    let mut builder = MachineBuilder::new(alloc).expect(rt, "a builder");
    let memory = builder.add_memory(memory).expect(rt, "a memory");
    let first = builder.add_vertex(alloc, VertexKind::Write { memory, port: 0 });
    let first = first.expect(rt, "a write port");
    let second = builder.add_vertex(alloc, VertexKind::Write { memory, port: 1 });
    let second = second.expect(rt, "a write port");
    tie(&mut builder, first, abits + 2 * width);
    tie(&mut builder, second, abits + 2 * width);
    builder.finish(alloc).expect(rt, "a machine")
}

// A builder with this memory alone, without a port.
fn with_memory(rt: &impl Abort, alloc: Global, memory: Memory) -> MachineBuilder {
    assert!(rt; is_memory(&memory));
    let mut builder = MachineBuilder::new(alloc).expect(rt, "a builder");
    let _ = builder.add_memory(memory).expect(rt, "a memory");
    builder
}

/// A machine of this memory alone, without a port.
pub fn without_port(rt: &impl Abort, alloc: Global, memory: Memory) -> Machine {
    let builder = with_memory(rt, alloc, memory);
    builder.finish(alloc).expect(rt, "a machine")
}

/// A machine of two memories without ports.
pub fn with_two_memories(rt: &impl Abort, alloc: Global, first: Memory, second: Memory) -> Machine {
    assert!(rt; is_memory(&first) && is_memory(&second));
    let mut builder = MachineBuilder::new(alloc).expect(rt, "a builder");
    let _ = builder.add_memory(first).expect(rt, "a memory");
    let _ = builder.add_memory(second).expect(rt, "a memory");
    builder.finish(alloc).expect(rt, "a machine")
}

fn add(rt: &impl Abort, alloc: Global, builder: &mut MachineBuilder, gate: Option<Kind>) {
    builder.keeps();
    let added = match gate {
        Some(gate) => builder.add_vertex(alloc, VertexKind::Gate(gate)),
        None => builder.add_vertex(alloc, VertexKind::Input),
    };
    let _ = added.expect(rt, "a vertex");
}

// Feeds pin `pin` of a vertex from a vertex, through so many registers.
fn feed(
    rt: &impl Abort,
    alloc: Global,
    builder: &mut MachineBuilder,
    to: (u32, u32),
    from: u32,
    registers: usize,
) {
    let (vertex, from) = (VertexId::new(to.0), VertexId::new(from));
    assert!(rt; builder.is_open(vertex, to.1) && builder.has_output(from, 0));
    let contents = vec![in alloc; false; registers].expect(rt, "contents");
    let fed = builder.feed(vertex, to.1, from, 0, Sequence::from_vec(contents));
    fed.expect(rt, "an edge");
}

/// A machine of a memory of one bit without a port, and so many inputs.
pub fn with_inputs(rt: &impl Abort, alloc: Global, inputs: u32) -> Machine {
    let mut builder = with_memory(rt, alloc, memory(rt, alloc, 1, 0, 1));
    for _ in 0..inputs {
        add(rt, alloc, &mut builder, None);
    }
    builder.finish(alloc).expect(rt, "a machine")
}

/// A machine of a memory of one bit without a port, and a buffer that reads itself through so many registers.
pub fn with_registers(rt: &impl Abort, alloc: Global, registers: usize) -> Machine {
    let mut builder = with_memory(rt, alloc, memory(rt, alloc, 1, 0, 1));
    add(rt, alloc, &mut builder, Some(Kind::Buf));
    feed(rt, alloc, &mut builder, (1, 0), 1, registers);
    builder.finish(alloc).expect(rt, "a machine")
}

/// A machine of a memory of one bit without a port, and an input that so many pins of multiplexers read.
pub fn with_edges(rt: &impl Abort, alloc: Global, edges: u32) -> Machine {
    let mut builder = with_memory(rt, alloc, memory(rt, alloc, 1, 0, 1));
    add(rt, alloc, &mut builder, None);
    for edge in 0..edges {
        if edge % 20 == 0 {
            add(rt, alloc, &mut builder, Some(Kind::Mux16));
        }
        feed(rt, alloc, &mut builder, (2 + edge / 20, edge % 20), 1, 0);
    }
    for pin in edges % 20..20 {
        let last = VertexId::new(1 + edges / 20 + 1);
        if builder.is_open(last, pin) {
            builder.tie(last, pin, false);
        }
    }
    builder.finish(alloc).expect(rt, "a machine")
}
