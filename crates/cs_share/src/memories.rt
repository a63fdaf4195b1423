// The memories of the written netlist, with their ports.
ghost use Rattle.std.specs.Prelude.{◌≡◌, ◌++◌, [], ◌∷◌, IfOk, OnOk, length, map};
ghost use Rattle.std.specs.List.{enumerate_from};
ghost use Rattle.cs_share.specs.Planned.{HasPort, add_port, empty_memory, feed_signals, planned_memory, read_of, write_in};

use crate::numbers::number_at;
use crate::signals::{feed_signals, first_signals, signals_after};
use cs_base::{BitId, MemId, Sequence, Signal, VertexId};
use cs_circuit::{MemoryPart, ReadPart, WritePart};
use cs_graph::{Machine, Memory, Vertex, VertexKind};
use std::alloc::{AllocError, Global};

// ---- ports

fn read_part(
    alloc: Global,
    numbers: &[u32],
    signals: &[Signal],
    v: usize,
    vertex: &Vertex,
) -> Result<ReadPart, AllocError>
    ensures { IfOk result (λ part. part ≡ read_of numbers.now signals.now v vertex.now) }
{
    Ok(ReadPart {
        address: feed_signals(alloc, signals, vertex)?,
        first: BitId::new(number_at(numbers, v)),
    })
}

// The write port of a memory of these sizes with these pins.
fn write_part(
    alloc: Global,
    abits: u32,
    width: u32,
    pins: &[Signal],
) -> Result<WritePart, AllocError>
    ensures { IfOk result (λ part. part ≡ write_in abits width pins.now) }
{
    let behind = signals_after(pins, abits as usize);
    let enables = signals_after(behind, width as usize);
    Ok(WritePart {
        address: first_signals(alloc, pins, abits as usize)?,
        data: first_signals(alloc, behind, width as usize)?,
        enable: first_signals(alloc, enables, enables.len())?,
    })
}

fn add_read(part: &mut MemoryPart, read: ReadPart) -> Result<(), AllocError>
    ensures { OnOk result (part.new ≡ record part.old { reads = part.old.reads ++ read ∷ [] }) }
{
    part.reads.push(read)
}

fn add_write(part: &mut MemoryPart, write: WritePart) -> Result<(), AllocError>
    ensures { OnOk result (part.new ≡ record part.old { writes = part.old.writes ++ write ∷ [] }) }
{
    part.writes.push(write)
}

// Puts the write port that a vertex is behind the others of its memory.
fn push_write(
    alloc: Global,
    part: &mut MemoryPart,
    signals: &[Signal],
    vertex: &Vertex,
) -> Result<(), AllocError>
    ensures { OnOk result (part.new ≡ record part.old {
      writes = part.old.writes
          ++ write_in part.old.abits part.old.width (feed_signals signals.now vertex.now) ∷ [];
    }) }
{
    let pins = feed_signals(alloc, signals, vertex)?;
    let write = write_part(alloc, part.abits, part.width, pins.as_slice())?;
    add_write(part, write)
}

// Puts the read port that vertex v is behind the others of its memory.
fn push_read(
    alloc: Global,
    part: &mut MemoryPart,
    numbers: &[u32],
    signals: &[Signal],
    v: usize,
    vertex: &Vertex,
) -> Result<(), AllocError>
    ensures { OnOk result (part.new ≡ record part.old {
      reads = part.old.reads
          ++ read_of numbers.now signals.now v vertex.now ∷ [];
    }) }
{
    let read = read_part(alloc, numbers, signals, v, vertex)?;
    add_read(part, read)
}

// Puts the port that vertex v is, if it is one, behind the others of its memory.
fn push_port(
    alloc: Global,
    parts: &mut Vec<MemoryPart>,
    numbers: &[u32],
    signals: &[Signal],
    v: usize,
    vertex: &Vertex,
) -> Result<(), AllocError>
    requires { HasPort (length parts.old.items) vertex.now.kind }
    ensures { OnOk result (parts.new.items ≡ add_port numbers.now signals.now v vertex.now vertex.now.kind parts.old.items) }
{
    match vertex.kind {
        VertexKind::Read { memory, .. } => push_read(
            alloc,
            &mut parts[memory.get() as usize],
            numbers,
            signals,
            v,
            vertex,
        ),
        VertexKind::Write { memory, .. } => {
            push_write(alloc, &mut parts[memory.get() as usize], signals, vertex)
        }
        VertexKind::Host => Ok(()),
        VertexKind::Input => Ok(()),
        VertexKind::Output => Ok(()),
        VertexKind::Constant(_) => Ok(()),
        VertexKind::Gate(_) => Ok(()),
    }
}

// ---- memories

fn empty_memory(alloc: Global, memory: &Memory) -> Result<MemoryPart, AllocError>
    ensures { IfOk result (λ part. part ≡ empty_memory memory.now) }
{
    let start = Vec::from_slice(alloc, memory.start.as_slice())?;
    Ok(MemoryPart {
        words: memory.words,
        abits: memory.abits,
        width: memory.width,
        start: Sequence::from_vec(start),
        reads: Sequence::new(alloc),
        writes: Sequence::new(alloc),
    })
}

// The memories without ports.
fn empty_memories(alloc: Global, machine: &Machine) -> Result<Vec<MemoryPart>, AllocError>
    ensures { IfOk result (λ parts. parts.items ≡ map empty_memory machine.now.memories) }
{
    let mut parts = Vec::new(alloc);
    for i in 0..machine.memory_count() {
        parts.push(empty_memory(alloc, machine.memory(MemId::new(i)))?)?;
    }
    Ok(parts)
}

/// The memories, where vertices have these first numbers and the ends of edges read these signals, in one pass over the
/// vertices.
pub(crate) fn memory_parts(
    alloc: Global,
    machine: &Machine,
    numbers: &[u32],
    signals: &[Signal],
) -> Result<Sequence<MemoryPart>, AllocError>
    ensures { IfOk result (λ parts. parts ≡ map (planned_memory machine.now.vertices numbers.now signals.now)
        (enumerate_from 0 machine.now.memories)) }
{
    machine.keeps();
    let mut parts = empty_memories(alloc, machine)?;
    for v in 0..machine.vertex_count() {
        let vertex = machine.vertex(VertexId::new(v));
        push_port(alloc, &mut parts, numbers, signals, v as usize, vertex)?;
    }
    Ok(Sequence::from_vec(parts))
}
