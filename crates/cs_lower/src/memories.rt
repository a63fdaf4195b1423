// The vertices of a memory: its read ports and its write ports.
ghost use Rattle.std.specs.Prelude.{◌≡◌, ◌+◌, ◌<◌, ◌^◌, ◌∷◌, ◌++◌, [], IfOk, OnOk, Some, codes, false, get_or, length, map};
ghost use Rattle.std.specs.List.{enumerate_from};
ghost use Rattle.cs_base.specs.declared.signal.Signal.TheVariants.{Zero};
ghost use Rattle.cs_cells.specs.Memories.{read_register};
ghost use Rattle.cs_net.specs.Drivers.{bits_of, read_data};
ghost use Rattle.cs_lower.specs.declared.taps.Tap.TheVariants.{Signal as of_signal};
ghost use Rattle.cs_lower.specs.Cells.{data_parts, held_parts, memory_parts, read_parts, read_piece, read_pins, read_wires, write_parts, write_piece};
ghost use Rattle.cs_lower.specs.Taps.{both, in_turn};

use crate::driven::DrivenBits;
use crate::registers::{RegisterPins, push_register};
use crate::taps::{Parts, Piece, Tap, Wire};
use cs_base::{MemId, Sequence, Signal};
use cs_cells::{FfKind, MemShape, ReadShape, ResetKind};
use cs_graph::VertexKind;
use cs_net::Cell;
use std::alloc::{AllocError, Global};

/// A cell that is a memory, with its number among the memories and its shape.
#[derive(Clone, Copy)]
pub(crate) struct MemoryCell<'a> {
    pub id: MemId,
    pub cell: &'a Cell,
    pub shape: &'a MemShape,
}

// ---- read ports

// What signals are as pins.
fn taps(alloc: Global, signals: &[Signal]) -> Result<Sequence<Tap>, AllocError>
    ensures { IfOk result (λ taps. taps ≡ map of_signal signals.now) }
{
    let mut taps = Sequence::new(alloc);
    for signal in signals {
        taps.push(Tap::Signal(*signal))?;
    }
    Ok(taps)
}

// Says that the data bits of an unclocked read come from its vertex.
fn drive_data(parts: &mut Parts, bits: &[Signal], vertex: usize) -> Result<(), AllocError>
    ensures { OnOk result (parts.new ≡ both parts.old (read_wires vertex (enumerate_from 0 bits.now))) }
{
    for (place, bit) in bits.iter().enumerate() {
        parts.drive(
            *bit,
            Wire::Vertex {
                vertex,
                output: place,
            },
        )?;
    }
    Ok(())
}

// A data bit of a clocked read is a register with active high enable and reset.
fn read_kind(read: &ReadShape, place: usize) -> FfKind
    ensures { result ≡ read_register (get_or read.now.reset_value place false) read.now.enable_over_reset }
{
    FfKind {
        rising: true,
        reset: Some(ResetKind {
            high: true,
            value: read
                .reset_value
                .as_slice()
                .get(place)
                .copied()
                .unwrap_or(false),
        }),
        enable: Some(true),
        enable_over_reset: read.enable_over_reset,
    }
}

// The signal of a port at a pin with one bit for each port.
fn port_signal(cell: &Cell, name: &str, port: usize) -> Signal
    ensures { result ≡ get_or (bits_of cell.now name.now) port Zero }
{
    cell.bits(name).get(port).copied().unwrap_or(Signal::Zero)
}

// The register of a data bit of a clocked read.
fn read_pins(cell: &Cell, port: usize, read: &ReadShape, place: usize, q: Signal) -> RegisterPins
    ensures { result ≡ read_pins cell.now (port, read.now) (place, q) }
{
    RegisterPins {
        kind: read_kind(read, place),
        q,
        start: read.start.as_slice().get(place).copied().unwrap_or(false),
        enable: port_signal(cell, "RD_EN", port),
        reset: port_signal(cell, "RD_SRST", port),
    }
}

// Pushes the register of a data bit of a clocked read, whose Read has the number `vertex`.
fn push_held_bit(
    alloc: Global,
    parts: &mut Parts,
    net: &DrivenBits,
    memory: &MemoryCell,
    port: usize,
    read: &ReadShape,
    vertex: usize,
    place: usize,
    q: Signal,
) -> Result<(), AllocError>
    ensures { OnOk result (parts.new ≡ both parts.old
        (held_parts net.now memory.now.cell.now memory.now.shape.now (port, read.now) vertex
        (length parts.old.pieces) (place, q))) }
{
    let pins = read_pins(memory.cell, port, read, place, q);
    let tap = Tap::Vertex {
        vertex,
        output: place,
    };
    push_register(alloc, parts, net, &pins, tap)
}

// Pushes the registers of the data bits of a clocked read, whose Read has the number `vertex`.
fn push_held_bits(
    alloc: Global,
    parts: &mut Parts,
    net: &DrivenBits,
    memory: &MemoryCell,
    port: usize,
    read: &ReadShape,
    vertex: usize,
) -> Result<(), AllocError>
    ensures { OnOk result (parts.new ≡ both parts.old
        (in_turn (held_parts net.now memory.now.cell.now memory.now.shape.now (port, read.now) vertex)
        (length parts.old.pieces) (read_data memory.now.cell.now memory.now.shape.now port))) }
{
    let bits = memory.cell.port_part("RD_DATA", memory.shape.width, port);
    for (place, bit) in bits.iter().enumerate() {
        push_held_bit(alloc, parts, net, memory, port, read, vertex, place, *bit)?;
    }
    Ok(())
}

// Pushes what a read port gives, whose Read was pushed last.
fn push_data(
    alloc: Global,
    parts: &mut Parts,
    net: &DrivenBits,
    memory: &MemoryCell,
    port: usize,
    read: &ReadShape,
    vertex: usize,
) -> Result<(), AllocError>
    requires { length parts.old.pieces ≡ vertex + 1 }
    ensures { OnOk result (parts.new ≡ both parts.old
        (data_parts net.now memory.now.cell.now memory.now.shape.now (port, read.now) vertex)) }
{
    if read.clocked {
        push_held_bits(alloc, parts, net, memory, port, read, vertex)
    } else {
        let bits = memory.cell.port_part("RD_DATA", memory.shape.width, port);
        drive_data(parts, bits, vertex)
    }
}

fn read_piece(alloc: Global, memory: &MemoryCell, port: usize) -> Result<Piece, AllocError>
    requires { port < 2 ^ 32 }
    ensures { IfOk result (λ piece. piece ≡ read_piece memory.now.id memory.now.cell.now memory.now.shape.now port) }
{
    let address = memory.cell.port_part("RD_ADDR", memory.shape.abits, port);
    let kind = VertexKind::Read {
        memory: memory.id,
        port: port as u32,
    };
    Ok(Piece::new(alloc, kind, taps(alloc, address)?))
}

// Pushes a read port: a Read and, where it is clocked, the vertices of a register for each data bit.
fn push_read(
    alloc: Global,
    parts: &mut Parts,
    net: &DrivenBits,
    memory: &MemoryCell,
    port: usize,
    read: &ReadShape,
) -> Result<(), AllocError>
    requires { port < 2 ^ 32 }
    ensures { OnOk result (parts.new ≡ both parts.old
        (read_parts net.now memory.now.id memory.now.cell.now memory.now.shape.now
        (length parts.old.pieces) (port, read.now))) }
{
    let piece = read_piece(alloc, memory, port)?;
    let vertex = parts.push(piece)?;
    push_data(alloc, parts, net, memory, port, read, vertex)
}

fn push_reads(
    alloc: Global,
    parts: &mut Parts,
    net: &DrivenBits,
    memory: &MemoryCell,
) -> Result<(), AllocError>
    requires { length memory.now.shape.now.reads < 2 ^ 32 }
    ensures { OnOk result (parts.new ≡ both parts.old
        (in_turn (read_parts net.now memory.now.id memory.now.cell.now memory.now.shape.now)
        (length parts.old.pieces) (enumerate_from 0 memory.now.shape.now.reads))) }
{
    for (port, read) in memory.shape.reads.as_slice().iter().enumerate() {
        push_read(alloc, parts, net, memory, port, read)?;
    }
    Ok(())
}

// ---- write ports

// A write port: address bits, data bits and enable bits.
fn write_piece(alloc: Global, memory: &MemoryCell, port: u32) -> Result<Piece, AllocError>
    ensures { IfOk result (λ piece. piece ≡ write_piece memory.now.id memory.now.cell.now memory.now.shape.now port) }
{
    let (cell, shape) = (memory.cell, memory.shape);
    let mut pins = Vec::new(alloc);
    pins.extend_from_slice(cell.port_part("WR_ADDR", shape.abits, port as usize))?;
    pins.extend_from_slice(cell.port_part("WR_DATA", shape.width, port as usize))?;
    pins.extend_from_slice(cell.port_part("WR_EN", shape.width, port as usize))?;
    let kind = VertexKind::Write {
        memory: memory.id,
        port,
    };
    Ok(Piece::new(alloc, kind, taps(alloc, pins.as_slice())?))
}

fn push_writes(alloc: Global, parts: &mut Parts, memory: &MemoryCell) -> Result<(), AllocError>
    ensures { OnOk result (parts.new ≡ both parts.old
        (write_parts memory.now.id memory.now.cell.now memory.now.shape.now)) }
{
    for port in 0..memory.shape.writes {
        let piece = write_piece(alloc, memory, port)?;
        parts.push(piece)?;
    }
    Ok(())
}

/// Pushes the vertices of a memory: its read ports, then its write ports.
pub(crate) fn push_memory(
    alloc: Global,
    parts: &mut Parts,
    net: &DrivenBits,
    memory: &MemoryCell,
) -> Result<(), AllocError>
    requires { length memory.now.shape.now.reads < 2 ^ 32 }
    ensures { OnOk result (parts.new ≡ both parts.old
        (memory_parts net.now (length parts.old.pieces) memory.now.id memory.now.cell.now (Some memory.now.shape.now))) }
{
    push_reads(alloc, parts, net, memory)?;
    push_writes(alloc, parts, memory)
}
