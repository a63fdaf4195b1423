// The vertices of each cell.
ghost use Rattle.std.specs.Prelude.{◌≡◌, ◌&&◌, IfOk, OnOk, bytes_eq, codes, find, length, map, slice_get, true};
ghost use Rattle.std.specs.Option.{option_copied};
ghost use Rattle.cs_cells.specs.Gates.{pin_count, pin_name};
ghost use Rattle.cs_modules.specs.Pins.{count_from};
ghost use Rattle.cs_net.specs.Drivers.{signal_of};
ghost use Rattle.cs_lower.specs.declared.taps.Tap.TheVariants.{Signal as of_signal};
ghost use Rattle.cs_lower.specs.Cells.{HasFewReads, cell_parts, first_signal, gate_parts, gate_piece, memory_parts, named, register_cell_parts};
ghost use Rattle.cs_lower.specs.Registers.{signal_for};
ghost use Rattle.cs_lower.specs.Taps.{both};

use crate::driven::DrivenBits;
use crate::memories::{MemoryCell, push_memory};
use crate::registers::{RegisterPins, push_register};
use crate::taps::{Parts, Piece, Tap, Wire};
use cs_base::{MemId, Sequence, Signal};
use cs_cells::{Class, FfKind, Kind, MemShape};
use cs_graph::VertexKind;
use cs_net::{Cell, PinBits};
use std::alloc::{AllocError, Global};

// ---- gates

// The pin at a place.
fn pin_at(cell: &Cell, place: usize) -> Option<&PinBits>
    ensures { option_copied result ≡ slice_get cell.now.pins place }
{
    cell.pins.as_slice().get(place)
}

// Whether the pin at a place has this name.
fn is_named(cell: &Cell, place: usize, name: &str) -> bool
    ensures { result ≡ named (slice_get cell.now.pins place) name.now }
{
    match pin_at(cell, place) {
        Some(pin) => pin.name.as_str() == name,
        None => false,
    }
}

// Whether the pins are in order up to this place, which is to have this name, where they are before it.
fn in_order_to(cell: &Cell, place: usize, name: &str, before: bool) -> bool
    ensures { result ≡ before && named (slice_get cell.now.pins place) name.now }
{
    before && is_named(cell, place, name)
}

// The first signal of the pin at a place.
fn signal_at(cell: &Cell, place: usize) -> Signal
    ensures { result ≡ first_signal (slice_get cell.now.pins place) }
{
    match pin_at(cell, place) {
        Some(pin) => pin.bits.as_slice().first().copied().unwrap_or(Signal::Zero),
        None => Signal::Zero,
    }
}

// The signal of the pin of a name, which is the pin at this place where the pins up to there are in order.
fn signal_near(cell: &Cell, place: usize, name: &str, in_order: bool) -> Signal
    requires { in_order ≡ true → find (λ p. bytes_eq p.name name.now) cell.now.pins ≡ slice_get cell.now.pins place }
    ensures { result ≡ signal_of cell.now name.now }
{
    if in_order {
        signal_at(cell, place)
    } else {
        cell.signal(name)
    }
}

// What the input pins of a gate are connected to. Their names are mostly the first of the cell's, in the same order, so
// that none has to be looked for.
fn gate_pins(alloc: Global, cell: &Cell, kind: Kind) -> Result<Sequence<Tap>, AllocError>
    ensures { IfOk result (λ pins. pins
        ≡ map (λ i. of_signal (signal_of cell.now (pin_name kind i))) (count_from 0 (pin_count kind))) }
{
    let mut pins = Sequence::new(alloc);
    let mut in_order = true;
    for i in 0..kind.pin_count() {
        let name = kind.pin_name(i);
        in_order = in_order_to(cell, i, name, in_order);
        pins.push(Tap::Signal(signal_near(cell, i, name, in_order)))?;
    }
    Ok(pins)
}

fn gate_piece(alloc: Global, cell: &Cell, kind: Kind) -> Result<Piece, AllocError>
    ensures { IfOk result (λ piece. piece ≡ gate_piece cell.now kind) }
{
    Ok(Piece {
        kind: VertexKind::Gate(kind),
        pins: gate_pins(alloc, cell, kind)?,
        origin: cell.name.copy(alloc)?,
    })
}

fn push_gate(alloc: Global, parts: &mut Parts, cell: &Cell, kind: Kind) -> Result<(), AllocError>
    ensures { OnOk result (parts.new ≡ both parts.old (gate_parts (length parts.old.pieces) cell.now kind)) }
{
    let piece = gate_piece(alloc, cell, kind)?;
    let vertex = parts.push(piece)?;
    parts.drive(cell.signal("Y"), Wire::Vertex { vertex, output: 0 })
}

// ---- registers

// What a register has at E, where it has an enable.
fn enable_signal(cell: &Cell, kind: FfKind) -> Signal
    ensures { result ≡ signal_for kind.enable (signal_of cell.now (codes "E")) }
{
    match kind.enable {
        Some(_) => cell.signal("E"),
        None => Signal::Zero,
    }
}

// What a register has at R, where it has a reset.
fn reset_signal(cell: &Cell, kind: FfKind) -> Signal
    ensures { result ≡ signal_for kind.reset (signal_of cell.now (codes "R")) }
{
    match kind.reset {
        Some(_) => cell.signal("R"),
        None => Signal::Zero,
    }
}

// Pushes the vertices of a cell that is a register.
fn push_register_cell(
    alloc: Global,
    parts: &mut Parts,
    net: &DrivenBits,
    cell: &Cell,
    kind: FfKind,
) -> Result<(), AllocError>
    ensures { OnOk result (parts.new ≡ both parts.old
        (register_cell_parts net.now (length parts.old.pieces) cell.now kind)) }
{
    let pins = RegisterPins {
        kind,
        q: cell.signal("Q"),
        start: false,
        enable: enable_signal(cell, kind),
        reset: reset_signal(cell, kind),
    };
    push_register(alloc, parts, net, &pins, Tap::Signal(cell.signal("D")))
}

// ---- all cells

// Pushes the vertices of a cell that is a memory, if it has a shape.
fn push_memory_cell(
    alloc: Global,
    parts: &mut Parts,
    net: &DrivenBits,
    id: MemId,
    cell: &Cell,
    shape: &Option<MemShape>,
) -> Result<(), AllocError>
    requires { HasFewReads shape.now }
    ensures { OnOk result (parts.new ≡ both parts.old
        (memory_parts net.now (length parts.old.pieces) id cell.now shape.now)) }
{
    match shape {
        Some(shape) => push_memory(alloc, parts, net, &MemoryCell { id, cell, shape }),
        None => Ok(()),
    }
}

/// Pushes the vertices of a cell with its shape, before which so many memories stand.
pub(crate) fn push_cell(
    alloc: Global,
    parts: &mut Parts,
    net: &DrivenBits,
    memory: MemId,
    cell: &Cell,
    shape: &Option<MemShape>,
) -> Result<(), AllocError>
    requires { HasFewReads shape.now }
    ensures { OnOk result (parts.new ≡ both parts.old
        (cell_parts net.now (length parts.old.pieces) (record { cell = cell.now; shape = shape.now; memory = memory }))) }
{
    match cell.class {
        Class::Gate(kind) => push_gate(alloc, parts, cell, kind),
        Class::Register(kind) => push_register_cell(alloc, parts, net, cell, kind),
        Class::Memory => push_memory_cell(alloc, parts, net, memory, cell, shape),
        Class::Scope => Ok(()),
        Class::Asynchronous => Ok(()),
        Class::NotFine => Ok(()),
        Class::Unknown => Ok(()),
    }
}
