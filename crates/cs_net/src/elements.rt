// What drives the bits of a netlist: the data inputs, its gates and registers, and the read ports of its
// memories.
ghost use Rattle.std.specs.Prelude.{◌≡◌, ◌+◌, ◌*◌, ◌++◌, ◌<◌, [], ◌∷◌, IfOk, OnOk, codes, drop, filter, flat_map, if◌then◌else◌, length, map, not};
ghost use Rattle.std.specs.List.{enumerate_from, slice_range, zip};
ghost use Rattle.cs_cells.specs.Gates.{pin_count, pin_name};
ghost use Rattle.cs_modules.specs.Signals.{is_bit, is_input};
ghost use Rattle.cs_net.specs.Drivers.{is_clock, port_part, signal_of};
ghost use Rattle.cs_net.specs.Elements.{cell_elements, elements_of, memory_elements, read_element};
ghost use Rattle.cs_net.specs.Netlist.{Net};
ghost use Rattle.cs_modules.specs.Pins.{count_from};

mod graph;

use crate::netlist::{Cell, Port};
use cs_base::{Sequence, Signal};
use cs_cells::{Class, Kind, MemShape, ReadShape};
use cs_modules::{Clock, is_bit, is_input};
pub(crate) use graph::arrange_elements;
use std::alloc::{AllocError, Global};

/// What drives some bits: the data inputs together, a gate, a register, or a read port of a memory.
#[derive(Drop)]
pub struct Element {
    /// The place of its cell among the netlist's; 0 for the data inputs.
    pub cell: usize,
    pub outputs: Sequence<Signal>,
    /// What its outputs depend on within a clock.
    pub inputs: Sequence<Signal>,
}

// ---- the data inputs

fn is_clock(clock: Option<Clock>, signal: Signal) -> bool
    ensures { result ≡ is_clock clock signal }
{
    match clock {
        Some(clock) => is_bit(clock.bit.get(), signal),
        None => false,
    }
}

// The bits of the input ports, port by port.
fn input_bits(alloc: Global, ports: &[Port]) -> Result<Vec<Signal>, AllocError>
    ensures { IfOk result (λ bits. bits.items
        ≡ flat_map (λ p. p.bits) (filter (λ p. is_input p.direction) ports.now)) }
{
    let mut bits = Vec::new(alloc);
    for port in ports {
        if is_input(port.direction) {
            bits.extend_from_slice(port.bits.as_slice())?;
        }
    }
    Ok(bits)
}

/// The bits of the input ports without the clock, port by port.
pub(crate) fn data_inputs(
    alloc: Global,
    ports: &[Port],
    clock: Option<Clock>,
) -> Result<Vec<Signal>, AllocError>
    ensures { IfOk result (λ inputs. inputs.items
        ≡ filter (λ s. not (is_clock clock s))
        (flat_map (λ p. p.bits) (filter (λ p. is_input p.direction) ports.now))) }
{
    input_bits(alloc, ports)?
        .iter()
        .copied()
        .filter(|signal| !is_clock(clock, *signal))
        .collect(alloc)
}

/// The number of data input bits.
pub(crate) fn input_count(
    alloc: Global,
    ports: &[Port],
    clock: Option<Clock>,
) -> Result<usize, AllocError>
    ensures { IfOk result (λ count. count ≡ length (filter (λ s. not (is_clock clock s))
        (flat_map (λ p. p.bits) (filter (λ p. is_input p.direction) ports.now)))) }
{
    let inputs = data_inputs(alloc, ports, clock)?;
    Ok(inputs.len())
}

// ---- cells

fn signals(alloc: Global, signals: &[Signal]) -> Result<Sequence<Signal>, AllocError>
    ensures { IfOk result (λ made. made ≡ signals.now) }
{
    Ok(Sequence::from_vec(Vec::from_slice(alloc, signals)?))
}

// The signals of a gate's input pins.
fn gate_inputs(alloc: Global, cell: &Cell, kind: Kind) -> Result<Sequence<Signal>, AllocError>
    ensures { IfOk result (λ inputs. inputs
        ≡ map (λ p. signal_of cell.now (pin_name kind p)) (count_from 0 (pin_count kind))) }
{
    let mut inputs = Sequence::new(alloc);
    for p in 0..kind.pin_count() {
        inputs.push(cell.signal(kind.pin_name(p)))?;
    }
    Ok(inputs)
}

// A gate, whose cell stands at a place.
fn gate(alloc: Global, place: usize, cell: &Cell, kind: Kind) -> Result<Element, AllocError>
    ensures { IfOk result (λ made. made ≡ record {
      cell = place;
      outputs = signal_of cell.now (codes "Y") ∷ [];
      inputs = map (λ p. signal_of cell.now (pin_name kind p)) (count_from 0 (pin_count kind));
    }) }
{
    Ok(Element {
        cell: place,
        outputs: signals(alloc, &[cell.signal("Y")])?,
        inputs: gate_inputs(alloc, cell, kind)?,
    })
}

// A register, whose cell stands at a place.
fn register(alloc: Global, place: usize, cell: &Cell) -> Result<Element, AllocError>
    ensures { IfOk result (λ made. made
        ≡ record { cell = place; outputs = signal_of cell.now (codes "Q") ∷ []; inputs = [] }) }
{
    Ok(Element {
        cell: place,
        outputs: signals(alloc, &[cell.signal("Q")])?,
        inputs: Sequence::new(alloc),
    })
}

// What a read port depends on within a clock.
fn read_inputs(
    alloc: Global,
    cell: &Cell,
    shape: &MemShape,
    port: usize,
    read: &ReadShape,
) -> Result<Sequence<Signal>, AllocError>
    ensures { IfOk result (λ inputs. inputs
        ≡ (if read.now.clocked then [] else port_part cell.now (codes "RD_ADDR") shape.now.abits port)) }
{
    if read.clocked {
        Ok(Sequence::new(alloc))
    } else {
        signals(alloc, cell.port_part("RD_ADDR", shape.abits, port))
    }
}

// A read port of a memory, whose cell stands at a place.
fn read_port(
    alloc: Global,
    place: usize,
    cell: &Cell,
    shape: &MemShape,
    port: usize,
    read: &ReadShape,
) -> Result<Element, AllocError>
    ensures { IfOk result (λ made. made ≡ read_element place cell.now shape.now (port, read.now)) }
{
    Ok(Element {
        cell: place,
        outputs: signals(alloc, cell.port_part("RD_DATA", shape.width, port))?,
        inputs: read_inputs(alloc, cell, shape, port, read)?,
    })
}

fn push_read_ports(
    alloc: Global,
    elements: &mut Sequence<Element>,
    place: usize,
    cell: &Cell,
    shape: &MemShape,
) -> Result<(), AllocError>
    ensures { OnOk result (elements.new
        ≡ elements.old ++ map (read_element place cell.now shape.now) (enumerate_from 0 shape.now.reads)) }
{
    for (port, read) in shape.reads.as_slice().iter().enumerate() {
        elements.push(read_port(alloc, place, cell, shape, port, read)?)?;
    }
    Ok(())
}

fn push_memory(
    alloc: Global,
    elements: &mut Sequence<Element>,
    place: usize,
    cell: &Cell,
    shape: &Option<MemShape>,
) -> Result<(), AllocError>
    ensures { OnOk result (elements.new ≡ elements.old ++ memory_elements place cell.now shape.now) }
{
    match shape {
        Some(shape) => push_read_ports(alloc, elements, place, cell, shape),
        None => Ok(()),
    }
}

// Pushes the elements of the cell at a place.
fn push_cell(
    alloc: Global,
    elements: &mut Sequence<Element>,
    place: usize,
    cell: &Cell,
    shape: &Option<MemShape>,
) -> Result<(), AllocError>
    ensures { OnOk result (elements.new ≡ elements.old ++ cell_elements (place, (cell.now, shape.now))) }
{
    match cell.class {
        Class::Gate(kind) => elements.push(gate(alloc, place, cell, kind)?),
        Class::Register(_) => elements.push(register(alloc, place, cell)?),
        Class::Memory => push_memory(alloc, elements, place, cell, shape),
        Class::Scope => Ok(()),
        Class::Asynchronous => Ok(()),
        Class::NotFine => Ok(()),
        Class::Unknown => Ok(()),
    }
}

// Pushes the elements of the cell at a place, if it has an entry for a shape.
fn push_cell_at(
    alloc: Global,
    elements: &mut Sequence<Element>,
    place: usize,
    cells: &[Cell],
    shapes: &[Option<MemShape>],
) -> Result<(), AllocError>
    requires { place < length cells.now }
    ensures { let pairs = zip cells.now shapes.now in
        OnOk result (elements.new
        ++ flat_map cell_elements (enumerate_from (place + 1) (drop (place + 1) pairs))
        ≡ elements.old ++ flat_map cell_elements (enumerate_from place (drop place pairs))) }
{
    if place < shapes.len() {
        push_cell(alloc, elements, place, &cells[place], &shapes[place])
    } else {
        Ok(())
    }
}

/// The elements of a netlist: its data inputs, and then cell by cell. It errs only where memory runs out.
pub(crate) fn elements(
    alloc: Global,
    ports: &[Port],
    clock: Option<Clock>,
    cells: &[Cell],
    shapes: &[Option<MemShape>],
) -> Result<Sequence<Element>, AllocError>
    ensures { IfOk result (λ made. (net : Net) → net.ports ≡ ports.now → net.clock ≡ clock
        → net.cells ≡ cells.now → net.shapes ≡ shapes.now → made ≡ elements_of net) }
{
    let mut elements = Sequence::new(alloc);
    elements.push(Element {
        cell: 0,
        outputs: Sequence::from_vec(data_inputs(alloc, ports, clock)?),
        inputs: Sequence::new(alloc),
    })?;
    for place in 0..cells.len() {
        push_cell_at(alloc, &mut elements, place, cells, shapes)?;
    }
    Ok(elements)
}
