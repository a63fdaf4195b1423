// The signals that a netlist drives, and the slots of signals among them.
ghost use Rattle.std.specs.Prelude.{◌≡◌, ◌++◌, ◌+◌, ◌<◌, ◌^◌, IfOk, OnOk, codes, drop, length, map};
ghost use Rattle.std.specs.List.{enumerate_from, flat_map, zip};
ghost use Rattle.cs_cells.specs.Gates.{pin_count, pin_name};
ghost use Rattle.cs_net.specs.Drivers.{port_part, signal_of};
ghost use Rattle.cs_modules.specs.Pins.{count_from};
ghost use Rattle.cs_sim.specs.Layout.{cell_outputs, driven_signals, memory_outputs};
ghost use Rattle.cs_sim.specs.Slots.{slot_of as slot_among};

use crate::slots::slot_of;
use cs_base::{Sequence, Signal};
use cs_cells::{Class, Kind, MemShape};
use cs_modules::Places;
use cs_net::{Cell, Netlist};
use std::alloc::{AllocError, Global};

// Pushes the data bits of the read ports of a memory, port by port.
fn push_read_outputs(
    signals: &mut Vec<Signal>,
    cell: &Cell,
    shape: &MemShape,
) -> Result<(), AllocError>
    ensures { OnOk result (signals.new.items ≡ signals.old.items
        ++ flat_map (λ e. port_part cell.now (codes "RD_DATA") shape.now.width e.0) (enumerate_from 0 shape.now.reads)) }
{
    for (port, _read) in shape.reads.as_slice().iter().enumerate() {
        signals.extend_from_slice(cell.port_part("RD_DATA", shape.width, port))?;
    }
    Ok(())
}

fn push_memory_outputs(
    signals: &mut Vec<Signal>,
    cell: &Cell,
    shape: &Option<MemShape>,
) -> Result<(), AllocError>
    ensures { OnOk result (signals.new.items ≡ signals.old.items ++ memory_outputs cell.now shape.now) }
{
    match shape {
        Some(shape) => push_read_outputs(signals, cell, shape),
        None => Ok(()),
    }
}

fn push_cell_outputs(
    signals: &mut Vec<Signal>,
    cell: &Cell,
    shape: &Option<MemShape>,
) -> Result<(), AllocError>
    ensures { OnOk result (signals.new.items ≡ signals.old.items ++ cell_outputs (cell.now, shape.now)) }
{
    match cell.class {
        Class::Gate(_) => signals.push(cell.signal("Y"))?,
        Class::Register(_) => signals.push(cell.signal("Q"))?,
        Class::Memory => push_memory_outputs(signals, cell, shape)?,
        Class::Scope => {}
        Class::Asynchronous => {}
        Class::NotFine => {}
        Class::Unknown => {}
    }
    Ok(())
}

// Pushes what the cell at a place drives, if it has an entry for a shape.
fn push_outputs_at(signals: &mut Vec<Signal>, net: &Netlist, place: usize) -> Result<(), AllocError>
    requires { place < length net.now.cells }
    ensures { let pairs = zip net.now.cells net.now.shapes in
        OnOk result (signals.new.items ++ flat_map cell_outputs (drop (place + 1) pairs)
        ≡ signals.old.items ++ flat_map cell_outputs (drop place pairs)) }
{
    let cells = net.cells();
    let shapes = net.shapes();
    if place < shapes.len() {
        push_cell_outputs(signals, &cells[place], &shapes[place])
    } else {
        Ok(())
    }
}

fn driven_signals(alloc: Global, net: &Netlist) -> Result<Vec<Signal>, AllocError>
    ensures { IfOk result (λ signals. signals.items ≡ driven_signals net.now) }
{
    let mut signals = net.data_inputs(alloc)?;
    for place in 0..net.cell_count() {
        push_outputs_at(&mut signals, net, place)?;
    }
    Ok(signals)
}

/// The signals that a netlist drives.
#[derive(Drop)]
pub(crate) struct Wiring {
    pub(crate) driven: Places,
    ghost few: { length driven + 2 < 2 ^ 64 },
}

impl Wiring {
    /// The signals that a netlist drives. It errs only where memory runs out.
    pub(crate) fn of(alloc: Global, net: &Netlist) -> Result<Self, AllocError>
        ensures { IfOk result (λ wiring. wiring.driven ≡ driven_signals net.now) }
    {
        let signals = driven_signals(alloc, net)?;
        Ok(Wiring {
            driven: Places::among(alloc, signals)?,
        })
    }

    pub(crate) fn slot(&self, signal: Signal) -> usize
        ensures { result ≡ slot_among self.now.driven signal }
    {
        slot_of(&self.driven, signal)
    }

    /// The slots of signals.
    pub(crate) fn slots(
        &self,
        alloc: Global,
        signals: &[Signal],
    ) -> Result<Sequence<usize>, AllocError>
        ensures { IfOk result (λ slots. slots ≡ map (slot_among self.now.driven) signals.now) }
    {
        let mut slots = Sequence::new(alloc);
        for signal in signals {
            slots.push(self.slot(*signal))?;
        }
        Ok(slots)
    }

    /// The slots of a gate's input pins.
    pub(crate) fn gate_pins(
        &self,
        alloc: Global,
        cell: &Cell,
        kind: Kind,
    ) -> Result<Sequence<usize>, AllocError>
        ensures { IfOk result (λ slots. slots
            ≡ map (λ i. slot_among self.now.driven (signal_of cell.now (pin_name kind i))) (count_from 0 (pin_count kind))) }
    {
        let mut slots = Sequence::new(alloc);
        for i in 0..kind.pin_count() {
            slots.push(self.slot(cell.signal(kind.pin_name(i))))?;
        }
        Ok(slots)
    }
}
