// Lays a netlist out, part by part.
ghost use Rattle.std.specs.Prelude.{◌≡◌, ◌+◌, ◌++◌, ◌<◌, IfOk, OnOk, Some, drop, false, fold, get_or, length, map};
ghost use Rattle.std.specs.List.{enumerate_from, zip};
ghost use Rattle.cs_cells.specs.Memories.{read_register};
ghost use Rattle.cs_base.specs.declared.signal.Signal.TheVariants.{Zero};
ghost use Rattle.cs_net.specs.Drivers.{bits_of, read_data};
ghost use Rattle.cs_modules.specs.Pins.{count_from};
ghost use Rattle.cs_sim.specs.Layout.{driven_signals, layout_of, no_parts, read_bit_of, read_port_slots, start_of, with_cell, with_clocked_read, with_gate, with_memory, with_part, with_read, with_register, with_unclocked_read, with_writes, write_slots};

use crate::layout::{Layout, Part, ReadBit, ReadPortSlots, RegisterSlots, Work, WriteSlots};
use crate::room::Room;
use crate::slots::value;
use crate::wiring::Wiring;
use cs_base::{Sequence, Signal};
use cs_cells::{Class, FfKind, Kind, MemShape, ReadShape, ResetKind};
use cs_net::{Cell, Netlist};
use std::alloc::{AllocError, Global};

// ---- registers

fn start_of(net: &Netlist, signal: Signal) -> bool
    ensures { result ≡ start_of net.now.starts signal }
{
    match signal {
        Signal::Bit(bit) => net.start(bit),
        Signal::Zero | Signal::One | Signal::Unknown | Signal::HighZ => false,
    }
}

// ---- read ports

// A data bit of a clocked read is a register with active high enable and reset.
fn read_kind(read: &ReadShape, place: usize) -> FfKind
    ensures { result ≡ read_register (get_or read.now.reset_value place false) read.now.enable_over_reset }
{
    FfKind {
        rising: true,
        reset: Some(ResetKind {
            high: true,
            value: value(read.reset_value.as_slice(), place),
        }),
        enable: Some(true),
        enable_over_reset: read.enable_over_reset,
    }
}

// The signal of a port at a pin with one bit for each port.
fn port_signal(cell: &Cell, name: &str, port: usize) -> Signal
    ensures { result ≡ get_or (bits_of cell.now name.now) port Zero }
{
    cell.bits(name).get(port).copied().unwrap_or(Signal::Zero)
}

// The data bits of a clocked read.
fn read_bits(
    alloc: Global,
    cell: &Cell,
    shape: &MemShape,
    port: usize,
    read: &ReadShape,
) -> Result<Sequence<ReadBit>, AllocError>
    ensures { IfOk result (λ bits. bits ≡ map (read_bit_of read.now) (read_data cell.now shape.now port)) }
{
    let mut bits = Sequence::new(alloc);
    let outputs = cell.port_part("RD_DATA", shape.width, port);
    for (place, output) in outputs.iter().enumerate() {
        bits.push(ReadBit {
            kind: read_kind(read, place),
            output: *output,
            start: value(read.start.as_slice(), place),
        })?;
    }
    Ok(bits)
}

// A clocked read port of the memory at a place.
fn read_port_slots(
    alloc: Global,
    wiring: &Wiring,
    memory: usize,
    cell: &Cell,
    shape: &MemShape,
    port: usize,
    read: &ReadShape,
) -> Result<ReadPortSlots, AllocError>
    ensures { IfOk result (λ made. made
        ≡ read_port_slots wiring.now.driven memory cell.now shape.now (port, read.now)) }
{
    Ok(ReadPortSlots {
        memory,
        address: wiring.slots(alloc, cell.port_part("RD_ADDR", shape.abits, port))?,
        enable: wiring.slot(port_signal(cell, "RD_EN", port)),
        reset: wiring.slot(port_signal(cell, "RD_SRST", port)),
        bits: read_bits(alloc, cell, shape, port, read)?,
    })
}

// ---- write ports

fn write_slots(
    alloc: Global,
    wiring: &Wiring,
    cell: &Cell,
    shape: &MemShape,
    port: usize,
) -> Result<WriteSlots, AllocError>
    ensures { IfOk result (λ made. made ≡ write_slots wiring.now.driven cell.now shape.now port) }
{
    Ok(WriteSlots {
        address: wiring.slots(alloc, cell.port_part("WR_ADDR", shape.abits, port))?,
        word: wiring.slots(alloc, cell.port_part("WR_DATA", shape.width, port))?,
        enable: wiring.slots(alloc, cell.port_part("WR_EN", shape.width, port))?,
    })
}

fn all_write_slots(
    alloc: Global,
    wiring: &Wiring,
    cell: &Cell,
    shape: &MemShape,
) -> Result<Sequence<WriteSlots>, AllocError>
    ensures { IfOk result (λ made. made
        ≡ map (write_slots wiring.now.driven cell.now shape.now) (count_from 0 shape.now.writes)) }
{
    let mut made = Sequence::new(alloc);
    for port in 0..shape.writes {
        made.push(write_slots(alloc, wiring, cell, shape, port as usize)?)?;
    }
    Ok(made)
}

// ---- parts

impl Layout {
    // Two slots for the constants, and no part.
    fn new(alloc: Global) -> Result<Self, AllocError>
        ensures { IfOk result (λ layout. layout ≡ no_parts) }
    {
        Ok(Layout {
            slots: Room::new(alloc, 2)?,
            parts: Sequence::new(alloc),
            registers: Sequence::new(alloc),
            read_ports: Sequence::new(alloc),
            writes: Sequence::new(alloc),
        })
    }

    // Adds a part that drives so many bits.
    fn push_part(&mut self, work: Work, outputs: usize) -> Result<(), AllocError>
        ensures { OnOk result (self.new ≡ with_part self.old work outputs) }
    {
        let first = self.slots.count();
        self.parts.push(Part { first, work })?;
        self.slots.extend(outputs)
    }

    fn push_gate(
        &mut self,
        alloc: Global,
        wiring: &Wiring,
        cell: &Cell,
        kind: Kind,
    ) -> Result<(), AllocError>
        ensures { OnOk result (self.new ≡ with_gate wiring.now.driven self.old cell.now kind) }
    {
        let pins = wiring.gate_pins(alloc, cell, kind)?;
        self.push_part(Work::Gate { kind, pins }, 1)
    }

    fn push_register(
        &mut self,
        wiring: &Wiring,
        net: &Netlist,
        cell: &Cell,
        kind: FfKind,
    ) -> Result<(), AllocError>
        ensures { OnOk result (self.new ≡ with_register wiring.now.driven net.now.starts self.old cell.now kind) }
    {
        let place = self.registers.len();
        self.push_part(Work::Register { place }, 1)?;
        let output = cell.signal("Q");
        let start = start_of(net, cell.signal("Q"));
        let source = wiring.slot(cell.signal("D"));
        let enable = wiring.slot(cell.signal("E"));
        let reset = wiring.slot(cell.signal("R"));
        self.registers.push(RegisterSlots {
            kind,
            output,
            start,
            source,
            enable,
            reset,
        })
    }

    fn push_clocked_read(
        &mut self,
        alloc: Global,
        wiring: &Wiring,
        memory: usize,
        cell: &Cell,
        shape: &MemShape,
        port: usize,
        read: &ReadShape,
    ) -> Result<(), AllocError>
        ensures { OnOk result (self.new
            ≡ with_clocked_read wiring.now.driven memory cell.now shape.now self.old (port, read.now)) }
    {
        let place = self.read_ports.len();
        let slots = read_port_slots(alloc, wiring, memory, cell, shape, port, read)?;
        self.push_part(Work::ClockedRead { place }, slots.bits.len())?;
        self.read_ports.push(slots)
    }

    fn push_unclocked_read(
        &mut self,
        alloc: Global,
        wiring: &Wiring,
        memory: usize,
        cell: &Cell,
        shape: &MemShape,
        port: usize,
    ) -> Result<(), AllocError>
        ensures { OnOk result (self.new
            ≡ with_unclocked_read wiring.now.driven memory cell.now shape.now self.old port) }
    {
        let width = cell.port_part("RD_DATA", shape.width, port).len();
        let address = wiring.slots(alloc, cell.port_part("RD_ADDR", shape.abits, port))?;
        let work = Work::Read {
            memory,
            address,
            width,
        };
        self.push_part(work, width)
    }

    fn push_read(
        &mut self,
        alloc: Global,
        wiring: &Wiring,
        memory: usize,
        cell: &Cell,
        shape: &MemShape,
        port: usize,
        read: &ReadShape,
    ) -> Result<(), AllocError>
        ensures { OnOk result (self.new
            ≡ with_read wiring.now.driven memory cell.now shape.now self.old (port, read.now)) }
    {
        if read.clocked {
            self.push_clocked_read(alloc, wiring, memory, cell, shape, port, read)
        } else {
            self.push_unclocked_read(alloc, wiring, memory, cell, shape, port)
        }
    }

    fn push_reads(
        &mut self,
        alloc: Global,
        wiring: &Wiring,
        cell: &Cell,
        shape: &MemShape,
    ) -> Result<(), AllocError>
        ensures { OnOk result (self.new ≡ fold
            (with_read wiring.now.driven (length self.old.writes) cell.now shape.now) self.old
            (enumerate_from 0 shape.now.reads)) }
    {
        let memory = self.writes.len();
        for (port, read) in shape.reads.as_slice().iter().enumerate() {
            self.push_read(alloc, wiring, memory, cell, shape, port, read)?;
        }
        Ok(())
    }

    // The read ports of a memory, and then its write ports.
    fn push_ports(
        &mut self,
        alloc: Global,
        wiring: &Wiring,
        cell: &Cell,
        shape: &MemShape,
    ) -> Result<(), AllocError>
        ensures { OnOk result (self.new ≡ with_memory wiring.now.driven self.old cell.now (Some shape.now)) }
    {
        self.push_reads(alloc, wiring, cell, shape)?;
        let writes = all_write_slots(alloc, wiring, cell, shape)?;
        self.writes.push(writes)
    }

    fn push_memory(
        &mut self,
        alloc: Global,
        wiring: &Wiring,
        cell: &Cell,
        shape: &Option<MemShape>,
    ) -> Result<(), AllocError>
        ensures { OnOk result (self.new ≡ with_memory wiring.now.driven self.old cell.now shape.now) }
    {
        match shape {
            Some(shape) => self.push_ports(alloc, wiring, cell, shape),
            None => Ok(()),
        }
    }

    fn push_cell(
        &mut self,
        alloc: Global,
        wiring: &Wiring,
        net: &Netlist,
        cell: &Cell,
        shape: &Option<MemShape>,
    ) -> Result<(), AllocError>
        ensures { OnOk result (self.new
            ≡ with_cell wiring.now.driven net.now.starts self.old (cell.now, shape.now)) }
    {
        match cell.class {
            Class::Gate(kind) => self.push_gate(alloc, wiring, cell, kind),
            Class::Register(kind) => self.push_register(wiring, net, cell, kind),
            Class::Memory => self.push_memory(alloc, wiring, cell, shape),
            Class::Scope => Ok(()),
            Class::Asynchronous => Ok(()),
            Class::NotFine => Ok(()),
            Class::Unknown => Ok(()),
        }
    }

    // The cell at a place, if it has an entry for a shape.
    fn push_cell_at(
        &mut self,
        alloc: Global,
        wiring: &Wiring,
        net: &Netlist,
        place: usize,
    ) -> Result<(), AllocError>
        requires { place < length net.now.cells }
        ensures { let pairs = zip net.now.cells net.now.shapes in
            let more = with_cell wiring.now.driven net.now.starts in
            OnOk result (fold more self.new (drop (place + 1) pairs) ≡ fold more self.old (drop place pairs)) }
    {
        let cells = net.cells();
        let shapes = net.shapes();
        if place < shapes.len() {
            self.push_cell(alloc, wiring, net, &cells[place], &shapes[place])
        } else {
            Ok(())
        }
    }

    // All parts of a netlist: its inputs, and what its cells drive.
    #[tactic(auto, unfolding(crate::specs::Layout::layout_of))]
    fn push_all(&mut self, alloc: Global, wiring: &Wiring, net: &Netlist) -> Result<(), AllocError>
        requires none { self.old ≡ no_parts }
        requires wiring { wiring.now.driven ≡ driven_signals net.now }
        ensures { OnOk result (self.new ≡ layout_of net.now) }
    {
        self.push_part(Work::Inputs, net.input_count())?;
        for place in 0..net.cell_count() {
            self.push_cell_at(alloc, wiring, net, place)?;
        }
        Ok(())
    }

    /// The layout of a netlist. It errs only where memory runs out.
    pub(crate) fn of(alloc: Global, net: &Netlist) -> Result<Self, AllocError>
        ensures { IfOk result (λ layout. layout ≡ layout_of net.now) }
    {
        let wiring = Wiring::of(alloc, net)?;
        let mut layout = Layout::new(alloc)?;
        layout.push_all(alloc, &wiring, net)?;
        Ok(layout)
    }
}
