// The cells of memories.
ghost use Rattle.std.specs.Prelude.{◌≡◌, ◌+◌, ◌++◌, [], ◌∷◌, ◌≤◌, ◌^◌, false, All, IfOk, OnOk, flat_map, replicate};
ghost use Rattle.cs_circuit.specs.Cells.{pin};
ghost use Rattle.cs_circuit.specs.MemoryCells.{memory_cell, read_data, read_pins, write_pins};
ghost use Rattle.cs_circuit.specs.Sizes.{IsSmallMemory};

use crate::cells::{add_pin, clock_signal, numbered};
use crate::circuit::{MemoryPart, ReadPart, WritePart};
use crate::parameters::memory_entries;
use cs_base::{BitId, Sequence, Signal, Text};
use cs_json::{CellDecl, PinDecl};
use cs_modules::Clock;
use std::alloc::{AllocError, Global};

fn same_signals(alloc: Global, count: usize, signal: Signal) -> Result<Sequence<Signal>, AllocError>
    ensures { IfOk result (λ signals. signals ≡ replicate count signal) }
{
    Ok(Sequence::from_vec(vec![in alloc; signal; count]?))
}

fn read_addresses(alloc: Global, reads: &[ReadPart]) -> Result<Sequence<Signal>, AllocError>
    ensures { IfOk result (λ signals. signals ≡ flat_map (λ read. read.address) reads.now) }
{
    let mut signals = Vec::new(alloc);
    for read in reads {
        signals.extend_from_slice(read.address.as_slice())?;
    }
    Ok(Sequence::from_vec(signals))
}

// The bits that a read port drives.
fn add_read_data(signals: &mut Vec<Signal>, width: u32, read: &ReadPart) -> Result<(), AllocError>
    requires { read.now.first + width ≤ 2 ^ 32 }
    ensures { OnOk result (signals.new.items ≡ signals.old.items ++ read_data width read.now) }
{
    for j in 0..width {
        signals.push(Signal::Bit(BitId::new(read.first.get() + j)))?;
    }
    Ok(())
}

fn read_data(alloc: Global, width: u32, reads: &[ReadPart]) -> Result<Sequence<Signal>, AllocError>
    requires { All (λ read. read.first + width ≤ 2 ^ 32) reads.now }
    ensures { IfOk result (λ signals. signals ≡ flat_map (read_data width) reads.now) }
{
    let mut signals = Vec::new(alloc);
    for read in reads {
        add_read_data(&mut signals, width, read)?;
    }
    Ok(Sequence::from_vec(signals))
}

fn write_addresses(alloc: Global, writes: &[WritePart]) -> Result<Sequence<Signal>, AllocError>
    ensures { IfOk result (λ signals. signals ≡ flat_map (λ write. write.address) writes.now) }
{
    let mut signals = Vec::new(alloc);
    for write in writes {
        signals.extend_from_slice(write.address.as_slice())?;
    }
    Ok(Sequence::from_vec(signals))
}

fn write_data(alloc: Global, writes: &[WritePart]) -> Result<Sequence<Signal>, AllocError>
    ensures { IfOk result (λ signals. signals ≡ flat_map (λ write. write.data) writes.now) }
{
    let mut signals = Vec::new(alloc);
    for write in writes {
        signals.extend_from_slice(write.data.as_slice())?;
    }
    Ok(Sequence::from_vec(signals))
}

fn write_enables(alloc: Global, writes: &[WritePart]) -> Result<Sequence<Signal>, AllocError>
    ensures { IfOk result (λ signals. signals ≡ flat_map (λ write. write.enable) writes.now) }
{
    let mut signals = Vec::new(alloc);
    for write in writes {
        signals.extend_from_slice(write.enable.as_slice())?;
    }
    Ok(Sequence::from_vec(signals))
}

fn add_same(
    alloc: Global,
    pins: &mut Sequence<PinDecl>,
    name: &str,
    count: usize,
    signal: Signal,
) -> Result<(), AllocError>
    ensures { OnOk result (pins.new ≡ pins.old ++ pin name.now (replicate count signal) false ∷ []) }
{
    let bits = same_signals(alloc, count, signal)?;
    add_pin(alloc, pins, name, bits, false)
}

fn add_read_pins(
    alloc: Global,
    pins: &mut Sequence<PinDecl>,
    width: u32,
    reads: &[ReadPart],
) -> Result<(), AllocError>
    requires { All (λ read. read.first + width ≤ 2 ^ 32) reads.now }
    ensures { OnOk result (pins.new ≡ pins.old ++ read_pins width reads.now) }
{
    let count = reads.len();
    let addresses = read_addresses(alloc, reads)?;
    add_pin(alloc, pins, "RD_ADDR", addresses, false)?;
    add_same(alloc, pins, "RD_ARST", count, Signal::Zero)?;
    add_same(alloc, pins, "RD_CLK", count, Signal::Zero)?;
    let data = read_data(alloc, width, reads)?;
    add_pin(alloc, pins, "RD_DATA", data, true)?;
    add_same(alloc, pins, "RD_EN", count, Signal::One)?;
    add_same(alloc, pins, "RD_SRST", count, Signal::Zero)
}

fn add_write_pins(
    alloc: Global,
    pins: &mut Sequence<PinDecl>,
    clock: Option<Clock>,
    writes: &[WritePart],
) -> Result<(), AllocError>
    ensures { OnOk result (pins.new ≡ pins.old ++ write_pins clock writes.now) }
{
    let addresses = write_addresses(alloc, writes)?;
    add_pin(alloc, pins, "WR_ADDR", addresses, false)?;
    add_same(alloc, pins, "WR_CLK", writes.len(), clock_signal(clock))?;
    let data = write_data(alloc, writes)?;
    add_pin(alloc, pins, "WR_DATA", data, false)?;
    let enables = write_enables(alloc, writes)?;
    add_pin(alloc, pins, "WR_EN", enables, false)
}

/// The cell of memory i.
pub(crate) fn memory_cell(
    alloc: Global,
    clock: Option<Clock>,
    i: usize,
    memory: &MemoryPart,
) -> Result<CellDecl, AllocError>
    requires { IsSmallMemory memory.now }
    ensures { IfOk result (λ cell. cell ≡ memory_cell clock i memory.now) }
{
    let name = numbered(alloc, "$cs$m", i)?;
    let kind = Text::from_str(alloc, "$mem_v2")?;
    let mut pins = Sequence::new(alloc);
    add_read_pins(alloc, &mut pins, memory.width, memory.reads.as_slice())?;
    add_write_pins(alloc, &mut pins, clock, memory.writes.as_slice())?;
    Ok(CellDecl {
        name,
        kind,
        parameters: memory_entries(alloc, clock, i, memory)?,
        attributes: Sequence::new(alloc),
        pins,
    })
}
