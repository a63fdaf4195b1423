// What registers and clocked reads hold at first, found at once by bit.
ghost use Rattle.std.specs.Prelude.{◌≡◌, ◌++◌, ℕ, IfOk, OnOk, false, flat_map, filter_map, get_or, option_to_list};
ghost use Rattle.std.specs.List.{enumerate_from, zip};
ghost use Rattle.cs_net.specs.Drivers.{bit_value, memory_read_starts, own_start, read_starts};
ghost use Rattle.cs_lower.specs.Starts.{first_value};
ghost use Rattle.cs_lower.specs.Tables.{held};

use crate::table::Table;
use cs_base::Signal;
use cs_cells::{MemShape, ReadShape};
use cs_net::{BitValue, Cell, Netlist};
use std::alloc::{AllocError, Global};

// ---- the list

fn push_value(values: &mut Vec<BitValue>, signal: Signal, value: bool) -> Result<(), AllocError>
    ensures { OnOk result (values.new.items ≡ values.old.items ++ option_to_list (bit_value signal value)) }
{
    if let Signal::Bit(bit) = signal {
        values.push(BitValue { bit, value })?;
    }
    Ok(())
}

// Pushes the starts of the data bits of a clocked read.
fn push_bits(values: &mut Vec<BitValue>, bits: &[Signal], starts: &[bool]) -> Result<(), AllocError>
    ensures { OnOk result (values.new.items ≡ values.old.items
        ++ filter_map (λ e. bit_value e.1 (get_or starts.now e.0 false)) (enumerate_from 0 bits.now)) }
{
    for (place, bit) in bits.iter().enumerate() {
        let start = starts.get(place).copied().unwrap_or(false);
        push_value(values, *bit, start)?;
    }
    Ok(())
}

// Pushes the starts of a read port, where it is clocked.
fn push_read(
    values: &mut Vec<BitValue>,
    cell: &Cell,
    shape: &MemShape,
    port: usize,
    read: &ReadShape,
) -> Result<(), AllocError>
    ensures { OnOk result (values.new.items ≡ values.old.items ++ read_starts cell.now shape.now (port, read.now)) }
{
    if read.clocked {
        let bits = cell.port_part("RD_DATA", shape.width, port);
        push_bits(values, bits, read.start.as_slice())
    } else {
        Ok(())
    }
}

fn push_reads(values: &mut Vec<BitValue>, cell: &Cell, shape: &MemShape) -> Result<(), AllocError>
    ensures { OnOk result (values.new.items ≡ values.old.items
        ++ flat_map (read_starts cell.now shape.now) (enumerate_from 0 shape.now.reads)) }
{
    for (port, read) in shape.reads.as_slice().iter().enumerate() {
        push_read(values, cell, shape, port, read)?;
    }
    Ok(())
}

// Pushes the starts of a cell's reads, where it has a shape.
fn push_cell(
    values: &mut Vec<BitValue>,
    cell: &Cell,
    shape: &Option<MemShape>,
) -> Result<(), AllocError>
    ensures { OnOk result (values.new.items ≡ values.old.items ++ memory_read_starts (cell.now, shape.now)) }
{
    match shape {
        Some(shape) => push_reads(values, cell, shape),
        None => Ok(()),
    }
}

// The starts of the registers, then those of the clocked reads.
fn start_list(alloc: Global, net: &Netlist) -> Result<Vec<BitValue>, AllocError>
    ensures { IfOk result (λ values. values.items ≡ (own_start net.now).bits) }
{
    let mut values = Vec::from_slice(alloc, net.starts())?;
    for (cell, shape) in net.cells().iter().zip(net.shapes()) {
        push_cell(&mut values, cell, shape)?;
    }
    Ok(values)
}

// ---- the table

// The first value of each bit.
fn first_values(alloc: Global, values: &[BitValue], size: usize) -> Result<Table<bool>, AllocError>
    ensures { IfOk result (λ firsts. (b : ℕ) → held firsts b ≡ first_value values.now b) }
{
    let mut firsts = Table::new(alloc, size)?;
    for start in values {
        firsts.note(Signal::Bit(start.bit), start.value)?;
    }
    Ok(firsts)
}

/// The start of each bit that a register or a clocked read drives, in a table of this size. It errs only where memory
/// runs out.
pub(crate) fn own_starts(
    alloc: Global,
    net: &Netlist,
    size: usize,
) -> Result<Table<bool>, AllocError>
    ensures { IfOk result (λ starts. (b : ℕ) → held starts b ≡ first_value (own_start net.now).bits b) }
{
    let values = start_list(alloc, net)?;
    first_values(alloc, values.as_slice(), size)
}
