// Which bits of a netlist are driven.
ghost use Rattle.std.specs.Prelude.{◌≡◌, ◌==◌, ◌∷◌, ◌++◌, [], ℕ, IfOk, OnOk, Some, is_some, map};
ghost use Rattle.std.specs.List.{list_any};
ghost use Rattle.cs_net.specs.Drivers.{memory_drives};
ghost use Rattle.cs_lower.specs.Driven.{driven_beside, outputs_beside};
ghost use Rattle.cs_lower.specs.Registers.{is_driven, still};
ghost use Rattle.cs_lower.specs.Tables.{held};

use crate::table::{Table, table_size};
use cs_base::Signal;
use cs_cells::{Class, MemShape};
use cs_modules::numbers_in;
use cs_net::{BitValue, Cell, Netlist};
use std::alloc::{AllocError, Global};
use std::marker::Model;

// Pushes what the read ports of a memory drive.
fn push_read_data(
    signals: &mut Vec<Signal>,
    cell: &Cell,
    shape: &MemShape,
) -> Result<(), AllocError>
    ensures { OnOk result (signals.new.items
        ≡ signals.old.items ++ map (λ d. d.0) (memory_drives cell.now (Some shape.now))) }
{
    for (port, _) in shape.reads.as_slice().iter().enumerate() {
        signals.extend_from_slice(cell.port_part("RD_DATA", shape.width, port))?;
    }
    Ok(())
}

// Pushes what a memory drives.
fn push_memory(
    signals: &mut Vec<Signal>,
    cell: &Cell,
    shape: &Option<MemShape>,
) -> Result<(), AllocError>
    ensures { OnOk result (signals.new.items
        ≡ signals.old.items ++ map (λ d. d.0) (memory_drives cell.now shape.now)) }
{
    match shape {
        Some(shape) => push_read_data(signals, cell, shape),
        None => Ok(()),
    }
}

fn push_signal(signals: &mut Vec<Signal>, signal: Signal) -> Result<(), AllocError>
    ensures { OnOk result (signals.new.items ≡ signals.old.items ++ signal ∷ []) }
{
    signals.push(signal)?;
    Ok(())
}

// Pushes what a cell drives that is no register.
fn push_outputs(
    signals: &mut Vec<Signal>,
    cell: &Cell,
    shape: &Option<MemShape>,
) -> Result<(), AllocError>
    ensures { OnOk result (signals.new.items
        ≡ signals.old.items ++ outputs_beside cell.now.class (cell.now, shape.now)) }
{
    match cell.class {
        Class::Gate(_) => push_signal(signals, cell.signal("Y")),
        Class::Register(_) => Ok(()),
        Class::Memory => push_memory(signals, cell, shape),
        Class::Scope => Ok(()),
        Class::Asynchronous => Ok(()),
        Class::NotFine => Ok(()),
        Class::Unknown => Ok(()),
    }
}

// All signals that are driven by no register: the data inputs, then those of the cells.
fn driven_signals(alloc: Global, net: &Netlist) -> Result<Vec<Signal>, AllocError>
    ensures { IfOk result (λ signals. signals.items ≡ driven_beside net.now) }
{
    let mut signals = net.data_inputs(alloc)?;
    for (cell, shape) in net.cells().iter().zip(net.shapes()) {
        push_outputs(&mut signals, cell, shape)?;
    }
    Ok(signals)
}

// Pushes the bit Q of each register.
fn push_registers(numbers: &mut Vec<u32>, starts: &[BitValue]) -> Result<(), AllocError>
    ensures { OnOk result (numbers.new.items ≡ numbers.old.items ++ map (λ s. s.bit) starts.now) }
{
    for start in starts {
        numbers.push(start.bit.get())?;
    }
    Ok(())
}

// The greatest of some numbers.
fn greatest_of(numbers: &[u32]) -> u32 {
    let mut greatest = 0;
    for number in numbers {
        greatest = (*number).max(greatest);
    }
    greatest
}

// A table that has these numbers, and no others.
fn number_table(alloc: Global, numbers: &[u32], size: usize) -> Result<Table<()>, AllocError>
    ensures { IfOk result (λ table. (b : ℕ) → is_some (held table b) ≡ list_any (λ a. a == b) numbers.now) }
{
    let mut table = Table::new(alloc, size)?;
    for number in numbers {
        table.insert(*number, ())?;
    }
    Ok(table)
}

#[tactic(auto, using(crate::proofs::DrivenLemmas::is_driven_by))]
fn driven_numbers(alloc: Global, net: &Netlist) -> Result<Table<()>, AllocError>
    ensures { IfOk result (λ table. (b : ℕ) → is_some (held table b) ≡ is_driven net.now b) }
{
    net.keeps();
    let signals = driven_signals(alloc, net)?;
    let mut numbers = numbers_in(alloc, signals.as_slice())?;
    push_registers(&mut numbers, net.starts())?;
    let size = table_size(numbers.len(), greatest_of(numbers.as_slice()));
    number_table(alloc, numbers.as_slice(), size)
}

/// A netlist in which it is found at once whether a bit is driven; contracts see the netlist.
#[derive(Drop)]
pub(crate) struct DrivenBits<'a> {
    net: &'a Netlist,
    numbers: Table<()>,
}

impl<'a> Model for DrivenBits<'a> {
    ghost use Rattle.std.specs.Prelude.{◌≡◌, ℕ, is_some};
    ghost use Rattle.cs_net.specs.Netlist.{Net};
    ghost use Rattle.cs_lower.specs.Registers.{is_driven};
    ghost use Rattle.cs_lower.specs.Tables.{held};

    ghost Value = { Net };

    ghost view = { λ d. d.net.now };

    ghost invariant = { λ d. (b : ℕ) → is_some (held d.numbers b) ≡ is_driven d.net.now b };
}

impl<'a> DrivenBits<'a> {
    /// The driven bits of a netlist. It errs only where memory runs out.
    pub fn of(alloc: Global, net: &'a Netlist) -> Result<Self, AllocError>
        ensures { IfOk result (λ driven. driven ≡ net.now) }
    {
        let numbers = driven_numbers(alloc, net)?;
        Ok(DrivenBits { net, numbers })
    }

    /// The netlist itself.
    pub fn netlist(&self) -> &'a Netlist
        ensures { result.now ≡ self.now }
    {
        self.net
    }

    /// The bit that a constant, or a bit that nothing drives, stands for.
    pub fn still(&self, signal: Signal) -> Option<bool>
        ensures { result ≡ still self.now signal }
    {
        match signal {
            Signal::Bit(bit) => if self.numbers.has(bit.get()) {
                None
            } else {
                Some(false)
            },
            Signal::One => Some(true),
            Signal::Zero => Some(false),
            Signal::Unknown => Some(false),
            Signal::HighZ => Some(false),
        }
    }
}
