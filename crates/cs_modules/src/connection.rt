// What the bits of cells' pins are for, and what they are connected to.
ghost use Rattle.std.specs.Prelude.{◌≡◌, IfOk};
ghost use Rattle.cs_modules.specs.Pins.{gate_role, is_for_clocked_reads, memory_role, register_role, role_of};
ghost use Rattle.cs_modules.specs.PinBits.{AreClocksOf, bits_of_pin, bits_of_cell, bits_of_cells};

use crate::classes::{class_at, is_scope};
use crate::digits::{digits_at, is_one};
use cs_base::Signal;
use cs_cells::{Class, FfKind};
use cs_json::{CellDecl, PinDecl};
use std::alloc::{AllocError, Global};

/// What a bit of a cell's pin is for.
#[derive(Clone, Copy)]
pub enum Role {
    /// Read by the cell.
    Data,
    /// The cell's clock, with a rising edge or a falling one.
    Clock { rising: bool },
    /// Driven by the cell.
    Output,
    /// Passed over.
    Unused,
}

/// One bit of a cell's pin: the cell's place among the module's cells, the signal that the bit is connected to, and
/// what it is for.
#[derive(Clone, Copy)]
pub struct PinBit {
    pub cell: usize,
    pub signal: Signal,
    pub role: Role,
}

// The digits that say which ports of a memory are clocked, and by which edge.
#[derive(Drop)]
struct PortClocks {
    read_enable: Vec<u8>,
    read_polarity: Vec<u8>,
    write_enable: Vec<u8>,
    write_polarity: Vec<u8>,
}

fn port_clocks(alloc: Global, cell: &CellDecl) -> Result<PortClocks, AllocError>
    ensures { IfOk result (AreClocksOf cell.now) }
{
    let parameters = cell.parameters.as_slice();
    Ok(PortClocks {
        read_enable: digits_at(alloc, "RD_CLK_ENABLE", parameters)?,
        read_polarity: digits_at(alloc, "RD_CLK_POLARITY", parameters)?,
        write_enable: digits_at(alloc, "WR_CLK_ENABLE", parameters)?,
        write_polarity: digits_at(alloc, "WR_CLK_POLARITY", parameters)?,
    })
}

fn gate_role(pin: &str) -> Role
    ensures { result ≡ gate_role pin.now }
{
    if pin == "Y" { Role::Output } else { Role::Data }
}

fn register_role(kind: FfKind, pin: &str) -> Role
    ensures { result ≡ register_role kind pin.now }
{
    if pin == "C" {
        Role::Clock {
            rising: kind.rising,
        }
    } else if pin == "Q" {
        Role::Output
    } else {
        Role::Data
    }
}

fn is_for_clocked_reads(pin: &str) -> bool
    ensures { result ≡ is_for_clocked_reads pin.now }
{
    pin == "RD_EN" || pin == "RD_ARST" || pin == "RD_SRST"
}

fn memory_role(cell: &CellDecl, clocks: &PortClocks, pin: &str, i: usize) -> Role
    requires { AreClocksOf cell.now clocks.now }
    ensures { result ≡ memory_role cell.now pin.now i }
{
    let is_read_clocked = is_one(clocks.read_enable.as_slice(), i);
    if pin == "RD_DATA" {
        Role::Output
    } else if pin == "RD_CLK" {
        if is_read_clocked {
            Role::Clock {
                rising: is_one(clocks.read_polarity.as_slice(), i),
            }
        } else {
            Role::Unused
        }
    } else if pin == "WR_CLK" {
        if is_one(clocks.write_enable.as_slice(), i) {
            Role::Clock {
                rising: is_one(clocks.write_polarity.as_slice(), i),
            }
        } else {
            Role::Data
        }
    } else if is_for_clocked_reads(pin) && !is_read_clocked {
        Role::Unused
    } else {
        Role::Data
    }
}

fn role_of(class: Class, cell: &CellDecl, clocks: &PortClocks, pin: &str, i: usize) -> Role
    requires { AreClocksOf cell.now clocks.now }
    ensures { result ≡ role_of class cell.now pin.now i }
{
    match class {
        Class::Gate(_) => gate_role(pin),
        Class::Register(kind) => register_role(kind, pin),
        Class::Memory => memory_role(cell, clocks, pin, i),
        Class::Scope => Role::Unused,
        Class::Asynchronous => Role::Unused,
        Class::NotFine => Role::Unused,
        Class::Unknown => Role::Unused,
    }
}

// The bits of a pin of cell i.
fn pin_bits(
    alloc: Global,
    i: usize,
    cell: &CellDecl,
    clocks: &PortClocks,
    pin: &PinDecl,
) -> Result<Vec<PinBit>, AllocError>
    requires { AreClocksOf cell.now clocks.now }
    ensures { IfOk result (λ bits. bits.items ≡ bits_of_pin i cell.now pin.now) }
{
    let class = class_at(cell);
    let name = pin.name.as_str();
    pin.bits
        .as_slice()
        .iter()
        .enumerate()
        .map(|(place, signal)| PinBit {
            cell: i,
            signal: *signal,
            role: role_of(class, cell, clocks, name, place),
        })
        .collect(alloc)
}

// The bits of the pins of cell i, by its clocks.
fn bits_by_clocks(
    alloc: Global,
    i: usize,
    cell: &CellDecl,
    clocks: &PortClocks,
) -> Result<Vec<PinBit>, AllocError>
    requires { AreClocksOf cell.now clocks.now }
    ensures { IfOk result (λ bits. bits.items ≡ bits_of_cell i cell.now) }
{
    let mut bits = Vec::new(alloc);
    for pin in cell.pins.as_slice() {
        bits.extend_from_slice(pin_bits(alloc, i, cell, clocks, pin)?.as_slice())?;
    }
    Ok(bits)
}

// The bits of the pins of cell i.
fn cell_bits(alloc: Global, i: usize, cell: &CellDecl) -> Result<Vec<PinBit>, AllocError>
    ensures { IfOk result (λ bits. bits.items ≡ bits_of_cell i cell.now) }
{
    let clocks = port_clocks(alloc, cell)?;
    bits_by_clocks(alloc, i, cell, &clocks)
}

/// The bits of the pins of all cells but `$scopeinfo` cells.
pub fn bits_of_cells(alloc: Global, cells: &[CellDecl]) -> Result<Vec<PinBit>, AllocError>
    ensures { IfOk result (λ bits. bits.items ≡ bits_of_cells cells.now) }
{
    let mut bits = Vec::new(alloc);
    for (i, cell) in cells.iter().enumerate() {
        if !is_scope(cell) {
            bits.extend_from_slice(cell_bits(alloc, i, cell)?.as_slice())?;
        }
    }
    Ok(bits)
}
