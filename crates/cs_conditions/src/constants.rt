// The constant `z`, which nothing may read.
ghost use Rattle.std.specs.Prelude.{◌≡◌, ◌&&◌, find, option_map, unwrap_or, slice_get, [], IfOk};
ghost use Rattle.std.specs.List.{list_any};
ghost use Rattle.cs_modules.specs.Signals.{is_output, is_high_z};
ghost use Rattle.cs_conditions.specs.Conditions.{const_z, first_where, is_open_input, is_open_output};
ghost use Rattle.cs_modules.specs.Modules.{connections_of, is_cell_input};
ghost use Rattle.cs_conditions.specs.declared.error.NetError.TheVariants.{ConstZ as ConstZ_error};
ghost use Rattle.cs_modules.specs.PinBits.{bits_of_cells};

use crate::error::NetError;
use cs_base::{Signal, Text};
use cs_json::{CellDecl, Module, PortDecl};
use cs_modules::{PinBit, Role, is_output};
use std::alloc::{AllocError, Global};

fn is_high_z(signal: Signal) -> bool
    ensures { result ≡ is_high_z signal }
{
    matches!(signal, Signal::HighZ)
}

fn is_cell_input(role: Role) -> bool
    ensures { result ≡ is_cell_input role }
{
    match role {
        Role::Data => true,
        Role::Clock { .. } => true,
        Role::Output => false,
        Role::Unused => false,
    }
}

/// A copy of the name of cell i, and the empty text where there is none.
pub(crate) fn name_at(alloc: Global, cells: &[CellDecl], i: usize) -> Result<Text, AllocError>
    ensures { IfOk result (λ name. name ≡ unwrap_or (option_map (λ cell. cell.name) (slice_get cells.now i)) []) }
{
    match cells.get(i) {
        Some(cell) => cell.name.copy(alloc),
        None => Text::from_str(alloc, ""),
    }
}

fn open_bit(bits: &[PinBit]) -> Option<PinBit>
    ensures { result ≡ find (λ bit. is_cell_input bit.role && is_high_z bit.signal) bits.now }
{
    bits.iter()
        .copied()
        .find(|bit| is_cell_input(bit.role) && is_high_z(bit.signal))
}

fn open_input(alloc: Global, top: &Module, bits: &[PinBit]) -> Result<Option<NetError>, AllocError>
    requires { bits.now ≡ bits_of_cells top.now.cells }
    ensures { IfOk result (λ found. found ≡ first_where is_open_input (λ c. ConstZ_error c.cell) (connections_of top.now)) }
{
    match open_bit(bits) {
        None => Ok(None),
        Some(bit) => Ok(Some(NetError::ConstZ {
            name: name_at(alloc, top.cells.as_slice(), bit.cell)?,
        })),
    }
}

fn holds_high_z(signals: &[Signal]) -> bool
    ensures { result ≡ list_any is_high_z signals.now }
{
    signals.iter().any(|signal| is_high_z(*signal))
}

fn is_open_output(port: &PortDecl) -> bool
    ensures { result ≡ is_open_output port.now }
{
    is_output(port.direction) && holds_high_z(port.bits.as_slice())
}

fn first_open_output(ports: &[PortDecl]) -> Option<&PortDecl>
    ensures { option_map (λ port. port.now) result ≡ find is_open_output ports.now }
{
    ports.iter().find(|port| is_open_output(port))
}

fn open_output(alloc: Global, top: &Module) -> Result<Option<NetError>, AllocError>
    ensures { IfOk result (λ found. found ≡ first_where is_open_output (λ p. ConstZ_error p.name) top.now.ports) }
{
    match first_open_output(top.ports.as_slice()) {
        None => Ok(None),
        Some(port) => Ok(Some(NetError::ConstZ {
            name: port.name.copy(alloc)?,
        })),
    }
}

/// Refuses `z` at an input pin of a cell, and then in an output port.
pub(crate) fn const_z(
    alloc: Global,
    top: &Module,
    bits: &[PinBit],
) -> Result<Option<NetError>, AllocError>
    requires { bits.now ≡ bits_of_cells top.now.cells }
    ensures { IfOk result (λ found. found ≡ const_z top.now) }
{
    match open_input(alloc, top, bits)? {
        Some(error) => Ok(Some(error)),
        None => open_output(alloc, top),
    }
}
