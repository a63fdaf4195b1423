// Cells whose type is no gate, register or memory.
ghost use Rattle.std.specs.Prelude.{◌≡◌, find, option_map, IfOk};
ghost use Rattle.cs_modules.specs.Pins.{class_at};
ghost use Rattle.cs_conditions.specs.Conditions.{asynchronous, is_asynchronous, is_not_fine, is_unknown, not_fine, unknown_cell};
ghost use Rattle.cs_modules.specs.Modules.{cells_in, is_scope};

use crate::error::NetError;
use cs_cells::Class;
use cs_json::{CellDecl, Module};
use cs_modules::{class_at, is_scope};
use std::alloc::{AllocError, Global};

fn first_unknown(cells: &[CellDecl]) -> Option<&CellDecl>
    ensures { option_map (λ cell. cell.now) result ≡ find (λ cell. is_unknown (class_at cell)) (cells_in cells.now) }
{
    cells
        .iter()
        .filter(|cell| !is_scope(cell))
        .find(|cell| matches!(class_at(cell), Class::Unknown))
}

/// Refuses a cell of an unknown type.
pub(crate) fn unknown_cell(alloc: Global, top: &Module) -> Result<Option<NetError>, AllocError>
    ensures { IfOk result (λ found. found ≡ unknown_cell top.now) }
{
    match first_unknown(top.cells.as_slice()) {
        None => Ok(None),
        Some(cell) => Ok(Some(NetError::UnknownCell {
            name: cell.name.copy(alloc)?,
            kind: cell.kind.copy(alloc)?,
        })),
    }
}

fn first_not_fine(cells: &[CellDecl]) -> Option<&CellDecl>
    ensures { option_map (λ cell. cell.now) result ≡ find (λ cell. is_not_fine (class_at cell)) (cells_in cells.now) }
{
    cells
        .iter()
        .filter(|cell| !is_scope(cell))
        .find(|cell| matches!(class_at(cell), Class::NotFine))
}

/// Refuses a coarse cell.
pub(crate) fn not_fine(alloc: Global, top: &Module) -> Result<Option<NetError>, AllocError>
    ensures { IfOk result (λ found. found ≡ not_fine top.now) }
{
    match first_not_fine(top.cells.as_slice()) {
        None => Ok(None),
        Some(cell) => Ok(Some(NetError::NotFine {
            name: cell.name.copy(alloc)?,
            kind: cell.kind.copy(alloc)?,
        })),
    }
}

fn first_asynchronous(cells: &[CellDecl]) -> Option<&CellDecl>
    ensures { option_map (λ cell. cell.now) result ≡ find (λ cell. is_asynchronous (class_at cell)) (cells_in cells.now) }
{
    cells
        .iter()
        .filter(|cell| !is_scope(cell))
        .find(|cell| matches!(class_at(cell), Class::Asynchronous))
}

/// Refuses a latch, a tristate buffer, and a register with an asynchronous pin or no clock.
pub(crate) fn asynchronous(alloc: Global, top: &Module) -> Result<Option<NetError>, AllocError>
    ensures { IfOk result (λ found. found ≡ asynchronous top.now) }
{
    match first_asynchronous(top.cells.as_slice()) {
        None => Ok(None),
        Some(cell) => Ok(Some(NetError::Asynchronous {
            name: cell.name.copy(alloc)?,
            kind: cell.kind.copy(alloc)?,
        })),
    }
}
