// Cells whose pins are not those of their type, and memories without a size.
ghost use Rattle.std.specs.Prelude.{◌≡◌, ◌<◌, IfOk, not};
ghost use Rattle.cs_conditions.specs.Conditions.{bad_pins, first_where};
ghost use Rattle.cs_modules.specs.Modules.{cells_in};
ghost use Rattle.cs_modules.specs.Pins.{has_right_pins};
ghost use Rattle.cs_conditions.specs.declared.error.NetError.TheVariants.{BadPins};

use crate::error::NetError;
use cs_json::{CellDecl, Module};
use cs_modules::{has_right_pins, is_scope};
use std::alloc::{AllocError, Global};

// The first cell with other pins than its type.
fn first_bad_pins(alloc: Global, cells: &[CellDecl]) -> Result<Option<NetError>, AllocError>
    ensures { IfOk result (λ found. found
        ≡ first_where (λ cell. not (has_right_pins cell)) (λ cell. BadPins cell.name) (cells_in cells.now)) }
{
    for cell in cells {
        if is_scope(cell) {
            continue;
        }
        if !has_right_pins(alloc, cell)? {
            let name = cell.name.copy(alloc)?;
            return Ok(Some(NetError::BadPins { name }));
        }
    }
    Ok(None)
}

/// Refuses a cell with other pins than its type, and a memory without a size.
pub(crate) fn bad_pins(alloc: Global, top: &Module) -> Result<Option<NetError>, AllocError>
    ensures { IfOk result (λ found. found ≡ bad_pins top.now) }
{
    first_bad_pins(alloc, top.cells.as_slice())
}
