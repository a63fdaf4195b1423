// The classes of cells.
ghost use Rattle.std.specs.Prelude.{◌≡◌};
ghost use Rattle.cs_modules.specs.Pins.{class_at};
ghost use Rattle.cs_modules.specs.Modules.{is_scope, is_register, is_memory};

use cs_cells::{Class, class_of};
use cs_json::CellDecl;

/// The class of a cell's type.
pub fn class_at(cell: &CellDecl) -> Class
    ensures { result ≡ class_at cell.now }
{
    class_of(cell.kind.as_str())
}

/// Whether a cell is passed over.
pub fn is_scope(cell: &CellDecl) -> bool
    ensures { result ≡ is_scope (class_at cell.now) }
{
    matches!(class_at(cell), Class::Scope)
}

/// Whether a cell is a register.
pub fn is_register(cell: &CellDecl) -> bool
    ensures { result ≡ is_register (class_at cell.now) }
{
    matches!(class_at(cell), Class::Register(_))
}

/// Whether a cell is a memory.
pub fn is_memory(cell: &CellDecl) -> bool
    ensures { result ≡ is_memory (class_at cell.now) }
{
    matches!(class_at(cell), Class::Memory)
}
