// The memories of a netlist: their shapes, and the words that they start with.
ghost use Rattle.std.specs.Prelude.{◌≡◌, ◌+◌, ◌*◌, ◌≤◌, [], ◌∷◌, IfOk, None, codes, filter_map, find, map, nat_lt, true};
ghost use Rattle.std.specs.List.{list_all};
ghost use Rattle.cs_cells.specs.declared.class.Class.TheVariants.{Memory};
ghost use Rattle.cs_modules.specs.Memories.{shapes_in, AreReadsOf, digits_part, first_words, memory_shape, read_shape, shape_of};
ghost use Rattle.cs_net.specs.Build.{places_from, words_by};
ghost use Rattle.cs_conditions.specs.Conditions.{bad_pins};
ghost use Rattle.cs_modules.specs.Modules.{cells_in, cells_of};
ghost use Rattle.cs_modules.specs.Pins.{has_right_pins, class_at, count_from, is_size, memory_sizes, number_at};
ghost use Rattle.cs_modules.specs.Digits.{is_one};

use crate::state::MemoryWords;
use cs_base::Sequence;
use cs_cells::MemShape;
use cs_json::{CellDecl, Module};
use cs_modules::{first_words, is_memory, is_scope, shape};
use std::alloc::{AllocError, Global};

/// The shapes of the cells of a module.
pub(crate) fn shapes(alloc: Global, top: &Module) -> Result<Sequence<Option<MemShape>>, AllocError>
    requires { bad_pins top.now ≡ None }
    ensures { IfOk result (λ shapes. shapes ≡ map shape_of (cells_of top.now)) }
{
    let mut shapes = Sequence::new(alloc);
    for cell in top.cells.as_slice() {
        if is_scope(cell) {
            continue;
        }
        shapes.push(shape(alloc, cell)?)?;
    }
    Ok(shapes)
}

// The words of a cell that is a memory.
fn memory_words(alloc: Global, cell: &CellDecl) -> Result<Option<MemoryWords>, AllocError>
    requires right { has_right_pins cell.now ≡ true }
    requires narrow { find (λ shape. nat_lt 20 shape.abits) (shapes_in (shape_of cell.now ∷ [])) ≡ None }
    ensures { IfOk result (λ words. words ≡ words_by (class_at cell.now) cell.now) }
{
    if !is_memory(cell) {
        return Ok(None);
    }
    Ok(Some(MemoryWords {
        name: cell.name.copy(alloc)?,
        words: first_words(alloc, cell)?,
    }))
}

/// The words of each memory of a module at the start.
pub(crate) fn memories(alloc: Global, top: &Module) -> Result<Sequence<MemoryWords>, AllocError>
    requires pins { bad_pins top.now ≡ None }
    requires narrow { find (λ shape. nat_lt 20 shape.abits) (shapes_in (map shape_of (cells_of top.now))) ≡ None }
    ensures { IfOk result (λ memories. memories ≡ filter_map (λ cell. words_by (class_at cell) cell) (cells_of top.now)) }
{
    let mut memories = Sequence::new(alloc);
    for cell in top.cells.as_slice() {
        if is_scope(cell) {
            continue;
        }
        if let Some(words) = memory_words(alloc, cell)? {
            memories.push(words)?;
        }
    }
    Ok(memories)
}

/// How many memories stand before each cell.
pub(crate) fn memory_places(
    alloc: Global,
    shapes: &[Option<MemShape>],
) -> Result<Sequence<usize>, AllocError>
    ensures { IfOk result (λ places. places ≡ places_from 0 shapes.now) }
{
    let mut places = Sequence::new(alloc);
    let mut count = 0;
    for shape in shapes {
        places.push(count)?;
        if shape.is_some() {
            count += 1;
        }
    }
    Ok(places)
}
