// The Writes of each memory.
ghost use Rattle.std.specs.Prelude.{◌≡◌, ◌<◌, ℕ, ◌++◌, ◌∷◌, [], IfOk, OnOk, get_or, length, replicate, slice_set};
ghost use Rattle.cs_bank.specs.WritePlaces.{noted_in, writes_of};
ghost use Rattle.cs_graph.specs.declared.vertex.VertexKind.TheVariants.{Write};

use cs_base::{MemId, Sequence, VertexId};
use cs_graph::{Machine, VertexKind};
use std::alloc::{AllocError, Global};

// A list without items for each memory.
fn empty_lists(alloc: Global, count: u32) -> Result<Vec<Sequence<VertexId>>, AllocError>
    ensures { IfOk result (λ lists. lists.items ≡ replicate count []) }
{
    let mut lists = Vec::new(alloc);
    for _ in 0..count {
        lists.push(Sequence::new(alloc))?;
    }
    Ok(lists)
}

// Puts a vertex behind the others of its memory.
fn note_write(
    lists: &mut Vec<Sequence<VertexId>>,
    memory: MemId,
    v: VertexId,
) -> Result<(), AllocError>
    requires { memory < length lists.old.items }
    ensures { OnOk result (lists.new.items
        ≡ slice_set lists.old.items memory (get_or lists.old.items memory [] ++ v ∷ [])) }
{
    lists[memory.get() as usize].push(v)?;
    Ok(())
}

// Puts a vertex behind the others of its memory, if it is a Write.
fn note_vertex(
    lists: &mut Vec<Sequence<VertexId>>,
    kind: VertexKind,
    v: VertexId,
) -> Result<(), AllocError>
    requires { (memory port : ℕ) → kind ≡ Write memory port → memory < length lists.old.items }
    ensures { OnOk result (lists.new.items ≡ noted_in lists.old.items v kind) }
{
    match kind {
        VertexKind::Write { memory, .. } => note_write(lists, memory, v),
        _ => Ok(()),
    }
}

/// The Writes of each memory, in order of their ports.
pub(crate) fn writes_of(
    alloc: Global,
    machine: &Machine,
) -> Result<Vec<Sequence<VertexId>>, AllocError>
    ensures { IfOk result (λ lists. lists.items ≡ writes_of machine.now) }
{
    machine.keeps();
    let mut lists = empty_lists(alloc, machine.memory_count())?;
    for v in 0..machine.vertex_count() {
        let v = VertexId::new(v);
        note_vertex(&mut lists, machine.vertex(v).kind, v)?;
    }
    Ok(lists)
}
