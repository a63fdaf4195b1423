// Memories of the machine of a netlist.
ghost use Rattle.std.specs.Prelude.{◌≡◌, ◌++◌, ◌*◌, ◌≤◌, IfNone, IfOk, IfSome, None, OnOk, Some, flat_map, length, map, slice_get};
ghost use Rattle.std.specs.List.{AllByRecursion, zip};
ghost use Rattle.cs_graph.specs.Invariant.{IsMemory};
ghost use Rattle.cs_lower.specs.Lowered.{filled, memory_of, next_memory};
ghost use Rattle.cs_net.specs.declared.state.MemoryWords.{MemoryWords as MemoryWordsValue};
ghost use Rattle.cs_modules.specs.Memories.{shapes_in};

use cs_base::Sequence;
use cs_cells::MemShape;
use cs_graph::Memory;
use cs_modules::Words;
use cs_net::MemoryWords;
use std::alloc::{AllocError, Global};

// The bits of these words, and 0 in as many more as there are addresses.
fn filled(
    alloc: Global,
    count: usize,
    width: usize,
    words: &Words,
) -> Result<Sequence<bool>, AllocError>
    requires { count * width ≤ 4194304 }
    ensures { IfOk result (λ bits. bits ≡ filled count width words.now) }
{
    let mut bits = Vec::from_slice(alloc, words.bits())?;
    let more = count.saturating_sub(words.len()) * width;
    bits.resize(bits.len() + more, false)?;
    Ok(Sequence::from_vec(bits))
}

// The memory of these words and shape.
fn memory_of(alloc: Global, words: &MemoryWords, shape: &MemShape) -> Result<Memory, AllocError>
    requires { IsMemory (memory_of (words.now, shape.now)) }
    ensures { IfOk result (λ memory. memory ≡ memory_of (words.now, shape.now)) }
{
    let count = 1u32 << shape.abits;
    let start = filled(alloc, count as usize, shape.width as usize, &words.words)?;
    Ok(Memory {
        size: shape.size,
        words: count,
        abits: shape.abits,
        width: shape.width,
        start,
    })
}

// The words at a place, if there are so many.
fn words_at(words: &[MemoryWords], place: usize) -> Option<&MemoryWords>
    ensures some { IfSome result (λ found. slice_get words.now place ≡ Some found.now) }
    ensures none { IfNone result (slice_get words.now place ≡ None) }
{
    if place < words.len() {
        Some(&words[place])
    } else {
        None
    }
}

// Pushes the memory of the next words, if there are more, and this shape.
fn push_memory(
    alloc: Global,
    memories: &mut Sequence<Memory>,
    words: &[MemoryWords],
    shape: &MemShape,
) -> Result<(), AllocError>
    requires { (next : MemoryWordsValue) → slice_get words.now (length memories.old) ≡ Some next
        → IsMemory (memory_of (next, shape.now)) }
    ensures { OnOk result (memories.new
        ≡ memories.old ++ next_memory shape.now (slice_get words.now (length memories.old))) }
{
    if let Some(words) = words_at(words, memories.len()) {
        memories.push(memory_of(alloc, words, shape)?)?;
    }
    Ok(())
}

/// The memories of a machine, of these words and shapes in order.
pub(crate) fn memories_of(
    alloc: Global,
    words: &[MemoryWords],
    shapes: &[Option<MemShape>],
) -> Result<Sequence<Memory>, AllocError>
    requires { AllByRecursion (λ m. IsMemory (memory_of m)) (zip words.now (shapes_in shapes.now)) }
    ensures { IfOk result (λ memories. memories ≡ map memory_of (zip words.now (shapes_in shapes.now))) }
{
    let mut memories = Sequence::new(alloc);
    for shape in shapes {
        if let Some(shape) = shape {
            push_memory(alloc, &mut memories, words, shape)?;
        }
    }
    Ok(memories)
}
