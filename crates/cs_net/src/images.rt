// Starts of memories, one for each context.
ghost use Rattle.std.specs.Prelude.{◌≡◌, ◌<◌, ℕ, [], IfOk, length, slice_index_or};
ghost use Rattle.std.specs.List.{AllByRecursion, zip};
ghost use Rattle.cs_net.specs.Contexts.{AreImagesFor, AreImagesOf, context_start, no_images, of_context, with_image, with_images};
ghost use Rattle.cs_net.specs.Drivers.{own_start};
ghost use Rattle.cs_net.specs.Invariant.{AreAlike};

use crate::copies::{copied, copy_cells, copy_ports, copy_shapes};
use crate::initial_values::value_map;
use crate::memories::memory_places;
use crate::netlist::Netlist;
use crate::state::MemoryWords;
use cs_base::Sequence;
use cs_modules::Words;
use std::alloc::{AllocError, Global};

/// One entry for each memory cell in order: None where it starts alike in every context, else one image for each
/// context. An image has the bits of the memory's words; word i begins at bit i times the width.
#[derive(Drop)]
pub struct Images {
    pub of: Sequence<Option<Sequence<Sequence<bool>>>>,
}

impl Images {
    /// Images that name no memory of a netlist; they are right for any number of contexts.
    pub fn none(alloc: Global, net: &Netlist) -> Result<Self, AllocError>
        ensures is { IfOk result (λ images. images ≡ no_images net.now) }
        ensures fit { IfOk result (λ images. (c : ℕ) → AreImagesFor net.now c images) }
    {
        let mut of = Sequence::new(alloc);
        for _memory in net.memories.as_slice() {
            of.push(None)?;
        }
        Ok(Images { of })
    }
}

// The image of context k, and the empty one where there is none.
fn image_of(images: &[Sequence<bool>], k: u32) -> &[bool]
    ensures { result.now ≡ slice_index_or images.now k [] }
{
    match images.get(k as usize) {
        Some(image) => image.as_slice(),
        None => &[],
    }
}

// The words of a memory in context k, where this is its entry among the images.
fn words_in(
    alloc: Global,
    memory: &MemoryWords,
    entry: &Option<Sequence<Sequence<bool>>>,
    k: u32,
) -> Result<Words, AllocError>
    requires { (c : ℕ) × AreImagesOf c memory.now entry.now × (k < c) }
    ensures { IfOk result (λ words. words ≡ (with_image k memory.now entry.now).words) }
{
    match entry {
        Some(images) => memory
            .words
            .with_bits(alloc, image_of(images.as_slice(), k)),
        None => memory.words.copy(alloc),
    }
}

// The same memory in context k.
fn with_image(
    alloc: Global,
    memory: &MemoryWords,
    entry: &Option<Sequence<Sequence<bool>>>,
    k: u32,
) -> Result<MemoryWords, AllocError>
    requires { (c : ℕ) × AreImagesOf c memory.now entry.now × (k < c) }
    ensures { IfOk result (λ other. other ≡ with_image k memory.now entry.now) }
{
    let words = words_in(alloc, memory, entry, k)?;
    Ok(MemoryWords {
        name: memory.name.copy(alloc)?,
        words,
    })
}

// The same memories in context k.
fn with_images(
    alloc: Global,
    memories: &[MemoryWords],
    entries: &[Option<Sequence<Sequence<bool>>>],
    k: u32,
) -> Result<Sequence<MemoryWords>, AllocError>
    requires count { length entries.now ≡ length memories.now }
    requires images { (c : ℕ) × AllByRecursion (λ e. AreImagesOf c e.0 e.1) (zip memories.now entries.now) × (k < c) }
    ensures { IfOk result (λ others. others ≡ with_images k memories.now entries.now) }
{
    let mut others = Sequence::new(alloc);
    for (place, memory) in memories.iter().enumerate() {
        others.push(with_image(alloc, memory, &entries[place], k)?)?;
    }
    Ok(others)
}

impl Netlist {
    /// The netlist of context k, counted from 0: each memory that the images name starts with its image k, and all else
    /// is the same. It errs only where memory runs out.
    pub fn with_images(&self, alloc: Global, images: &Images, k: u32) -> Result<Netlist, AllocError>
        requires { (c : ℕ) × AreImagesFor self.now c images.now × (k < c) }
        ensures is { IfOk result (λ net. net ≡ of_context self.now images.now k) }
        ensures start { IfOk result (λ net. own_start net ≡ context_start self.now images.now k) }
    {
        let memories = with_images(alloc, self.memories.as_slice(), images.of.as_slice(), k)?;
        self.with_memories(alloc, memories)
    }

    // The netlist with other words in its memories.
    fn with_memories(
        &self,
        alloc: Global,
        memories: Sequence<MemoryWords>,
    ) -> Result<Netlist, AllocError>
        requires { AreAlike self.now.memories memories }
        ensures { IfOk result (λ net. net ≡ record self.now { memories = memories }) }
    {
        let shapes = copy_shapes(alloc, self.shapes.as_slice())?;
        let memory_places = memory_places(alloc, shapes.as_slice())?;
        let starts = copied(alloc, self.starts.as_slice())?;
        let start_values = value_map(alloc, starts.as_slice())?;
        Ok(Netlist {
            name: self.name.copy(alloc)?,
            ports: copy_ports(alloc, self.ports.as_slice())?,
            cells: copy_cells(alloc, self.cells.as_slice())?,
            shapes,
            clock: self.clock,
            starts,
            memories,
            order: copied(alloc, self.order.as_slice())?,
            start_values,
            memory_places,
            input_count: self.input_count,
            output_count: self.output_count,
        })
    }
}
