// Banked memories: the words of all contexts, bank by bank.
ghost use Rattle.std.specs.Prelude.{◌≡◌, ◌+◌, ◌*◌, ◌-◌, ◌<◌, ◌≤◌, ◌^◌, ◌++◌, ℕ, [], IfOk, OnOk, Option, List, Some, length, slice_get, slice_index_or};
ghost use Rattle.cs_graph.specs.declared.memory.Memory.{Memory as MemoryValue};
ghost use Rattle.cs_graph.specs.Invariant.{IsMemory};
ghost use Rattle.cs_net.specs.Contexts.{Image};
ghost use Rattle.cs_bank.specs.Bank.{FitsMemory, IsWhole, banked_memory, banked_start};
ghost use Rattle.cs_bank.specs.Starts.{filled, start_in, with_entries};

use crate::context_bits::context_bits;
use cs_base::{Contexts, MemId, Sequence};
use cs_graph::{Machine, Memory};
use cs_net::Images;
use std::alloc::{AllocError, Global};

// The image of context k, and the empty one where there is none.
fn image_of(images: &[Sequence<bool>], k: u32) -> &[bool]
    ensures { result.now ≡ slice_index_or images.now k [] }
{
    match images.get(k as usize) {
        Some(image) => image.as_slice(),
        None => &[],
    }
}

// Pushes an image, and 0 in the words that it doesn't reach.
fn push_filled(start: &mut Vec<bool>, image: &[bool], bits: usize) -> Result<(), AllocError>
    requires short { length image.now ≤ bits }
    requires few { bits ≤ 4194304 }
    ensures { OnOk result (start.new.items ≡ start.old.items ++ filled bits image.now) }
{
    start.extend_from_slice(image)?;
    start.resize(start.len() + (bits - image.len()), false)?;
    Ok(())
}

// Pushes what a memory starts with in context k.
fn push_start(
    start: &mut Vec<bool>,
    memory: &Memory,
    entry: &Option<Sequence<Sequence<bool>>>,
    k: u32,
) -> Result<(), AllocError>
    requires whole { IsWhole memory.now }
    requires memory { IsMemory memory.now }
    requires fits { (c : ℕ) × FitsMemory c memory.now entry.now }
    ensures { OnOk result (start.new.items ≡ start.old.items ++ start_in k memory.now entry.now) }
{
    match entry {
        None => start.extend_from_slice(memory.start.as_slice())?,
        Some(images) => {
            let bits = memory.words as usize * memory.width as usize;
            push_filled(start, image_of(images.as_slice(), k), bits)?;
        }
    }
    Ok(())
}

// The starts of all contexts, bank by bank.
fn banked_start(
    alloc: Global,
    contexts: Contexts,
    memory: &Memory,
    entry: &Option<Sequence<Sequence<bool>>>,
) -> Result<Sequence<bool>, AllocError>
    requires whole { IsWhole memory.now }
    requires memory { IsMemory memory.now }
    requires fits { FitsMemory contexts memory.now entry.now }
    ensures { IfOk result (λ start. start ≡ banked_start contexts memory.now entry.now) }
{
    let mut start = Vec::new(alloc);
    for k in 0..contexts.get() {
        push_start(&mut start, memory, entry, k)?;
    }
    Ok(Sequence::from_vec(start))
}

// A memory with its words as many times as there are contexts.
fn banked_memory(
    alloc: Global,
    contexts: Contexts,
    memory: &Memory,
    entry: &Option<Sequence<Sequence<bool>>>,
) -> Result<Memory, AllocError>
    requires whole { IsWhole memory.now }
    requires memory { IsMemory memory.now }
    requires fits { FitsMemory contexts memory.now entry.now }
    ensures { IfOk result (λ banked. banked ≡ banked_memory contexts memory.now entry.now) }
{
    let start = banked_start(alloc, contexts, memory, entry)?;
    Ok(Memory {
        size: memory.size,
        words: contexts.get() * memory.words,
        abits: memory.abits + context_bits(contexts),
        width: memory.width,
        start,
    })
}

/// The memories, each with a bank for each context.
pub(crate) fn banked_memories(
    alloc: Global,
    machine: &Machine,
    contexts: Contexts,
    images: &Images,
) -> Result<Sequence<Memory>, AllocError>
    requires whole { (i : ℕ) (m : MemoryValue) → slice_get machine.now.memories i ≡ Some m → IsWhole m }
    requires count { length images.now.of ≡ length machine.now.memories }
    requires fit { (i : ℕ) (m : MemoryValue) (entry : Option (List Image)) → slice_get machine.now.memories i ≡ Some m
        → slice_get images.now.of i ≡ Some entry → FitsMemory contexts m entry }
    ensures { IfOk result (λ memories. memories
        ≡ with_entries (banked_memory contexts) machine.now.memories images.now.of) }
{
    machine.keeps();
    let mut memories = Sequence::new(alloc);
    for (i, entry) in images.of.as_slice().iter().enumerate() {
        let memory = machine.memory(MemId::new(i as u32));
        memories.push(banked_memory(alloc, contexts, memory, entry)?)?;
    }
    Ok(memories)
}
