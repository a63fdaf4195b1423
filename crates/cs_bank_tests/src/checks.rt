// Whether a machine can be banked with images: what `bank` wants of its caller.
ghost use Rattle.std.specs.Prelude.{◌≡◌, ◌≤◌, ◌^◌, ℕ, List, Option, Some, false, get_or, length, min, slice_get};
ghost use Rattle.std.specs.Bool.{OnTrue};
ghost use Rattle.std.specs.List.{AllByRecursion};
ghost use Rattle.cs_graph.specs.declared.memory.Memory.{Memory as MemoryValue};
ghost use Rattle.cs_graph.specs.Past.{IsSlowedBy};
ghost use Rattle.cs_net.specs.Contexts.{Image};
ghost use Rattle.cs_bank.specs.Bank.{CanBank, FitsMemory, IsWhole};

use cs_base::{Contexts, EdgeId, MemId, Sequence};
use cs_graph::{Machine, Memory};
use cs_net::Images;

// Whether each weight is a multiple of the number of contexts.
fn is_slowed(machine: &Machine, contexts: Contexts) -> bool
    ensures { OnTrue result (IsSlowedBy contexts machine.now) }
{
    let count = contexts.get();
    for e in 0..machine.edge_count() {
        if machine.edge(EdgeId::new(e)).weight % count != 0 {
            return false;
        }
    }
    true
}

// Whether all bits from a place on are 0.
fn are_zero(bits: &[bool], first: usize) -> bool
    ensures { OnTrue result ((i : ℕ) → first ≤ i → get_or bits.now i false ≡ false) }
{
    for place in 0..bits.len() {
        if place >= first && bits[place] {
            return false;
        }
    }
    true
}

/// The number of addresses of so many bits.
pub fn addresses(address_bits: u32) -> u64
    requires { address_bits ≤ 20 }
    ensures is { result ≡ 2 ^ address_bits }
    ensures few { result ≤ 1048576 }
{
    1u64 << address_bits
}

// Whether the memory has a word for each address, and 0 in each from its size on.
fn is_whole(memory: &Memory) -> bool
    ensures { OnTrue result (IsWhole memory.now) }
{
    let first = memory.size as usize * memory.width as usize;
    memory.size > 0
        && memory.abits <= 20
        && u64::from(memory.words) == addresses(memory.abits)
        && are_zero(memory.start.as_slice(), first)
}

// Whether all images have so many bits.
fn are_long(images: &[Sequence<bool>], bits: usize) -> bool
    ensures { OnTrue result (AllByRecursion (λ image. length image ≡ bits) images.now) }
{
    for image in images {
        if image.len() != bits {
            return false;
        }
    }
    true
}

// Whether an entry is that of a memory.
fn fits(memory: &Memory, contexts: Contexts, entry: &Option<Sequence<Sequence<bool>>>) -> bool
    requires { IsWhole memory.now }
    ensures { OnTrue result (FitsMemory contexts memory.now entry.now) }
{
    match entry {
        None => true,
        Some(images) => {
            let bits = memory.size.min(memory.words) as usize * memory.width as usize;
            images.len() == contexts.get() as usize && are_long(images.as_slice(), bits)
        }
    }
}

// Whether a memory is whole and its entry fits it.
fn can_bank_memory(
    memory: &Memory,
    contexts: Contexts,
    entry: &Option<Sequence<Sequence<bool>>>,
) -> bool
    ensures whole { OnTrue result (IsWhole memory.now) }
    ensures fits { OnTrue result (FitsMemory contexts memory.now entry.now) }
{
    is_whole(memory) && fits(memory, contexts, entry)
}

// Whether all memories are whole, and the entries are theirs.
fn can_bank_memories(machine: &Machine, contexts: Contexts, images: &Images) -> bool
    requires { length images.now.of ≡ length machine.now.memories }
    ensures whole { OnTrue result ((i : ℕ) (m : MemoryValue) → slice_get machine.now.memories i ≡ Some m → IsWhole m) }
    ensures fit { OnTrue result ((i : ℕ) (m : MemoryValue) (entry : Option (List Image))
        → slice_get machine.now.memories i ≡ Some m → slice_get images.now.of i ≡ Some entry
        → FitsMemory contexts m entry) }
{
    let entries = images.of.as_slice();
    for i in 0..machine.memory_count() {
        let memory = machine.memory(MemId::new(i));
        if !can_bank_memory(memory, contexts, &entries[i as usize]) {
            return false;
        }
    }
    true
}

/// Whether a machine can be banked with these images.
pub fn can_bank(machine: &Machine, contexts: Contexts, images: &Images) -> bool
    ensures { OnTrue result (CanBank contexts images.now.of machine.now) }
{
    is_slowed(machine, contexts)
        && images.of.len() == machine.memory_count() as usize
        && can_bank_memories(machine, contexts, images)
}
