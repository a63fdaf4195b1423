// When banking refuses. It takes no memory.
ghost use Rattle.std.specs.Prelude.{◌≡◌, ◌*◌, ◌-◌, ◌<◌, ◌^◌, ℕ, List, Option, Some, length, min, slice_get};
ghost use Rattle.cs_graph.specs.declared.memory.Memory.{Memory as MemoryValue};
ghost use Rattle.cs_net.specs.Contexts.{Image};
ghost use Rattle.cs_bank.specs.Bank.{IsWhole, banked};
ghost use Rattle.cs_bank.specs.BankFaults.{draft_fault, memory_bits};
ghost use Rattle.cs_bank.specs.Wired.{wired};

use crate::measures::{Measure, banked_count};
use cs_base::{Contexts, Counted, LimitFault, MemId};
use cs_graph::{MOST_EDGES, MOST_VERTICES, MOST_WEIGHT, Machine, Memory};
use cs_net::above_limit;

/// The most bits that the memories of a banked machine have.
const MOST_MEMORY_BITS: u64 = 4_194_304;

// How many bits the words of a memory have, for all contexts.
fn bits_of(memory: &Memory, contexts: Contexts) -> u64
    ensures { result ≡ min ((contexts * memory.now.words) * memory.now.width) (2 ^ 64 - 1) }
{
    (u64::from(contexts.get()) * u64::from(memory.words)).saturating_mul(u64::from(memory.width))
}

// How many bits the words of all memories have, for all contexts.
fn memory_bits(machine: &Machine, contexts: Contexts) -> u64
    ensures { (entries : List (Option (List Image))) → length entries ≡ length machine.now.memories
        → result ≡ min (memory_bits (banked contexts entries (wired machine.now)).memories) (2 ^ 64 - 1) }
{
    let mut total = 0u64;
    for i in 0..machine.memory_count() {
        total = total.saturating_add(bits_of(machine.memory(MemId::new(i)), contexts));
    }
    total
}

/// The first of vertices, edges, registers and bits of memories that would be too many.
pub(crate) fn draft_fault(machine: &Machine, contexts: Contexts) -> Option<LimitFault>
    requires { (i : ℕ) (m : MemoryValue) → slice_get machine.now.memories i ≡ Some m → IsWhole m }
    ensures { (entries : List (Option (List Image))) → length entries ≡ length machine.now.memories
        → result ≡ draft_fault (banked contexts entries (wired machine.now)) }
{
    let vertices = banked_count(machine, Measure::Vertices, contexts);
    if let Some(fault) = above_limit(Counted::Vertices, vertices, MOST_VERTICES as u64) {
        return Some(fault);
    }
    let edges = banked_count(machine, Measure::Edges, contexts);
    if let Some(fault) = above_limit(Counted::Edges, edges, u64::from(MOST_EDGES)) {
        return Some(fault);
    }
    let registers = banked_count(machine, Measure::Registers, contexts);
    if let Some(fault) = above_limit(Counted::Weight, registers, MOST_WEIGHT) {
        return Some(fault);
    }
    let bits = memory_bits(machine, contexts);
    above_limit(Counted::MemoryBits, bits, MOST_MEMORY_BITS)
}
