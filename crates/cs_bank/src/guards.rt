// Guards: gates that let a write through only where its address is below the memory's size.
ghost use Rattle.std.specs.Prelude.{◌≡◌, ◌+◌, ◌*◌, ◌<◌, ◌≤◌, ◌^◌, ◌++◌, OnOk, Some, length, map};
ghost use Rattle.std.specs.Bool.{OnTrue};
ghost use Rattle.cs_bank.specs.ContextBits.{digits};
ghost use Rattle.cs_bank.specs.Guards.{below_size, guard, guard_gates, guarded_enables, is_guarded, test_count};
ghost use Rattle.cs_bank.specs.TestSteps.{test_gates};
ghost use Rattle.cs_bank.specs.Wired.{feed_source};

use crate::sources::{push_gate, push_gate_of_two, source, wire};
use cs_base::VertexId;
use cs_cells::Kind;
use cs_graph::{Feed, Machine, Memory, OpenVertex, Source};
use std::alloc::{AllocError, Global};

// ---- how many gates

/// Whether a memory has addresses that are no words.
pub(crate) fn is_guarded(memory: &Memory) -> bool
    requires { memory.now.words ≡ 2 ^ memory.now.abits }
    ensures { result ≡ is_guarded memory.now }
{
    memory.size < memory.words
}

/// How many gates test an address of so many bits: one for each digit of the size from the lowest 1 on.
pub(crate) fn test_count(address_bits: u32, size: u32) -> u32
    ensures count { result ≡ test_count (digits address_bits size) }
    ensures few { result ≤ address_bits }
{
    let mut rest = size;
    for place in 0..address_bits {
        if rest % 2 == 1 {
            return address_bits - place;
        }
        rest /= 2;
    }
    0
}

// ---- the test of an address

// Pushes the gate of an address bit and a digit of the size, if it has one.
fn push_test_gate(
    alloc: Global,
    vertices: &mut Vec<OpenVertex>,
    begun: bool,
    bit: Source,
    digit: bool,
) -> Result<(), AllocError>
    requires begun { OnTrue begun (0 < length vertices.old.items) }
    requires few { length vertices.old.items < 2 ^ 32 }
    ensures { OnOk result (vertices.new.items
        ≡ vertices.old.items ++ test_gates begun (length vertices.old.items) (Some bit) digit) }
{
    if begun {
        let last = wire(alloc, VertexId::new(vertices.len() as u32 - 1));
        let kind = if digit { Kind::OrNot } else { Kind::AndNot };
        push_gate_of_two(alloc, vertices, kind, last, bit)
    } else if digit {
        push_gate(alloc, vertices, Kind::Not, bit)
    } else {
        Ok(())
    }
}

// Pushes the test whether an address is below a size.
fn push_test(
    alloc: Global,
    machine: &Machine,
    address: &[Feed],
    size: u32,
    vertices: &mut Vec<OpenVertex>,
) -> Result<(), AllocError>
    requires { length vertices.old.items + length address.now < 2 ^ 32 }
    ensures { OnOk result (vertices.new.items ≡ vertices.old.items
        ++ below_size (length vertices.old.items) (map (feed_source machine.now.edges) address.now)
        (digits (length address.now) size)) }
{
    let (mut begun, mut rest) = (false, size);
    for feed in address {
        let bit = source(alloc, machine, *feed)?;
        let digit = rest % 2 == 1;
        push_test_gate(alloc, vertices, begun, bit, digit)?;
        begun = begun || digit;
        rest /= 2;
    }
    Ok(())
}

// ---- guards

// Pushes enable bits that are 0 where vertex `last` has 0.
fn push_enables(
    alloc: Global,
    machine: &Machine,
    enables: &[Feed],
    last: VertexId,
    vertices: &mut Vec<OpenVertex>,
) -> Result<(), AllocError>
    ensures { OnOk result (vertices.new.items
        ≡ vertices.old.items ++ guarded_enables last (map (feed_source machine.now.edges) enables.now)) }
{
    for feed in enables {
        let enable = source(alloc, machine, *feed)?;
        push_gate_of_two(alloc, vertices, Kind::And, enable, wire(alloc, last))?;
    }
    Ok(())
}

// Pushes the gates of a guard: the test, and a gate for each enable bit.
fn push_guard_gates(
    alloc: Global,
    machine: &Machine,
    memory: &Memory,
    feeds: &[Feed],
    vertices: &mut Vec<OpenVertex>,
) -> Result<(), AllocError>
    requires pins { length feeds.now ≡ memory.now.abits + 2 * memory.now.width }
    requires some { 0 < length vertices.old.items }
    requires few { length vertices.old.items + memory.now.abits < 2 ^ 32 }
    ensures { OnOk result (vertices.new.items ≡ vertices.old.items
        ++ guard_gates (length vertices.old.items) memory.now (map (feed_source machine.now.edges) feeds.now)) }
{
    let (address_bits, width) = (memory.abits as usize, memory.width as usize);
    let (address, enables) = (&feeds[..address_bits], &feeds[address_bits + width..]);
    push_test(alloc, machine, address, memory.size, vertices)?;
    let last = VertexId::new(vertices.len() as u32 - 1);
    push_enables(alloc, machine, enables, last, vertices)
}

/// Pushes the guard of a Write with these pins, if its memory is guarded.
pub(crate) fn push_guard(
    alloc: Global,
    machine: &Machine,
    memory: &Memory,
    feeds: &[Feed],
    vertices: &mut Vec<OpenVertex>,
) -> Result<(), AllocError>
    requires words { memory.now.words ≡ 2 ^ memory.now.abits }
    requires pins { length feeds.now ≡ memory.now.abits + 2 * memory.now.width }
    requires some { 0 < length vertices.old.items }
    requires few { length vertices.old.items + memory.now.abits < 2 ^ 32 }
    ensures { OnOk result (vertices.new.items ≡ vertices.old.items
        ++ guard (length vertices.old.items) memory.now (map (feed_source machine.now.edges) feeds.now)) }
{
    if is_guarded(memory) {
        push_guard_gates(alloc, machine, memory, feeds, vertices)
    } else {
        Ok(())
    }
}
