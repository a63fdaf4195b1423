// Rings: loops of registers without any vertex. One walks back from each bit, and puts each bit down once; a walk that
// comes upon a bit of its own has closed a ring.
ghost use Rattle.std.specs.Prelude.{◌≡◌, ◌==◌, ℕ, IfOk, IfNone, IfSome, OnOk, filter, nat_eq, take, true};
ghost use Rattle.std.specs.List.{list_any};
ghost use Rattle.indexmap.specs.IndexSet.{contains};
ghost use Rattle.cs_lower.specs.Rings.{is_ring, rings};
ghost use Rattle.cs_lower.specs.Walks.{AreDown, AreFound, ClosesAt, IsLeast, IsSearched, IsStopped, IsWalk, KeepsFound};

use crate::bits::BitList;
use crate::wires::Wires;
use cs_base::BitId;
use indexmap::IndexSet;
use std::alloc::{AllocError, Global};

// ---- walks

// Goes back from a bit through registers, and puts down each bit that is new, up to one that was put down before or that
// no bit is behind; tells that one.
fn walk(wires: &Wires, passed: &mut BitList, from: u32) -> Result<u32, AllocError>
    requires { AreDown wires.now passed.old }
    ensures down { OnOk result (AreDown wires.now passed.new) }
    ensures walk { IfOk result (λ stop. IsWalk wires.now passed.old from passed.new stop) }
    ensures stopped { IfOk result (λ stop. IsStopped wires.now passed.new stop) }
{
    let mut bit = from;
    while !passed.has(bit) {
        let Some(next) = wires.behind(BitId::new(bit)) else {
            return Ok(bit);
        };
        passed.push(bit)?;
        bit = next.get();
    }
    Ok(bit)
}

// The least of some bits, of which this is one.
fn least_of(bits: &[u32], first: u32) -> u32
    requires { list_any (λ a. a == first) bits.now ≡ true }
    ensures { IsLeast result bits.now }
{
    let mut least = first;
    for bit in bits {
        if *bit < least {
            least = *bit;
        }
    }
    least
}

// The least bit of the ring that a walk closed, if it stopped at a bit of its own: one that was put down at this place or
// later.
fn closed_ring(passed: &BitList, start: usize, stop: u32) -> Option<u32>
    ensures none { IfNone result (list_any (nat_eq stop) passed.now ≡ true
        → list_any (nat_eq stop) (take start passed.now) ≡ true) }
    ensures some { IfSome result (λ m. ClosesAt start stop passed.now m) }
{
    let place = passed.place(stop)?;
    if place < start {
        return None;
    }
    Some(least_of(&passed.as_slice()[place..], stop))
}

// Walks back from a bit, and notes the ring that is closed there.
fn search_from(
    wires: &Wires,
    passed: &mut BitList,
    least: &mut IndexSet<u32>,
    from: u32,
) -> Result<(), AllocError>
    requires { IsSearched wires.now passed.old (contains nat_eq least.old) }
    ensures searched { OnOk result (IsSearched wires.now passed.new (contains nat_eq least.new)) }
    ensures found { OnOk result (AreFound wires.now (contains nat_eq least.new) from) }
    ensures keeps { OnOk result (KeepsFound (contains nat_eq least.old) (contains nat_eq least.new)) }
{
    let start = passed.len();
    let stop = walk(wires, passed, from)?;
    if let Some(bit) = closed_ring(passed, start, stop) {
        least.insert(bit)?;
    }
    Ok(())
}

// ---- all rings

// The bits that stand for rings, as far as they are met from these.
fn ring_set(alloc: Global, wires: &Wires, numbers: &[u32]) -> Result<IndexSet<u32>, AllocError>
    ensures { IfOk result (λ set. (b : ℕ) → list_any (λ a. a == b) numbers.now ≡ true
        → contains nat_eq set b ≡ is_ring wires.now b) }
{
    let mut passed = BitList::new(alloc, wires.table_size())?;
    let mut least = IndexSet::new(alloc);
    for bit in numbers {
        search_from(wires, &mut passed, &mut least, *bit)?;
    }
    Ok(least)
}

// Those numbers that are in a set, in the order in which they stand.
fn chosen(alloc: Global, numbers: &[u32], set: &IndexSet<u32>) -> Result<Vec<u32>, AllocError>
    ensures { IfOk result (λ chosen. chosen.items ≡ filter (contains nat_eq set.now) numbers.now) }
{
    let mut chosen = Vec::new(alloc);
    if set.is_empty() {
        return Ok(chosen);
    }
    for number in numbers {
        if set.contains(number) {
            chosen.push(*number)?;
        }
    }
    Ok(chosen)
}

/// The bits that ring buffers take the place of: the least bit of each ring, in order. It errs only where memory runs
/// out.
pub(crate) fn rings(alloc: Global, wires: &Wires) -> Result<Vec<u32>, AllocError>
    ensures { IfOk result (λ bits. bits.items ≡ rings wires.now) }
{
    let numbers = wires.numbers(alloc)?;
    let set = ring_set(alloc, wires, numbers.as_slice())?;
    let mut rings = chosen(alloc, numbers.as_slice(), &set)?;
    rings.sort_unstable();
    Ok(rings)
}
