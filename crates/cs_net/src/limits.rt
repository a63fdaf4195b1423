// The program's limits on netlists.
ghost use Rattle.std.specs.Prelude.{◌≡◌, ◌+◌, ◌*◌, ◌-◌, ◌<◌, ◌≤◌, ◌^◌, ℕ, IfSome, None, filter_map, find, length, map, min, nat_lt, option_map, sum};
ghost use Rattle.cs_modules.specs.Memories.{shapes_in};
ghost use Rattle.cs_net.specs.Accept.{above_limit, limit_fault_of, memory_bits, memory_fault_of, read_bits};

use cs_base::{Counted, LimitFault};
use cs_cells::MemShape;

const MOST_CELLS: u64 = 65_536;

const MOST_ADDRESS_BITS: u32 = 20;

const MOST_MEMORY_BITS: u64 = 4_194_304;

const MOST_READ_BITS: u64 = 4_194_304;

/// The fault of a count above its limit; `found` is the count, or the greatest number of 64 bits.
pub fn above_limit(what: Counted, found: u64, most: u64) -> Option<LimitFault>
    requires { most < 2 ^ 64 - 1 }
    ensures { (count : ℕ) → found ≡ min count (2 ^ 64 - 1) → result ≡ above_limit what count most }
{
    if found > most {
        Some(LimitFault { what, found, most })
    } else {
        None
    }
}

// The address bits of the first memory that has more than 20.
fn wide_address(shapes: &[Option<MemShape>]) -> Option<u32>
    ensures first { result ≡ option_map (λ shape. shape.abits) (find (λ shape. nat_lt 20 shape.abits) (shapes_in shapes.now)) }
    ensures wide { IfSome result (λ bits. 20 < bits) }
{
    for shape in shapes {
        if let Some(shape) = shape {
            if shape.abits > MOST_ADDRESS_BITS {
                return Some(shape.abits);
            }
        }
    }
    None
}

fn memory_bits(shape: &MemShape) -> u64
    requires { shape.now.abits ≤ 20 }
    ensures { result ≡ min (memory_bits shape.now) (2 ^ 64 - 1) }
{
    (1u64 << shape.abits).saturating_mul(u64::from(shape.width))
}

fn read_bits(shape: &MemShape) -> u64
    ensures { result ≡ min (read_bits shape.now) (2 ^ 64 - 1) }
{
    (shape.reads.len() as u64).saturating_mul(u64::from(shape.width))
}

// The memories' bits, or the greatest number of 64 bits.
fn all_memory_bits(shapes: &[Option<MemShape>]) -> u64
    requires { find (λ shape. nat_lt 20 shape.abits) (shapes_in shapes.now) ≡ None }
    ensures { result ≡ min (sum (map memory_bits (shapes_in shapes.now))) (2 ^ 64 - 1) }
{
    let mut total = 0u64;
    for shape in shapes {
        if let Some(shape) = shape {
            total = total.saturating_add(memory_bits(shape));
        }
    }
    total
}

// The bits of the memories' read ports, or the greatest number of 64 bits.
fn all_read_bits(shapes: &[Option<MemShape>]) -> u64
    ensures { result ≡ min (sum (map read_bits (shapes_in shapes.now))) (2 ^ 64 - 1) }
{
    let mut total = 0u64;
    for shape in shapes {
        if let Some(shape) = shape {
            total = total.saturating_add(read_bits(shape));
        }
    }
    total
}

fn memory_fault(shapes: &[Option<MemShape>]) -> Option<LimitFault>
    ensures { result ≡ memory_fault_of shapes.now }
{
    if let Some(bits) = wide_address(shapes) {
        return above_limit(
            Counted::AddressBits,
            u64::from(bits),
            u64::from(MOST_ADDRESS_BITS),
        );
    }
    let memory_bits = all_memory_bits(shapes);
    if let Some(fault) = above_limit(Counted::MemoryBits, memory_bits, MOST_MEMORY_BITS) {
        return Some(fault);
    }
    above_limit(Counted::ReadBits, all_read_bits(shapes), MOST_READ_BITS)
}

/// The first count of a netlist that is above its limit: its cells, the address bits of a memory, the memories' bits,
/// and the bits of their read ports.
pub(crate) fn limit_fault(cells: usize, shapes: &[Option<MemShape>]) -> Option<LimitFault>
    ensures { result ≡ limit_fault_of cells shapes.now }
{
    if let Some(fault) = above_limit(Counted::Cells, cells as u64, MOST_CELLS) {
        return Some(fault);
    }
    memory_fault(shapes)
}
