// How far the signal of each bit reaches. A chain of registers is followed once for all bits on it.
ghost use Rattle.std.specs.Prelude.{◌≡◌, ◌+◌, ◌<◌, ◌^◌, ℕ, IfOk, OnOk, length};
ghost use Rattle.cs_lower.specs.Lowered.{wiring_of};
ghost use Rattle.cs_lower.specs.Reaches.{at_once, found, one_more, ring_reach, short_reach, signal_end, tap_end};
ghost use Rattle.cs_lower.specs.Rings.{bit_behind, rings};
ghost use Rattle.cs_lower.specs.Tables.{held};
ghost use Rattle.cs_lower.specs.Walks.{AreNoted, AreReaches, Grows, IsNoting, IsPath, bit_reach};
ghost use Rattle.cs_lower.specs.Wires.{parts_of, wire_in};

use crate::table::Table;
use crate::taps::{End, Tap, Wire};
use crate::wired::WiredNet;
use cs_base::{BitId, Signal};
use std::alloc::{AllocError, Global};

/// How many registers a pin passes, and where it leads.
#[derive(Clone, Copy, Debug, PartialEq, Eq)]
pub struct Reach {
    pub registers: usize,
    pub end: End,
}

impl Reach {
    /// No register.
    pub(crate) fn at_once(end: End) -> Self
        ensures { result ≡ at_once end }
    {
        Reach { registers: 0, end }
    }

    /// One register more.
    pub(crate) fn one_more(self) -> Self
        requires { self.registers + 1 < 2 ^ 64 }
        ensures { result ≡ one_more self }
    {
        Reach {
            registers: self.registers + 1,
            end: self.end,
        }
    }
}

// ---- taps without a bit behind

// Where a tap leads that is no bit.
fn tap_end(tap: Tap) -> End
    ensures { result ≡ tap_end tap }
{
    match tap {
        Tap::Signal(signal) => signal_end(signal),
        Tap::Vertex { vertex, output } => End::Vertex { vertex, output },
        Tap::Constant(bit) => End::Constant(bit),
        Tap::Register(_) => End::Constant(false),
        Tap::Held { .. } => End::Constant(false),
    }
}

/// Where a constant leads.
pub(crate) fn signal_end(signal: Signal) -> End
    ensures { result ≡ signal_end signal }
{
    match signal {
        Signal::One => End::Constant(true),
        Signal::Zero | Signal::Unknown | Signal::HighZ | Signal::Bit(_) => End::Constant(false),
    }
}

/// How far one gets through a wire that no bit is behind.
pub(crate) fn short_reach(wire: Wire) -> Reach
    ensures { result ≡ short_reach wire }
{
    match wire {
        Wire::Undriven => Reach::at_once(End::Constant(false)),
        Wire::Vertex { vertex, output } => Reach::at_once(End::Vertex { vertex, output }),
        Wire::Register(tap) => Reach {
            registers: 1,
            end: tap_end(tap),
        },
    }
}

// ---- ring buffers

// The buffer of each bit that one takes the place of, in a table of this size; the first buffer has this number.
fn ring_reaches(
    alloc: Global,
    bits: &[u32],
    first_buffer: usize,
    size: usize,
) -> Result<Table<Reach>, AllocError>
    requires { first_buffer + length bits.now < 2 ^ 64 }
    ensures { IfOk result (λ table. (b : ℕ) → held table b ≡ ring_reach first_buffer bits.now b) }
{
    let mut table = Table::new(alloc, size)?;
    for (place, bit) in bits.iter().enumerate() {
        let vertex = first_buffer + place;
        let end = End::Vertex { vertex, output: 0 };
        table.note(Signal::Bit(BitId::new(*bit)), Reach::at_once(end))?;
    }
    Ok(table)
}

// ---- chains

// The bits that are passed back through registers, up to one whose reach is known or that no bit is behind; and that one.
fn pass_back(
    alloc: Global,
    net: &WiredNet,
    table: &Table<Reach>,
    from: u32,
) -> Result<(Vec<u32>, u32), AllocError>
    requires { AreReaches net.now (held table.now) }
    ensures path { IfOk result (λ r. IsPath (wiring_of net.now) from r.0.items r.1) }
    ensures stopped { IfOk result (λ r. held table.now r.1 ≡ None
        → bit_behind (wire_in (parts_of net.now).wires r.1) ≡ None) }
{
    let mut path = Vec::new(alloc);
    let mut bit = from;
    while !table.has(bit) {
        let Some(next) = net.behind(BitId::new(bit)) else {
            return Ok((path, bit));
        };
        path.push(bit)?;
        bit = next.get();
    }
    Ok((path, bit))
}

// How far the bit reaches at which a way back stopped.
fn stop_reach(net: &WiredNet, table: &Table<Reach>, stop: u32) -> Reach
    requires reaches { AreReaches net.now (held table.now) }
    requires stopped { held table.now stop ≡ None → bit_behind (wire_in (parts_of net.now).wires stop) ≡ None }
    ensures { result ≡ bit_reach net.now stop }
{
    match table.get(stop) {
        Some(reach) => reach,
        None => short_reach(net.wire(BitId::new(stop))),
    }
}

// Notes the reach of each bit of a path, from the last to the first; that of the bit behind it is noted.
fn note_path(
    net: &WiredNet,
    table: &mut Table<Reach>,
    from: u32,
    path: Vec<u32>,
    reach: Reach,
) -> Result<(), AllocError>
    requires { IsNoting net.now (held table.old) from path.items reach }
    ensures reaches { OnOk result (AreReaches net.now (held table.new)) }
    ensures noted { OnOk result (held table.new from ≡ None → ⊥) }
    ensures grows { OnOk result (Grows (held table.old) (held table.new)) }
{
    net.keeps();
    let mut path = path;
    let mut reach = reach;
    while let Some(bit) = path.pop() {
        reach = reach.one_more();
        table.insert(bit, reach)?;
    }
    Ok(())
}

// Notes the reach of a bit, and of all that are passed back from it.
fn note_bit(
    alloc: Global,
    net: &WiredNet,
    table: &mut Table<Reach>,
    bit: u32,
) -> Result<(), AllocError>
    requires { AreReaches net.now (held table.old) }
    ensures reaches { OnOk result (AreReaches net.now (held table.new)) }
    ensures noted { OnOk result (held table.new bit ≡ None → ⊥) }
    ensures grows { OnOk result (Grows (held table.old) (held table.new)) }
{
    let (path, stop) = pass_back(alloc, net, table, bit)?;
    let reach = stop_reach(net, table, stop);
    table.insert(stop, reach)?;
    note_path(net, table, bit, path, reach)
}

// Notes the reaches of some bits.
fn note_bits(
    alloc: Global,
    net: &WiredNet,
    table: &mut Table<Reach>,
    bits: &[u32],
) -> Result<(), AllocError>
    requires { AreReaches net.now (held table.old) }
    ensures reaches { OnOk result (AreReaches net.now (held table.new)) }
    ensures noted { OnOk result (AreNoted (held table.new) bits.now) }
{
    for bit in bits {
        note_bit(alloc, net, table, *bit)?;
    }
    Ok(())
}

/// How far the signal of each bit reaches that something drives. Ring buffers take the place of these bits, and the first
/// has this number. It errs only where memory runs out.
pub(crate) fn bit_reaches(
    alloc: Global,
    net: &WiredNet,
    buffers: &[u32],
    first_buffer: usize,
) -> Result<Table<Reach>, AllocError>
    requires rings { buffers.now ≡ rings (parts_of net.now).wires }
    requires place { first_buffer ≡ length (parts_of net.now).pieces }
    requires fits { first_buffer + length buffers.now < 2 ^ 64 }
    ensures { IfOk result (λ table. (b : ℕ) → found (held table b) ≡ bit_reach net.now b) }
{
    let numbers = net.numbers(alloc)?;
    let mut table = ring_reaches(alloc, buffers, first_buffer, net.table_size())?;
    note_bits(alloc, net, &mut table, numbers.as_slice())?;
    Ok(table)
}
