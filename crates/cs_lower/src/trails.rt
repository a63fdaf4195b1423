// A netlist whose pins are followed back through registers.
ghost use Rattle.std.specs.Prelude.{◌≡◌, ◌+◌, ◌<◌, ◌^◌, [], IfOk, IfNone, IfSome, length, false, ◌∷◌};
ghost use Rattle.cs_net.specs.Drivers.{own_start};
ghost use Rattle.cs_net.specs.Netlist.{bit_at};
ghost use Rattle.cs_lower.specs.declared.taps.Tap.TheVariants.{Register as of_register, Signal as of_signal};
ghost use Rattle.cs_lower.specs.Followed.{past};
ghost use Rattle.cs_lower.specs.Lowered.{trail_of, wiring_of};
ghost use Rattle.cs_lower.specs.Reaches.{IsUnheld, bit_of_tap, reach_of, taken_by};
ghost use Rattle.cs_lower.specs.Walks.{bit_reach};
ghost use Rattle.cs_lower.specs.Wires.{parts_of, wire_in};

pub(crate) use crate::reaches::Reach;
use crate::reaches::{bit_reaches, short_reach, signal_end};
use crate::rings::rings;
use crate::starts::own_starts;
use crate::table::Table;
use crate::taps::{End, Tap, Wire};
use crate::wired::WiredNet;
use crate::wires::bit_of;
use cs_base::{BitId, Sequence, Signal};
use cs_net::Netlist;
use std::alloc::{AllocError, Global};
use std::marker::Model;
use std::mem::size_of_val;

/// A netlist whose pins are followed back at once; contracts see the netlist.
#[derive(Drop)]
pub(crate) struct Trails<'a> {
    net: WiredNet<'a>,
    starts: Table<bool>,
    rings: Vec<u32>,
    reaches: Table<Reach>,
}

impl<'a> Model for Trails<'a> {
    ghost use Rattle.cs_net.specs.Netlist.{Net};
    ghost use Rattle.cs_lower.specs.Tables.{held};
    ghost use Rattle.cs_lower.specs.Walks.{IsFollowed};

    ghost Value = { Net };

    ghost view = { λ t. t.net };

    ghost invariant = { λ t. IsFollowed t.net (held t.starts) t.rings.items (held t.reaches) };
}

// There are few ring buffers, since the number of a bit takes more than one byte.
fn fits(first_buffer: usize, rings: &[u32])
    requires { first_buffer < 2 ^ 63 }
    ensures { first_buffer + length rings.now < 2 ^ 64 }
{
    let _bytes = size_of_val(rings);
}

// The bit that a pin is, or whose register it is.
fn bit_of_tap(tap: Tap) -> Option<BitId>
    ensures { result ≡ bit_of_tap tap }
{
    match tap {
        Tap::Signal(signal) => bit_of(signal),
        Tap::Register(bit) => Some(bit),
        Tap::Vertex { .. } => None,
        Tap::Constant(_) => None,
        Tap::Held { .. } => None,
    }
}

// The start of a register of its own.
fn own_start(alloc: Global, start: bool) -> Result<Sequence<bool>, AllocError>
    ensures { IfOk result (λ contents. contents ≡ start ∷ []) }
{
    let starts = Vec::from_slice(alloc, &[start])?;
    Ok(Sequence::from_vec(starts))
}

// What a register takes; the other wires are none.
fn taken_by(wire: Wire) -> Tap
    ensures { result ≡ taken_by wire }
{
    match wire {
        Wire::Register(tap) => tap,
        Wire::Undriven => Tap::Constant(false),
        Wire::Vertex { .. } => Tap::Constant(false),
    }
}

impl<'a> Trails<'a> {
    /// The pins of a netlist with these wires; the first ring buffer has this number. It errs only where memory runs out.
    pub fn of(
        alloc: Global,
        net: &'a Netlist,
        wires: Sequence<(Signal, Wire)>,
        first_buffer: usize,
    ) -> Result<Self, AllocError>
        requires wires { wires ≡ (parts_of net.now).wires }
        requires place { first_buffer ≡ length (parts_of net.now).pieces }
        requires few { first_buffer < 2 ^ 63 }
        ensures { IfOk result (λ trails. trails ≡ net.now) }
    {
        let net = WiredNet::of(alloc, net, wires)?;
        let starts = own_starts(alloc, net.netlist(), net.table_size())?;
        let rings = rings(alloc, net.wires())?;
        fits(first_buffer, rings.as_slice());
        let reaches = bit_reaches(alloc, &net, rings.as_slice(), first_buffer)?;
        Ok(Trails {
            net,
            starts,
            rings,
            reaches,
        })
    }

    /// The bits that ring buffers take the place of, in order.
    pub fn rings(&self) -> &[u32]
        ensures { result.now ≡ (wiring_of self.now).rings }
    {
        self.rings.as_slice()
    }

    // How far the signal of a bit reaches.
    fn bit_reach(&self, bit: BitId) -> Reach
        ensures { result ≡ bit_reach self.now bit }
    {
        match self.reaches.get(bit.get()) {
            Some(reach) => reach,
            None => Reach::at_once(End::Constant(false)),
        }
    }

    // How far the register of a bit reaches, or what else drives the bit.
    fn register_reach(&self, bit: BitId) -> Reach
        ensures { result ≡ reach_of (trail_of self.now (of_register bit)) }
    {
        self.net.keeps();
        match self.net.behind(bit) {
            Some(behind) => self.bit_reach(behind).one_more(),
            None => short_reach(self.net.wire(bit)),
        }
    }

    // How far a signal reaches.
    fn signal_reach(&self, signal: Signal) -> Reach
        ensures { result ≡ reach_of (trail_of self.now (of_signal signal)) }
    {
        match signal {
            Signal::Bit(bit) => self.bit_reach(bit),
            Signal::Zero | Signal::One | Signal::Unknown | Signal::HighZ => {
                Reach::at_once(signal_end(signal))
            }
        }
    }

    // How far a pin reaches.
    fn tap_reach(&self, tap: Tap) -> Reach
        ensures { result ≡ reach_of (trail_of self.now tap) }
    {
        match tap {
            Tap::Signal(signal) => self.signal_reach(signal),
            Tap::Register(bit) => self.register_reach(bit),
            Tap::Vertex { vertex, output } => Reach::at_once(End::Vertex { vertex, output }),
            Tap::Constant(bit) => Reach::at_once(End::Constant(bit)),
            Tap::Held { vertex, .. } => Reach::at_once(End::Vertex {
                vertex,
                output: 0,
            }).one_more(),
        }
    }

    /// How far a pin reaches. It takes no memory and no walk: each chain was followed once for all pins behind it.
    pub fn reach(&self, tap: Tap) -> Reach
        ensures registers { result.registers ≡ length (trail_of self.now tap).contents }
        ensures end { result.end ≡ (trail_of self.now tap).end }
    {
        self.tap_reach(tap)
    }

    // The start of a bit that a register or a clocked read drives.
    fn start(&self, bit: BitId) -> bool
        ensures { result ≡ bit_at (own_start self.now).bits bit }
    {
        self.starts.get(bit.get()).unwrap_or(false)
    }

    // The bit of the first register that a pin passes.
    fn first_passed(&self, tap: &Tap) -> Option<BitId>
        requires { IsUnheld tap.now }
        ensures none { IfNone result ((trail_of self.now tap.now).contents ≡ []) }
        ensures some { IfSome result (λ b. trail_of self.now tap.now ≡ past (bit_at (own_start self.now).bits b)
            (trail_of self.now (taken_by (wire_in (parts_of self.now).wires b)))) }
    {
        if self.reach(*tap).registers == 0 {
            None
        } else {
            bit_of_tap(*tap)
        }
    }

    // The starts of the registers of bits that a pin passes, nearest the end first.
    fn passed(&self, alloc: Global, tap: Tap) -> Result<Sequence<bool>, AllocError>
        requires { IsUnheld tap }
        ensures { IfOk result (λ contents. contents ≡ (trail_of self.now tap).contents) }
    {
        let mut starts = Vec::new(alloc);
        let mut at = tap;
        while let Some(bit) = self.first_passed(&at) {
            starts.push(self.start(bit))?;
            at = taken_by(self.net.wire(bit));
        }
        starts.reverse();
        Ok(Sequence::from_vec(starts))
    }

    /// The starts of the registers that a pin passes, nearest the end first. It errs only where memory runs out.
    pub fn contents(&self, alloc: Global, tap: Tap) -> Result<Sequence<bool>, AllocError>
        ensures { IfOk result (λ contents. contents ≡ (trail_of self.now tap).contents) }
    {
        match tap {
            Tap::Held { start, .. } => own_start(alloc, start),
            _ => self.passed(alloc, tap),
        }
    }
}
