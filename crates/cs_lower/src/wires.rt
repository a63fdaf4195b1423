// Wires in which that of a bit is found at once.
ghost use Rattle.std.specs.Prelude.{◌≡◌, ℕ, IfOk, filter_map};
ghost use Rattle.cs_modules.specs.Signals.{number_in};
ghost use Rattle.cs_lower.specs.Rings.{bit_at_tap, bit_behind};
ghost use Rattle.cs_lower.specs.Tables.{held};
ghost use Rattle.cs_lower.specs.Wires.{first_wire, wire_in};

use crate::table::{Table, greater, table_size};
use crate::taps::{Tap, Wire};
use cs_base::{BitId, Sequence, Signal};
use cs_modules::number_in;
use std::alloc::{AllocError, Global};
use std::marker::Model;

// The greatest number of a bit that is driven.
fn greatest_bit(wires: &[(Signal, Wire)]) -> u32 {
    let mut greatest = 0;
    for (signal, _) in wires {
        greatest = greater(greatest, *signal);
    }
    greatest
}

// The first wire of each bit.
fn first_wires(alloc: Global, wires: &[(Signal, Wire)]) -> Result<Table<Wire>, AllocError>
    ensures { IfOk result (λ firsts. (b : ℕ) → held firsts b ≡ first_wire wires.now b) }
{
    let mut firsts = Table::new(alloc, table_size(wires.len(), greatest_bit(wires)))?;
    for (signal, wire) in wires {
        firsts.note(*signal, *wire)?;
    }
    Ok(firsts)
}

/// The bit that a signal is.
pub(crate) fn bit_of(signal: Signal) -> Option<BitId>
    ensures { result ≡ number_in signal }
{
    match signal {
        Signal::Bit(bit) => Some(bit),
        Signal::Zero | Signal::One | Signal::Unknown | Signal::HighZ => None,
    }
}

// The bit of a signal that a register takes.
fn bit_at_tap(tap: Tap) -> Option<BitId>
    ensures { result ≡ bit_at_tap tap }
{
    match tap {
        Tap::Signal(signal) => bit_of(signal),
        Tap::Vertex { .. } => None,
        Tap::Constant(_) => None,
        Tap::Register(_) => None,
        Tap::Held { .. } => None,
    }
}

// The bit of a signal that the register takes which drives another, if a register does.
fn bit_behind(wire: Wire) -> Option<BitId>
    ensures { result ≡ bit_behind wire }
{
    match wire {
        Wire::Undriven => None,
        Wire::Vertex { .. } => None,
        Wire::Register(tap) => bit_at_tap(tap),
    }
}

/// Signals that are driven, each by its wire; contracts see the list of them.
#[derive(Drop)]
pub(crate) struct Wires {
    wires: Sequence<(Signal, Wire)>,
    firsts: Table<Wire>,
}

impl Model for Wires {
    ghost use Rattle.std.specs.Prelude.{◌≡◌, ℕ, List};
    ghost use Rattle.cs_base.specs.declared.signal.Signal.{Signal};
    ghost use Rattle.cs_lower.specs.declared.taps.Wire.{Wire};
    ghost use Rattle.cs_lower.specs.Tables.{held};
    ghost use Rattle.cs_lower.specs.Wires.{first_wire};

    ghost Value = { List (Signal × Wire) };

    ghost view = { λ w. w.wires };

    ghost invariant = { λ w. (b : ℕ) → held w.firsts b ≡ first_wire w.wires b };
}

impl Wires {
    /// These wires. It errs only where memory runs out.
    pub fn new(alloc: Global, wires: Sequence<(Signal, Wire)>) -> Result<Self, AllocError>
        ensures { IfOk result (λ made. made ≡ wires) }
    {
        let firsts = first_wires(alloc, wires.as_slice())?;
        Ok(Wires { wires, firsts })
    }

    /// The wires in order.
    pub fn as_slice(&self) -> &[(Signal, Wire)]
        ensures { result.now ≡ self.now }
    {
        self.wires.as_slice()
    }

    /// A size for tables of the bits that are driven.
    pub fn table_size(&self) -> usize {
        self.firsts.size()
    }

    /// What drives a bit.
    pub fn wire(&self, bit: BitId) -> Wire
        ensures { result ≡ wire_in self.now bit }
    {
        match self.firsts.get(bit.get()) {
            Some(wire) => wire,
            None => Wire::Undriven,
        }
    }

    /// The bit behind the register that drives a bit, if a register does and takes a bit.
    pub fn behind(&self, bit: BitId) -> Option<BitId>
        ensures { result ≡ bit_behind (wire_in self.now bit) }
    {
        bit_behind(self.wire(bit))
    }

    /// The numbers of the bits that are driven, in order. It errs only where memory runs out.
    pub fn numbers(&self, alloc: Global) -> Result<Vec<u32>, AllocError>
        ensures { IfOk result (λ numbers. numbers.items ≡ filter_map (λ w. number_in w.0) self.now) }
    {
        self.wires
            .as_slice()
            .iter()
            .filter_map(|wire| number_in(wire.0))
            .collect(alloc)
    }
}
