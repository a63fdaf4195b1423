// Bits in an order, and where each stands.
ghost use Rattle.std.specs.Prelude.{◌≡◌, ◌++◌, ◌∷◌, ◌<◌, [], false, IfOk, IfSome, OnErr, OnOk, length, nat_eq};
ghost use Rattle.std.specs.List.{list_any, position};

use crate::table::Table;
use std::alloc::{AllocError, Global};
use std::marker::Model;

/// Bits in the order in which they were put down, none twice, in which the place of each is found at once. Contracts see
/// the list of their numbers.
#[derive(Drop)]
pub(crate) struct BitList {
    bits: Vec<u32>,
    places: Table<usize>,
}

impl Model for BitList {
    ghost use Rattle.std.specs.Prelude.{◌≡◌, ℕ, List, nat_eq};
    ghost use Rattle.std.specs.List.{position};
    ghost use Rattle.cs_lower.specs.Tables.{held};

    ghost Value = { List ℕ };

    ghost view = { λ l. l.bits.items };

    ghost invariant = { λ l. (b : ℕ) → held l.places b ≡ position (nat_eq b) l.bits.items };
}

impl BitList {
    /// No bits; the places of those below `size` will stand in a list. It errs only where memory runs out.
    pub fn new(alloc: Global, size: usize) -> Result<Self, AllocError>
        ensures { IfOk result (λ bits. bits ≡ []) }
    {
        Ok(BitList {
            bits: Vec::new(alloc),
            places: Table::new(alloc, size)?,
        })
    }

    /// How many bits were put down.
    pub fn len(&self) -> usize
        ensures { result ≡ length self.now }
    {
        self.bits.len()
    }

    /// The bits in order.
    pub fn as_slice(&self) -> &[u32]
        ensures { result.now ≡ self.now }
    {
        self.bits.as_slice()
    }

    /// Where a bit stands.
    pub fn place(&self, bit: u32) -> Option<usize>
        ensures place { result ≡ position (nat_eq bit) self.now }
        ensures within { IfSome result (λ place. place < length self.now) }
    {
        self.places.get(bit)
    }

    /// Whether a bit is among them.
    pub fn has(&self, bit: u32) -> bool
        ensures { result ≡ list_any (nat_eq bit) self.now }
    {
        self.places.has(bit)
    }

    /// Puts down a bit that is new. It errs only where memory runs out.
    pub fn push(&mut self, bit: u32) -> Result<(), AllocError>
        requires { list_any (nat_eq bit) self.old ≡ false }
        ensures { OnOk result (self.new ≡ self.old ++ bit ∷ []) }
    {
        let place = self.bits.len();
        self.bits.push(bit)?;
        if let Err(error) = self.places.insert(bit, place) {
            let _ = self.bits.pop();
            return Err(error);
        }
        Ok(())
    }
}
