// Room for the values of a netlist.
ghost use Rattle.std.specs.Prelude.{◌≡◌, ◌+◌, IfOk, OnOk};

use std::alloc::{AllocError, Global};
use std::marker::Model;

/// Room for values, slot by slot, so that no count of slots is beyond a `usize`. Contracts see how many slots there are.
#[derive(Drop)]
pub(crate) struct Room {
    values: Vec<bool>,
}

impl Model for Room {
    ghost use Rattle.std.specs.Prelude.{ℕ, length};

    ghost Value = { ℕ };

    ghost view = { λ r. length r.values.items };
}

impl Room {
    /// So many slots.
    pub(crate) fn new(alloc: Global, count: usize) -> Result<Self, AllocError>
        ensures { IfOk result (λ room. room ≡ count) }
    {
        Ok(Room {
            values: vec![in alloc; false; count]?,
        })
    }

    /// How many slots there are.
    pub(crate) fn count(&self) -> usize
        ensures { result ≡ self.now }
    {
        self.values.len()
    }

    /// So many slots more. It errs only where memory runs out.
    pub(crate) fn extend(&mut self, more: usize) -> Result<(), AllocError>
        ensures { OnOk result (self.new ≡ self.old + more) }
    {
        for _ in 0..more {
            self.values.push(false)?;
        }
        Ok(())
    }
}
