// Places in no order.
ghost use Rattle.std.specs.Prelude.{◌≡◌, [], ◌∷◌, ◌++◌, IfNone, IfSome, OnErr, OnOk};

use std::alloc::{AllocError, Global};
use std::marker::Model;

/// Places of vertices in the machine's order. Contracts see the list of them.
#[derive(Drop)]
pub struct Bucket {
    places: Vec<u32>,
}

impl Model for Bucket {
    ghost use Rattle.std.specs.Prelude.{ℕ, List};

    ghost Value = { List ℕ };

    ghost view = { λ b. b.places.items };
}

impl Bucket {
    /// No place; it takes no memory.
    pub(crate) fn new(alloc: Global) -> Bucket
        ensures { result ≡ [] }
    {
        Bucket {
            places: Vec::new(alloc),
        }
    }

    /// One place more, unless memory runs out.
    pub(crate) fn push(&mut self, place: u32) -> Result<(), AllocError>
        ensures ok { OnOk result (self.new ≡ self.old ++ place ∷ []) }
        ensures err { OnErr result (self.new ≡ self.old) }
    {
        self.places.push(place)?;
        Ok(())
    }

    /// Takes the place that came last, if there is one.
    pub(crate) fn pop(&mut self) -> Option<u32>
        ensures some { IfSome result (λ p. self.old ≡ self.new ++ p ∷ []) }
        ensures none { IfNone result (self.old ≡ []) }
        ensures empty { IfNone result (self.new ≡ []) }
    {
        self.places.pop()
    }
}
