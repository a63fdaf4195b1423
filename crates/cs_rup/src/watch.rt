// The two literals by which a clause is watched, and the clauses that a literal watches.
ghost use Rattle.std.specs.Prelude.{◌≡◌, ◌++◌, ◌<◌, ◌≤◌, ◌∷◌, [], Some, IfSome, IfNone, OnOk, OnErr, length, slice_get, slice_set};
ghost use Rattle.cs_rup.specs.Watchers.{IsWithout};

use cs_base::Lit;
use std::alloc::{AllocError, Global};
use std::marker::Model;

/// A literal of a clause, and where it stands there.
#[derive(Clone, Copy)]
pub struct Spot {
    pub at: usize,
    pub lit: Lit,
}

/// Two literals of a clause. As long as they are not false, the clause asks for nothing.
#[derive(Clone, Copy)]
pub struct Watch {
    pub one: Spot,
    pub other: Spot,
}

/// The place of a clause that a literal watches, and a literal of it: while that is true, the clause asks for
/// nothing, and needs no look (Chu, Harwood and Stuckey 2009).
#[derive(Clone, Copy)]
pub struct Watched {
    pub place: usize,
    pub other: Lit,
}

/// The clauses that the literals of a list watch, which contracts see as a list.
#[derive(Drop)]
pub struct Watchers {
    items: Vec<Watched>,
}

impl Model for Watchers {
    ghost use Rattle.std.specs.Prelude.{List};
    ghost use Rattle.cs_rup.specs.declared.watch.Watched.{Watched};

    ghost Value = { List Watched };

    ghost view = { λ watchers. watchers.items.items };
}

impl Watchers {
    /// No clause; it takes no memory.
    pub fn new(alloc: Global) -> Watchers
        ensures { result ≡ [] }
    {
        Watchers {
            items: Vec::new(alloc),
        }
    }

    pub fn len(&self) -> usize
        ensures { result ≡ length self.now }
    {
        self.items.len()
    }

    /// The clause at a place of the list.
    pub fn get(&self, at: usize) -> Option<Watched>
        ensures some { IfSome result (λ watched. slice_get self.now at ≡ Some watched) }
        ensures none { IfNone result (length self.now ≤ at) }
    {
        self.items.as_slice().get(at).copied()
    }

    /// Puts a clause behind the others; a refusal leaves the list unchanged.
    pub fn push(&mut self, watched: Watched) -> Result<(), AllocError>
        ensures ok { OnOk result (self.new ≡ self.old ++ watched ∷ []) }
        ensures err { OnErr result (self.new ≡ self.old) }
    {
        self.items.push(watched)?;
        Ok(())
    }

    /// Puts a clause in the place of another.
    pub fn set(&mut self, at: usize, watched: Watched)
        requires { at < length self.old }
        ensures { self.new ≡ slice_set self.old at watched }
    {
        self.items[at] = watched;
    }

    /// Takes the clause at a place out; the last one takes its place.
    pub fn take_out(&mut self, at: usize)
        requires { at < length self.old }
        ensures { IsWithout self.old self.new at }
    {
        let _ = self.items.swap_remove(at);
    }
}
