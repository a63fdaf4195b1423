// The vertices that wait to be looked at, the one with the fewest registers and then the earliest place first. What
// comes to wait never comes before what has been taken, so those with more registers than the last one taken wait
// in no order, by their registers (Dial's buckets), and only those with as many are kept by their place.
ghost use Rattle.std.specs.Prelude.{◌≡◌, ℕ, ◌+◌, ◌<◌, ◌^◌, [], get_or, length, IfNone, IfSome, OnOk};
ghost use Rattle.std.specs.Bool.{OnTrue, OnFalse};
ghost use Rattle.cs_paths.specs.Marks.{IsMarked};
ghost use Rattle.cs_paths.specs.Waitings.{Advances, AreLow, CanWait, Gathers, IsAdded, Takes, Waits};

use crate::bucket::Bucket;
use crate::marking::Marks;
use std::alloc::{AllocError, Global};
use std::marker::Model;

/// A queue of vertices, each as the registers of a path to it and its place in the machine's order.
#[derive(Drop)]
pub struct Waiting {
    alloc: Global,
    level: u32,
    next: u32,
    marks: Marks,
    later: Vec<Bucket>,
}

impl Model for Waiting {
    ghost use Rattle.cs_paths.specs.Waitings.{IsQueue, Queue, queue};

    ghost Value = { Queue };

    ghost view = { λ w. queue w.level w.next w.marks w.later.items };

    ghost invariant = { λ w. IsQueue (queue w.level w.next w.marks w.later.items) };
}

/// Makes room for those that wait with so many registers.
fn lengthen(alloc: Global, later: &mut Vec<Bucket>, weight: u32) -> Result<(), AllocError>
    requires weight { weight + 1 < 2 ^ 32 }
    requires levels { length later.old.items < 2 ^ 32 }
    ensures same { (w : ℕ) → get_or later.new.items w [] ≡ get_or later.old.items w [] }
    ensures levels { length later.new.items < 2 ^ 32 }
    ensures long { OnOk result (weight < length later.new.items) }
{
    while later.len() <= weight as usize {
        later.push(Bucket::new(alloc))?;
    }
    Ok(())
}

/// Marks the places of a bucket, which is empty then.
fn gather(bucket: &mut Bucket, marks: &mut Marks)
    requires { AreLow bucket.old }
    ensures empty { bucket.new ≡ [] }
    ensures gathers { Gathers bucket.old marks.old marks.new }
{
    while let Some(place) = bucket.pop() {
        marks.add(place);
    }
}

impl Waiting {
    /// Nothing waits; it takes no memory.
    pub(crate) fn new(alloc: Global) -> Waiting
        ensures { (k : ℕ × ℕ) → Waits result k → ⊥ }
    {
        Waiting {
            alloc,
            level: 0,
            next: 0,
            marks: Marks::new(),
            later: Vec::new(alloc),
        }
    }

    /// Begins anew where nothing waits.
    pub(crate) fn restart(&mut self)
        requires { (k : ℕ × ℕ) → Waits self.old k → ⊥ }
        ensures idle { (k : ℕ × ℕ) → Waits self.new k → ⊥ }
        ensures level { self.new.level ≡ 0 }
        ensures next { self.new.next ≡ 0 }
    {
        self.level = 0;
        self.next = 0;
    }

    /// One more waits, unless memory runs out. It comes no earlier than what has been taken.
    pub(crate) fn push(&mut self, weight: u32, place: u32) -> Result<(), AllocError>
        requires { CanWait self.old (weight, place) }
        ensures { OnOk result (IsAdded (weight, place) self.old self.new) }
    {
        if weight == self.level {
            self.marks.add(place);
            return Ok(());
        }
        lengthen(self.alloc, &mut self.later, weight)?;
        self.later[weight as usize].push(place)?;
        Ok(())
    }

    /// Goes on to those that wait with a register more, where none waits with as many; false where nothing waits.
    fn advance(&mut self) -> bool
        requires { (p : ℕ) → IsMarked self.old.marks p → ⊥ }
        ensures yes { OnTrue result (Advances self.old self.new) }
        ensures no { OnFalse result ((k : ℕ × ℕ) → Waits self.old k → ⊥) }
        ensures same { OnFalse result (self.new ≡ self.old) }
    {
        let above = self.level as usize + 1;
        if above >= self.later.len() {
            return false;
        }
        self.level += 1;
        self.next = 0;
        gather(&mut self.later[above], &mut self.marks);
        true
    }

    /// Takes the first, if one waits.
    pub(crate) fn pop(&mut self) -> Option<(u32, u32)>
        ensures some { IfSome result (λ k. Takes k self.old self.new) }
        ensures none { IfNone result ((k : ℕ × ℕ) → Waits self.old k → ⊥) }
        ensures idle { IfNone result ((k : ℕ × ℕ) → Waits self.new k → ⊥) }
    {
        loop {
            if let Some(place) = self.marks.take_first() {
                self.next = place + 1;
                return Some((self.level, place));
            }
            if !self.advance() {
                return None;
            }
        }
    }
}
