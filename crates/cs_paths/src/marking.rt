// Sets of places, of which the first is found by its bit.
ghost use Rattle.std.specs.Prelude.{◌≡◌, ℕ, ◌<◌, IfNone, IfSome};
ghost use Rattle.cs_paths.specs.Marks.{AddsMark, IsLowest, IsMarked, TakesMark};

use std::marker::Model;

/// A set of places below 4,096: 64 words of 64 bits, and a number whose bits tell which of them aren't 0. Contracts
/// see the words.
#[derive(Drop)]
pub struct Marks {
    words: [u64; 64],
    filled: u64,
}

impl Model for Marks {
    ghost use Rattle.std.specs.Prelude.{ℕ, List};
    ghost use Rattle.cs_paths.specs.Marks.{AreFilled};

    ghost Value = { List ℕ };

    ghost view = { λ m. m.words };

    ghost invariant = { λ m. AreFilled m.words m.filled };
}

/// The lowest bit of a word that isn't 0.
fn lowest(word: u64) -> u32
    requires { 0 < word }
    ensures { IsLowest word result }
{
    word.trailing_zeros()
}

impl Marks {
    /// No place.
    pub(crate) fn new() -> Marks
        ensures { (p : ℕ) → IsMarked result p → ⊥ }
    {
        Marks {
            words: [0; 64],
            filled: 0,
        }
    }

    /// One place more.
    pub(crate) fn add(&mut self, place: u32)
        requires { place < 4096 }
        ensures { AddsMark place self.old self.new }
    {
        let block = place / 64;
        self.words[block as usize] |= 1 << (place % 64);
        self.filled |= 1 << block;
    }

    /// Takes the first place, if there is one.
    pub(crate) fn take_first(&mut self) -> Option<u32>
        ensures some { IfSome result (λ p. TakesMark p self.old self.new) }
        ensures same { IfNone result (self.new ≡ self.old) }
        ensures none { IfNone result ((p : ℕ) → IsMarked self.old p → ⊥) }
    {
        if self.filled == 0 {
            return None;
        }
        let block = lowest(self.filled);
        let word = self.words[block as usize];
        let bit = lowest(word);
        let rest = word & !(1 << bit);
        self.words[block as usize] = rest;
        if rest == 0 {
            self.filled &= !(1 << block);
        }
        Some(block * 64 + bit)
    }
}
