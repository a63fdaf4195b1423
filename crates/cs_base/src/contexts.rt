// How many hardware threads there are, and how registers may move.
ghost use Rattle.std.specs.Prelude.{◌≡◌, ℕ, ◌≤◌, ◌^◌};
ghost use Rattle.std.specs.Option.{SomeIff};

use std::marker::Model;

/// The number of contexts, the interleaved hardware threads: 1 to 16.
#[derive(Clone, Copy, Debug, PartialEq, Eq)]
pub struct Contexts {
    count: u32,
}

impl Model for Contexts {
    ghost use Rattle.std.specs.Prelude.{ℕ, ◌≤◌};

    ghost Value = { ℕ };

    ghost view = { λ c. c.count };

    ghost invariant = { λ c. (1 ≤ c.count) × (c.count ≤ 16) };

    ghost inverse = { λ n. record { count = n } };
}

impl Contexts {
    /// That many contexts, and None exactly outside 1 to 16.
    pub fn new(n: u64) -> Option<Contexts>
        ensures { SomeIff result ((1 ≤ n) × (n ≤ 16)) n }
    {
        if 1 <= n && n <= 16 {
            Some(Contexts { count: n as u32 })
        } else {
            None
        }
    }

    /// How many there are.
    pub fn get(self) -> u32
        ensures value { result ≡ self }
        ensures some { 1 ≤ self }
        ensures few { self ≤ 16 }
    {
        self.count
    }

    /// How many bits number a context: the least `b` with `2^b` at least the number of contexts.
    pub fn bits(self) -> u32
        ensures enough { self ≤ 2 ^ result }
        ensures least { (b : ℕ) → self ≤ 2 ^ b → result ≤ b }
    {
        match self.count {
            1 => 0,
            2 => 1,
            3..=4 => 2,
            5..=8 => 3,
            _ => 4,
        }
    }
}

/// Which lags a retiming may have: any, or none above 0, so that registers move forward alone.
#[derive(Clone, Copy, Debug, PartialEq, Eq)]
pub enum Mode {
    Any,
    Forward,
}
