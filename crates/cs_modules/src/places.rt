// The first place of each bit among signals.
ghost use Rattle.std.specs.Prelude.{◌≡◌, ◌<◌, ℕ, length, nat_eq, IfOk, IfSome, OnOk, Some, None, if◌then◌else◌};
ghost use Rattle.std.specs.Option.{option_or};
ghost use Rattle.std.specs.HashMap.{get};
ghost use Rattle.cs_modules.specs.Signals.{is_bit};
ghost use Rattle.cs_modules.specs.Places.{place_of};

use cs_base::{BitId, Signal};
use std::alloc::{AllocError, Global};
use std::collections::HashMap;
use std::marker::Model;

/// Notes a value for a bit, unless the bit has one or the signal is no bit.
pub fn note<V: Drop>(
    firsts: &mut HashMap<u32, V>,
    signal: Signal,
    value: V,
) -> Result<(), AllocError>
    ensures { OnOk result ((b : ℕ) → get nat_eq firsts.new b
        ≡ option_or (get nat_eq firsts.old b) (if is_bit b signal then Some value else None)) }
{
    if let Signal::Bit(bit) = signal {
        if !firsts.contains_key(&bit.get()) {
            firsts.insert(bit.get(), value)?;
        }
    }
    Ok(())
}

fn firsts_among(alloc: Global, signals: &[Signal]) -> Result<HashMap<u32, usize>, AllocError>
    ensures { IfOk result (λ firsts. (b : ℕ) → get nat_eq firsts b ≡ place_of b signals.now) }
{
    let mut firsts = HashMap::new(alloc);
    for (place, signal) in signals.iter().enumerate() {
        note(&mut firsts, *signal, place)?;
    }
    Ok(firsts)
}

/// Signals in which a bit's first place is found at once; contracts see the list of the signals.
#[derive(Drop)]
pub struct Places {
    signals: Vec<Signal>,
    firsts: HashMap<u32, usize>,
}

impl Model for Places {
    ghost use Rattle.std.specs.Prelude.{◌≡◌, ℕ, List, nat_eq};
    ghost use Rattle.std.specs.HashMap.{get};
    ghost use Rattle.cs_base.specs.declared.signal.Signal.{Signal};
    ghost use Rattle.cs_modules.specs.Places.{place_of};

    ghost Value = { List Signal };

    ghost view = { λ p. p.signals.items };

    ghost invariant = { λ p. (b : ℕ) → get nat_eq p.firsts b ≡ place_of b p.signals.items };
}

impl Places {
    /// The places among these signals. It errs only where memory runs out.
    pub fn among(alloc: Global, signals: Vec<Signal>) -> Result<Self, AllocError>
        ensures { IfOk result (λ places. places ≡ signals.items) }
    {
        let firsts = firsts_among(alloc, signals.as_slice())?;
        Ok(Places { signals, firsts })
    }

    pub fn len(&self) -> usize
        ensures { result ≡ length self.now }
    {
        self.signals.len()
    }

    /// The first place of a bit, and None where it is nowhere.
    pub fn place(&self, bit: BitId) -> Option<usize>
        ensures first { result ≡ place_of bit self.now }
        ensures within { IfSome result (λ place. place < length self.now) }
    {
        self.firsts.get(&bit.get()).copied()
    }
}
