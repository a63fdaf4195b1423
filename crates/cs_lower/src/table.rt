// Values by the numbers of bits. Yosys numbers the bits of a module from 2 on, so nearly every bit has a place in a list,
// and a value is found without a hash.
ghost use Rattle.std.specs.Prelude.{◌≡◌, ℕ, IfOk, None, OnErr, OnOk, Some, cond, if◌then◌else◌, is_some, nat_eq};
ghost use Rattle.std.specs.Option.{option_or};
ghost use Rattle.cs_modules.specs.Signals.{is_bit};
ghost use Rattle.cs_lower.specs.Tables.{held};

use cs_base::Signal;
use std::alloc::{AllocError, Global};
use std::collections::HashMap;

const SPARE: usize = 64;

/// Values by the numbers of bits: those of low bits stand in a list, the others in a map.
#[derive(Drop)]
pub(crate) struct Table<V: Copy> {
    low: Vec<Option<V>>,
    others: HashMap<u32, V>,
}

impl<V: Copy> Table<V> {
    /// No bit has a value; those below `size` will stand in the list. It errs only where memory runs out.
    #[tactic(auto, unfolding(crate::specs::Tables::held))]
    pub fn new(alloc: Global, size: usize) -> Result<Self, AllocError>
        ensures { IfOk result (λ table. (b : ℕ) → held table b ≡ None) }
    {
        let low = vec![in alloc; None; size]?;
        Ok(Table {
            low,
            others: HashMap::new(alloc),
        })
    }

    /// How many bits have a place in the list.
    pub fn size(&self) -> usize {
        self.low.len()
    }

    /// The value of a bit.
    #[tactic(auto, unfolding(crate::specs::Tables::held))]
    pub fn get(&self, bit: u32) -> Option<V>
        ensures { result ≡ held self.now bit }
    {
        match self.low.as_slice().get(bit as usize) {
            Some(value) => *value,
            None => self.others.get(&bit).copied(),
        }
    }

    /// Whether a bit has a value.
    pub fn has(&self, bit: u32) -> bool
        ensures { result ≡ is_some (held self.now bit) }
    {
        self.get(bit).is_some()
    }

    /// Gives a bit a value. It errs only where memory runs out.
    #[tactic(auto, unfolding(crate::specs::Tables::held))]
    pub fn insert(&mut self, bit: u32, value: V) -> Result<(), AllocError>
        ensures ok { OnOk result ((b : ℕ) → held self.new b ≡ cond (nat_eq bit b) (Some value) (held self.old b)) }
        ensures err { OnErr result ((b : ℕ) → held self.new b ≡ held self.old b) }
    {
        if (bit as usize) < self.low.len() {
            self.low[bit as usize] = Some(value);
        } else {
            self.others.insert(bit, value)?;
        }
        Ok(())
    }

    /// Notes a value for a bit, unless the bit has one or the signal is no bit. It errs only where memory runs out.
    pub fn note(&mut self, signal: Signal, value: V) -> Result<(), AllocError>
        ensures { OnOk result ((b : ℕ) → held self.new b
            ≡ option_or (held self.old b) (if is_bit b signal then Some value else None)) }
    {
        if let Signal::Bit(bit) = signal {
            if !self.has(bit.get()) {
                self.insert(bit.get(), value)?;
            }
        }
        Ok(())
    }
}

/// The number of a signal's bit, if it is greater than this one.
pub(crate) fn greater(greatest: u32, signal: Signal) -> u32 {
    match signal {
        Signal::Bit(bit) => bit.get().max(greatest),
        Signal::Zero | Signal::One | Signal::Unknown | Signal::HighZ => greatest,
    }
}

/// A size for tables of so many bits up to the greatest: enough for all, but no more than twice as many and some.
pub(crate) fn table_size(count: usize, greatest: u32) -> usize {
    let enough = (greatest as usize).saturating_add(1);
    enough.min(count.saturating_mul(2).saturating_add(SPARE))
}
