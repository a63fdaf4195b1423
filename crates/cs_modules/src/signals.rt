// Signals: the bits among them, and their numbers.
ghost use Rattle.std.specs.Prelude.{◌≡◌, ℕ, ◌==◌, IfOk, filter_map, nat_eq};
ghost use Rattle.std.specs.List.{list_any};
ghost use Rattle.indexmap.specs.IndexSet.{contains};
ghost use Rattle.cs_modules.specs.Signals.{number_in, is_input, is_bit, is_output};

use cs_base::Signal;
use cs_json::Direction;
use indexmap::IndexSet;
use std::alloc::{AllocError, Global};

/// The number of a bit.
pub fn number_in(signal: Signal) -> Option<u32>
    ensures { result ≡ number_in signal }
{
    match signal {
        Signal::Bit(bit) => Some(bit.get()),
        Signal::Zero => None,
        Signal::One => None,
        Signal::Unknown => None,
        Signal::HighZ => None,
    }
}

/// The numbers of the bits among some signals.
pub fn numbers_in(alloc: Global, signals: &[Signal]) -> Result<Vec<u32>, AllocError>
    ensures { IfOk result (λ numbers. numbers.items ≡ filter_map number_in signals.now) }
{
    signals
        .iter()
        .filter_map(|signal| number_in(*signal))
        .collect(alloc)
}

/// The set of some numbers.
pub fn number_set(alloc: Global, numbers: &[u32]) -> Result<IndexSet<u32>, AllocError>
    ensures { IfOk result (λ set. (b : ℕ) → contains nat_eq set b ≡ list_any (λ a. a == b) numbers.now) }
{
    let mut set = IndexSet::new(alloc);
    for number in numbers {
        set.insert(*number)?;
    }
    Ok(set)
}

/// Whether a signal is this bit.
pub fn is_bit(bit: u32, signal: Signal) -> bool
    ensures { result ≡ is_bit bit signal }
{
    match signal {
        Signal::Bit(found) => found.get() == bit,
        Signal::Zero => false,
        Signal::One => false,
        Signal::Unknown => false,
        Signal::HighZ => false,
    }
}

/// Whether one of the signals is this bit.
pub fn holds_bit(bit: u32, signals: &[Signal]) -> bool
    ensures { result ≡ list_any (is_bit bit) signals.now }
{
    signals.iter().any(|signal| is_bit(bit, *signal))
}

/// Whether a port is an input alone.
pub fn is_input(direction: Direction) -> bool
    ensures { result ≡ is_input direction }
{
    matches!(direction, Direction::Input)
}

/// Whether a port is an output alone.
pub fn is_output(direction: Direction) -> bool
    ensures { result ≡ is_output direction }
{
    matches!(direction, Direction::Output)
}
