// The bound of delays.
ghost use Rattle.std.specs.Prelude.{◌≡◌, find, option_map};
ghost use Rattle.std.specs.List.{list_any};
ghost use Rattle.cs_delay.specs.Tables.{has_too_large, is_too_large, too_large};

use crate::entry::{DelayEntry, PinDelay, PinDelays};

// The greatest delay that a table may hold.
const MOST: u32 = 1_000_000;

fn is_too_large(delay: u32) -> bool
    ensures { result ≡ is_too_large delay }
{
    MOST < delay
}

fn has_large_pin(pins: &[PinDelay]) -> bool
    ensures { result ≡ list_any (λ p. is_too_large p.delay) pins.now }
{
    pins.iter().any(|pin| is_too_large(pin.delay))
}

fn has_too_large(delays: &PinDelays) -> bool
    ensures { result ≡ has_too_large delays.now }
{
    match delays {
        PinDelays::One(delay) => is_too_large(*delay),
        PinDelays::Pins(pins) => has_large_pin(pins.as_slice()),
    }
}

fn first_too_large(entries: &[DelayEntry]) -> Option<&DelayEntry>
    ensures { option_map (λ e. e.now) result ≡ find (λ e. has_too_large e.delay) entries.now }
{
    entries.iter().find(|entry| has_too_large(&entry.delay))
}

/// The first type with a delay that is too large; the fallback comes first, as `default`.
pub(crate) fn too_large(fallback: Option<u32>, entries: &[DelayEntry]) -> Option<&str>
    ensures { option_map (λ kind. kind.now) result ≡ too_large fallback entries.now }
{
    match fallback {
        Some(delay) if is_too_large(delay) => Some("default"),
        _ => match first_too_large(entries) {
            Some(entry) => Some(entry.kind.as_str()),
            None => None,
        },
    }
}
