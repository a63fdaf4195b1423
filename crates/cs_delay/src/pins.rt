// The delay of a pin of a type.
ghost use Rattle.std.specs.Prelude.{◌≡◌, bytes_eq, find, option_map};
ghost use Rattle.cs_delay.specs.Assigned.{delay_of, own_delay};

use crate::entry::{DelayEntry, PinDelay, PinDelays};
use crate::table::DelayTable;

fn pin_delay(pins: &[PinDelay], name: &str) -> Option<u32>
    ensures { result ≡ option_map (λ p. p.delay) (find (λ p. bytes_eq p.pin name.now) pins.now) }
{
    pins.iter()
        .find(|pin| pin.pin.as_str() == name)
        .map(|pin| pin.delay)
}

fn own_delay(delays: &PinDelays, pin: &str) -> Option<u32>
    ensures { result ≡ own_delay pin.now delays.now }
{
    match delays {
        PinDelays::One(delay) => Some(*delay),
        PinDelays::Pins(pins) => pin_delay(pins.as_slice(), pin),
    }
}

fn named_type<'a>(entries: &'a [DelayEntry], kind: &str) -> Option<&'a DelayEntry>
    ensures { option_map (λ e. e.now) result ≡ find (λ e. bytes_eq e.kind kind.now) entries.now }
{
    entries.iter().find(|entry| entry.kind.as_str() == kind)
}

/// The type's own delay of the pin, or else the fallback.
pub(crate) fn delay_of(table: &DelayTable, kind: &str, pin: &str) -> Option<u32>
    ensures { result ≡ delay_of table.now kind.now pin.now }
{
    match named_type(table.entries.as_slice(), kind) {
        Some(entry) => match own_delay(&entry.delay, pin) {
            Some(delay) => Some(delay),
            None => table.fallback,
        },
        None => table.fallback,
    }
}
