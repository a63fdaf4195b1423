// Values by their slots.
ghost use Rattle.std.specs.Prelude.{◌≡◌, ◌-◌, ◌^◌, ◌+◌, ◌<◌, false, get_or, length, min, slice_set};
ghost use Rattle.cs_sim.specs.Slots.{bits_from, number_at, slot_of, stored};

use cs_base::Signal;
use cs_modules::Places;

/// The slot of a signal among those that are driven.
pub(crate) fn slot_of(driven: &Places, signal: Signal) -> usize
    requires { length driven.now + 2 < 2 ^ 64 }
    ensures { result ≡ slot_of driven.now signal }
{
    match signal {
        Signal::One => 1,
        Signal::Bit(bit) => match driven.place(bit) {
            Some(place) => place + 2,
            None => 0,
        },
        Signal::Zero | Signal::Unknown | Signal::HighZ => 0,
    }
}

/// The value in a slot, 0 past the last one.
pub(crate) fn value(values: &[bool], slot: usize) -> bool
    ensures { result ≡ get_or values.now slot false }
{
    values.get(slot).copied().unwrap_or(false)
}

/// The number of an address whose bits stand in these slots, least first; 2^64 - 1 where it is greater.
pub(crate) fn number(values: &[bool], slots: &[usize]) -> usize
    ensures { result ≡ min (number_at values.now slots.now) (2 ^ 64 - 1) }
{
    let count = slots.len();
    let mut number = 0usize;
    for i in 0..count {
        let bit = usize::from(value(values, slots[count - 1 - i]));
        number = number.saturating_mul(2).saturating_add(bit);
    }
    number
}

/// Puts a value into a slot, if there is such a slot.
pub(crate) fn store(values: &mut [bool], slot: usize, value: bool)
    ensures { values.new ≡ slice_set values.old slot value }
{
    if slot < values.len() {
        values[slot] = value;
    }
}

/// Puts `width` bits from the place `from` on into the slots from `first` on.
pub(crate) fn store_bits(
    values: &mut [bool],
    first: usize,
    bits: &[bool],
    from: usize,
    width: usize,
)
    ensures { values.new ≡ stored values.old first (bits_from bits.now from width) }
{
    for p in 0..width {
        let bit = value(bits, from.saturating_add(p));
        store(values, first.saturating_add(p), bit);
    }
}
