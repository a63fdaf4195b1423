// What a bit list of a netlist holds at one place.
use crate::id::BitId;

/// A bit, or one of the constants `0`, `1`, `x` and `z` (Yosys JSON).
#[derive(Clone, Copy, Debug, PartialEq, Eq)]
pub enum Signal {
    Zero,
    One,
    Unknown,
    HighZ,
    Bit(BitId),
}
