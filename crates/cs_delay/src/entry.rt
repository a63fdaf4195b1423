// What a delay table says of one type of cell.
use cs_base::{Sequence, Text};

/// The delays of a type of cell.
#[derive(Debug, Drop)]
pub struct DelayEntry {
    pub kind: Text,
    pub delay: PinDelays,
}

/// The delay of every pin, or of each pin that is named.
#[derive(Debug, Drop)]
pub enum PinDelays {
    One(u32),
    Pins(Sequence<PinDelay>),
}

/// The delay of a pin; `RD_ADDR` of `$mem_v2` stands for every address pin.
#[derive(Debug, Drop)]
pub struct PinDelay {
    pub pin: Text,
    pub delay: u32,
}
