// Counted quantities and their limits.

/// A quantity that has a limit.
#[derive(Clone, Copy, Debug, PartialEq, Eq)]
pub enum Counted {
    Cells,
    AddressBits,
    MemoryBits,
    ReadBits,
    Vertices,
    Edges,
    Weight,
    Variables,
    Instances,
    Bits,
}

/// A count that is above its limit: `found` is the count, or 2^64 - 1 where it is greater.
#[derive(Clone, Copy, Debug, PartialEq, Eq)]
pub struct LimitFault {
    pub what: Counted,
    pub found: u64,
    pub most: u64,
}
