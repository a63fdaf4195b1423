// The shape of a memory cell (Yosys `$mem_v2`, in this project's profile).
use cs_base::Sequence;

/// A memory's sizes and ports. It has as many words as the lesser of `size` and `2^abits`.
#[derive(Debug, Drop)]
pub struct MemShape {
    pub size: u32,
    /// How many bits an address has.
    pub abits: u32,
    /// How many bits a word has.
    pub width: u32,
    pub reads: Sequence<ReadShape>,
    /// How many write ports there are.
    pub writes: u32,
}

/// A read port. The lists have a bit for each data bit, and count where the port is clocked.
#[derive(Debug, Drop)]
pub struct ReadShape {
    pub clocked: bool,
    pub enable_over_reset: bool,
    pub reset_value: Sequence<bool>,
    pub start: Sequence<bool>,
}
