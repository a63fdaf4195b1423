// States of a netlist, listed.
use cs_base::{BitId, Sequence, Text};
use cs_modules::Words;

/// What registers, clocked reads and memories hold between two clocks.
#[derive(Drop)]
pub struct Snapshot {
    pub bits: Sequence<BitValue>,
    pub memories: Sequence<MemoryWords>,
}

/// The value of a bit that a register or a clocked read drives.
#[derive(Clone, Copy)]
pub struct BitValue {
    pub bit: BitId,
    pub value: bool,
}

/// The words of the memory cell of a name, each least significant bit first.
#[derive(Drop)]
pub struct MemoryWords {
    pub name: Text,
    pub words: Words,
}
