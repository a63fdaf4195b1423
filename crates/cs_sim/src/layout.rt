// Where the values of a netlist stand, and how they come about in each clock.
use crate::room::Room;
use cs_base::{Sequence, Signal};
use cs_cells::{FfKind, Kind};

/// How the values of a part come about.
#[derive(Drop)]
pub(crate) enum Work {
    /// The data inputs: the row.
    Inputs,
    /// A register: what it holds, by its place among the registers.
    Register {
        place: usize,
    },
    /// A clocked read: what its data bits hold, by its place among the clocked ports.
    ClockedRead {
        place: usize,
    },
    /// A gate: its equation over the slots of its pins.
    Gate {
        kind: Kind,
        pins: Sequence<usize>,
    },
    /// An unclocked read: the word of a memory at the address in these slots.
    Read {
        memory: usize,
        address: Sequence<usize>,
        width: usize,
    },
}

/// A part of a netlist that drives some bits: the slot of the first of them, and how their values come about.
#[derive(Drop)]
pub(crate) struct Part {
    pub(crate) first: usize,
    pub(crate) work: Work,
}

/// A register: its output, its start, and the slots of its pins.
#[derive(Drop)]
pub(crate) struct RegisterSlots {
    pub(crate) kind: FfKind,
    pub(crate) output: Signal,
    pub(crate) start: bool,
    pub(crate) source: usize,
    pub(crate) enable: usize,
    pub(crate) reset: usize,
}

/// A data bit of a clocked read: its output and its start.
#[derive(Clone, Copy)]
pub(crate) struct ReadBit {
    pub(crate) kind: FfKind,
    pub(crate) output: Signal,
    pub(crate) start: bool,
}

/// A clocked read port: its memory, its data bits, and the slots of its pins.
#[derive(Drop)]
pub(crate) struct ReadPortSlots {
    pub(crate) memory: usize,
    pub(crate) address: Sequence<usize>,
    pub(crate) enable: usize,
    pub(crate) reset: usize,
    pub(crate) bits: Sequence<ReadBit>,
}

/// The slots of a write port.
#[derive(Drop)]
pub(crate) struct WriteSlots {
    pub(crate) address: Sequence<usize>,
    pub(crate) word: Sequence<usize>,
    pub(crate) enable: Sequence<usize>,
}

/// All parts in the order of the netlist's elements, the registers, the clocked read ports, the write ports of each
/// memory, and the slots.
#[derive(Drop)]
pub(crate) struct Layout {
    pub(crate) parts: Sequence<Part>,
    pub(crate) registers: Sequence<RegisterSlots>,
    pub(crate) read_ports: Sequence<ReadPortSlots>,
    pub(crate) writes: Sequence<Sequence<WriteSlots>>,
    pub(crate) slots: Room,
}
