// A circuit that is to be written.
use cs_base::{BitId, Sequence, Signal, Text};
use cs_cells::Kind;
use cs_json::PortDecl;
use cs_modules::Clock;

/// A gate: its number, the name of the cell that it came from, which may be empty, what its input pins read, and the bit
/// that it drives.
#[derive(Drop)]
pub struct GatePart {
    pub number: usize,
    pub origin: Text,
    pub kind: Kind,
    pub pins: Sequence<Signal>,
    pub output: BitId,
}

/// A register without reset and enable: what it has at D, and its start.
#[derive(Clone, Copy)]
pub struct RegisterPart {
    pub source: Signal,
    pub start: bool,
}

/// An unclocked read port: its address, least first, and the first of the bits that its data drive, which are numbered
/// one after the other.
#[derive(Drop)]
pub struct ReadPart {
    pub address: Sequence<Signal>,
    pub first: BitId,
}

/// A clocked write port; each list is least first.
#[derive(Drop)]
pub struct WritePart {
    pub address: Sequence<Signal>,
    pub data: Sequence<Signal>,
    pub enable: Sequence<Signal>,
}

/// A memory of so many words of a width in bits, with so many address bits. It starts with `start`, bit j of word i at
/// place i times the width and j. Higher write ports win.
#[derive(Drop)]
pub struct MemoryPart {
    pub words: u32,
    pub abits: u32,
    pub width: u32,
    pub start: Sequence<bool>,
    pub reads: Sequence<ReadPart>,
    pub writes: Sequence<WritePart>,
}

/// A module's name and ports, its clock, its gates in order of their numbers, its memories and its registers.
///
/// Register n drives the bit `first_register` + n. Where `keeps_clock` is true there is a further register behind them,
/// which nothing reads, so that the clock stays a clock.
#[derive(Drop)]
pub struct Circuit {
    pub name: Text,
    pub ports: Sequence<PortDecl>,
    pub clock: Option<Clock>,
    pub gates: Sequence<GatePart>,
    pub memories: Sequence<MemoryPart>,
    pub registers: Sequence<RegisterPart>,
    pub first_register: usize,
    pub keeps_clock: bool,
}
