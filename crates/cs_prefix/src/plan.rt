// Registers that are to be written.
use cs_base::{Sequence, VertexId};

/// An output of a vertex, which drives edges.
#[derive(Clone, Copy)]
pub struct DriverId {
    pub vertex: VertexId,
    pub output: u32,
}

/// A register that is to be written: its driver, the place of the register before it, which is none where it
/// reads the driver itself, and its start (initial value).
#[derive(Clone, Copy)]
pub struct Planned {
    pub driver: DriverId,
    pub behind: Option<usize>,
    pub start: bool,
}

/// The registers of edges, shared at the fan-out of each driver: edges of one driver have their first registers
/// in common as far as the starts of these agree, nearest the driver first. So a register is told by its driver
/// and the starts up to it, and no two registers by the same.
///
/// The registers are in order by driver, those nearer the driver first, and those at one distance by their starts.
/// For each edge stands the place of the last register that it passes, which is none where it passes none.
#[derive(Drop)]
pub struct Plan {
    pub registers: Sequence<Planned>,
    pub ends: Sequence<Option<usize>>,
}
