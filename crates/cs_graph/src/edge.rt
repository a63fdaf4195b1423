// Edges and their registers.
use cs_base::{Sequence, VertexId};

/// An edge from an output of a vertex to a pin of a vertex, with `weight` registers in series.
#[derive(Debug, Drop)]
pub struct Edge {
    pub from: VertexId,
    pub output: u32,
    pub to: VertexId,
    pub pin: u32,
    pub weight: u32,
    /// What the driver is taken to have had at the clocks -1, -2 and on: the starts of the registers, nearest
    /// the driver first.
    pub contents: Sequence<bool>,
}
