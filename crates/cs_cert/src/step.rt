// Steps between vertices.
use cs_base::{EdgeId, Sequence, VertexId};

/// A step from a vertex to a vertex, which bounds their lags: the lag of the one less that of the other is at most what
/// the step costs.
#[derive(Drop)]
pub enum Step {
    /// Along an edge. It costs the edge's weight.
    EdgeStep {
        edge: EdgeId,
    },
    /// Along the edges from a vertex, which have a greater delay than the bound. It costs the sum of their weights
    /// less one.
    PathStep {
        from: VertexId,
        edges: Sequence<EdgeId>,
    },
    /// To a vertex that no lag moves, from such a vertex, or from any where registers move forward alone. It costs
    /// nothing.
    PinStep {
        from: VertexId,
        to: VertexId,
    },
}

/// Steps that lead from a vertex back to it.
#[derive(Drop)]
pub struct Cycle {
    pub steps: Sequence<Step>,
}
