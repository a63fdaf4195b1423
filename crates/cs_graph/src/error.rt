// What building a machine can answer in place of its result.
use cs_base::{LimitFault, Sequence, VertexId};
use std::alloc::AllocError;

/// Why a vertex, an edge or a machine can't be made.
#[derive(Debug, Drop)]
pub enum BuildError {
    /// A count would be above its limit.
    Limit(LimitFault),
    /// This pin, the first of all, isn't fed.
    Open { vertex: VertexId, pin: u32 },
    /// Each of these vertices, none twice, is fed by the next by an edge of weight 0, and the last one by the first.
    Loop { vertices: Sequence<VertexId> },
    /// Memory ran out.
    NoMemory,
}

impl From<AllocError> for BuildError {
    ghost use Rattle.std.specs.Prelude.{◌≡◌};
    ghost use Rattle.cs_graph.specs.declared.error.BuildError.TheVariants.{NoMemory};

    ghost from_gives = { λ _ r. r ≡ NoMemory };

    fn from(_: AllocError) -> Self {
        BuildError::NoMemory
    }
}
