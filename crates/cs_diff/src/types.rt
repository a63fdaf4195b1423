//! What the calls of this crate answer.
use cs_base::Sequence;

/// The least value of each vertex over all solutions with the root at 0, None where there is no
/// least, and the places of constraints that show each least value in turn, from the root on.
#[derive(Debug, Drop)]
pub struct Floors {
    pub least: Sequence<Option<i64>>,
    pub steps: Sequence<u32>,
}
