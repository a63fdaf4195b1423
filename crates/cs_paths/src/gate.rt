// Gates: what is told of the work of threads as it goes.
use cs_base::VertexId;

/// Is told which work begins. Its calls return; nothing else is promised of them.
pub trait RowGate: Sync {
    /// A piece of rows is about to be computed, and this is its first.
    fn at_row(&self, row: VertexId);

    /// The work of this context is about to begin.
    fn at_context(&self, context: u32);
}

/// A gate that does nothing.
#[derive(Clone, Copy, Debug)]
pub struct NoGate;

impl RowGate for NoGate {
    fn at_row(&self, _row: VertexId) {}

    fn at_context(&self, _context: u32) {}
}
