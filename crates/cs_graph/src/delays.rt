// Delays of vertices and of their pins.
ghost use Rattle.std.specs.Prelude.{◌≡◌, ◌<◌, Some, length, slice_get};
ghost use Rattle.cs_graph.specs.DelayBounds.{AreVertexDelays, ArePinDelays};

use cs_base::{Sequence, VertexId};

/// The delay of each vertex, and of each pin of each vertex: a path that begins at a vertex counts the vertex's,
/// one that comes in by a pin the pin's. A vertex's delay is at most 1,000,000, a pin's at most its vertex's.
#[derive(Debug, Drop)]
pub struct Delays {
    pub per_vertex: Sequence<u32>,
    pub per_pin: Sequence<Sequence<u32>>,
    pub ghost lists: { length per_pin ≡ length per_vertex },
    pub ghost vertices: { AreVertexDelays per_vertex },
    pub ghost pins: { ArePinDelays per_vertex per_pin },
}

impl Delays {
    /// The delay of a vertex.
    pub fn of_vertex(&self, v: VertexId) -> u32
        requires { v < length self.now.per_vertex }
        ensures { slice_get self.now.per_vertex v ≡ Some result }
    {
        self.per_vertex.as_slice()[v.get() as usize]
    }

    /// The delays of the pins of a vertex.
    pub fn of_pins(&self, v: VertexId) -> &[u32]
        requires { v < length self.now.per_pin }
        ensures { slice_get self.now.per_pin v ≡ Some result.now }
    {
        let pins = &self.per_pin.as_slice()[v.get() as usize];
        pins.as_slice()
    }
}
