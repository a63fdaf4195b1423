// Paths, edge by edge.
ghost use Rattle.std.specs.Prelude.{◌≡◌, ◌+◌, ◌*◌, ◌≤◌, ◌^◌, ◌↔◌, ℕ, Some, IfSome, IfNone, length, slice_get};
ghost use Rattle.cs_graph.specs.Period.{IsPath, edges_delay, path_weight, pin_delay, vertex_delay};
ghost use Rattle.cs_graph.specs.declared.edge.Edge.{Edge as EdgeValue};

use cs_base::{EdgeId, VertexId};
use cs_graph::{Delays, Edge, Machine};

/// Where a path ends, its registers, and the delays of the pins that it comes in by.
#[derive(Clone, Copy)]
pub(crate) struct PathEnd {
    pub(crate) vertex: VertexId,
    pub(crate) weight: u128,
    pub(crate) delay: u128,
}

/// The edge of this number, if it begins at the vertex.
fn edge_from(machine: &Machine, e: EdgeId, from: VertexId) -> Option<&Edge>
    ensures found { IfSome result (λ d. (slice_get machine.now.edges e ≡ Some d.now) × (d.now.from ≡ from)) }
    ensures none { IfNone result ((d : EdgeValue) → slice_get machine.now.edges e ≡ Some d → d.from ≡ from → ⊥) }
{
    if !e.is_below(machine.edge_count()) {
        return None;
    }
    let edge = machine.edge(e);
    if edge.from.get() == from.get() {
        Some(edge)
    } else {
        None
    }
}

/// The delay of a vertex.
pub(crate) fn delay_of_vertex(delays: &Delays, v: VertexId) -> u32
    ensures { result ≡ vertex_delay delays.now v }
{
    let delays = delays.per_vertex.as_slice();
    delays.get(v.get() as usize).copied().unwrap_or(0)
}

/// The delay of a pin of a vertex.
fn delay_of_pin(delays: &Delays, v: VertexId, pin: u32) -> u32
    ensures { result ≡ pin_delay delays.now v pin }
{
    match delays.per_pin.as_slice().get(v.get() as usize) {
        Some(pins) => pins.as_slice().get(pin as usize).copied().unwrap_or(0),
        None => 0,
    }
}

/// Where the edges end that lead on from a vertex, each beginning where the one before it ended, and None exactly where
/// they don't.
pub(crate) fn path_end(
    machine: &Machine,
    delays: &Delays,
    from: VertexId,
    edges: &[EdgeId],
) -> Option<PathEnd>
    ensures leads { IfSome result (λ end. (v : ℕ) → IsPath machine.now from edges.now v ↔ (end.vertex ≡ v)) }
    ensures weight { IfSome result (λ end. end.weight ≡ path_weight machine.now edges.now) }
    ensures delay { IfSome result (λ end. end.delay ≡ edges_delay machine.now delays.now edges.now) }
    ensures few { IfSome result (λ end. end.weight + end.delay ≤ length edges.now * 2 ^ 33) }
    ensures none { IfNone result ((v : ℕ) → IsPath machine.now from edges.now v → ⊥) }
{
    let mut end = PathEnd {
        vertex: from,
        weight: 0,
        delay: 0,
    };
    for e in edges {
        let edge = edge_from(machine, *e, end.vertex)?;
        end = PathEnd {
            vertex: edge.to,
            weight: end.weight + u128::from(edge.weight),
            delay: end.delay + u128::from(delay_of_pin(delays, edge.to, edge.pin)),
        };
    }
    Some(end)
}
