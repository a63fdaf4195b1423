// Lags and the weights that they give (Leiserson and Saxe, "Retiming synchronous circuitry").
ghost use Rattle.std.specs.Prelude.{◌≡◌, ◌^◌, ◌<◌, ◌≤ℤ◌, ◌↔◌, ℕ, pos, Some, IsTrue, length, slice_get};
ghost use Rattle.std.specs.Bool.{OnTrue, OnFalse};
ghost use Rattle.cs_base.specs.Ranges.{IsSmall};
ghost use Rattle.cs_graph.specs.Lags.{lag_at, weight_under, AreWithin, IsLegalLag};
ghost use Rattle.cs_graph.specs.declared.edge.Edge.{Edge as EdgeValue};
ghost use Rattle.cs_graph.specs.declared.vertex.Vertex.{Vertex as VertexValue};

use crate::edge::Edge;
use crate::vertex::{Vertex, VertexKind};
use cs_base::{Mode, VertexId};

/// The lag of a vertex; 0 past the end of the list.
fn lag_of(lags: &[i64], v: VertexId) -> i64
    ensures { result ≡ lag_at lags.now v }
{
    lags.get(v.get() as usize).copied().unwrap_or(0)
}

/// The weight of an edge under these lags: `w(e) + r(to) - r(from)`.
pub(crate) fn weight_of(edge: &Edge, lags: &[i64]) -> i64
    requires { AreWithin (2 ^ 31) lags.now }
    ensures { result ≡ weight_under lags.now edge.now }
{
    i64::from(edge.weight) + lag_of(lags, edge.to) - lag_of(lags, edge.from)
}

/// Whether a vertex may have its lag.
fn is_legal_lag(vertex: &Vertex, mode: Mode, lags: &[i64], v: VertexId) -> bool
    ensures { IsTrue result ↔ IsLegalLag mode vertex.now.kind (lag_at lags.now v) }
{
    let lag = lag_of(lags, v);
    let may_move = match vertex.kind {
        VertexKind::Gate(_) => true,
        _ => lag == 0,
    };
    let may_move_back = match mode {
        Mode::Any => true,
        Mode::Forward => lag <= 0,
    };
    may_move && may_move_back
}

/// Whether each vertex may have its lag.
pub(crate) fn are_legal_lags(vertices: &[Vertex], mode: Mode, lags: &[i64]) -> bool
    requires { length vertices.now < 2 ^ 32 }
    ensures { IsTrue result ↔ ((v : ℕ) (x : VertexValue) → slice_get vertices.now v ≡ Some x
        → IsLegalLag mode x.kind (lag_at lags.now v)) }
{
    for v in 0..vertices.len() {
        if !is_legal_lag(&vertices[v], mode, lags, VertexId::new(v as u32)) {
            return false;
        }
    }
    true
}

/// Whether no edge has a negative weight under these lags.
pub(crate) fn are_weights(edges: &[Edge], lags: &[i64]) -> bool
    requires { AreWithin (2 ^ 31) lags.now }
    ensures { IsTrue result ↔ ((e : ℕ) (d : EdgeValue) → slice_get edges.now e ≡ Some d
        → pos 0 ≤ℤ (weight_under lags.now d)) }
{
    for edge in edges {
        if weight_of(edge, lags) < 0 {
            return false;
        }
    }
    true
}

/// Whether the lag of this place is between -2^31 and 2^31.
fn is_small_lag(lags: &[i64], place: usize) -> bool
    requires { place < length lags.now }
    ensures yes { OnTrue result (IsSmall (lag_at lags.now place)) }
    ensures no { OnFalse result (IsSmall (lag_at lags.now place) → ⊥) }
{
    let lag = lags[place];
    -2_147_483_648 <= lag && lag <= 2_147_483_648
}

/// Whether each lag is between -2^31 and 2^31, as every call that takes lags wants it.
pub fn are_within(lags: &[i64]) -> bool
    ensures { IsTrue result ↔ AreWithin (2 ^ 31) lags.now }
{
    for place in 0..lags.len() {
        if !is_small_lag(lags, place) {
            return false;
        }
    }
    true
}
