// The machine that a builder makes.
ghost use Rattle.std.specs.Prelude.{◌≡◌, ◌^◌, ◌<◌, ℕ, List, Some, None, is_none, length, slice_get, IfErr, IfNone, IfOk, IfSome, OnOk};
ghost use Rattle.std.specs.List.{position_from};
ghost use Rattle.cs_graph.specs.Draft.{AreFed, IsFirstOpen};
ghost use Rattle.cs_graph.specs.declared.source.OpenVertex.{OpenVertex as OpenVertexValue};

use crate::source::{OpenVertex, Source};
use cs_base::VertexId;

/// The first pin that isn't fed.
fn first_open_pin(sources: &[Option<Source>]) -> Option<usize>
    ensures { result ≡ position_from is_none 0 sources.now }
{
    sources.iter().position(|source| source.is_none())
}

/// The first pin of all vertices that isn't fed.
pub(crate) fn first_open(vertices: &[OpenVertex]) -> Option<(VertexId, u32)>
    requires few { length vertices.now < 2 ^ 32 }
    requires pins { (v : ℕ) (x : OpenVertexValue) → slice_get vertices.now v ≡ Some x → length x.pins < 2 ^ 32 }
    ensures some { IfSome result (λ place. IsFirstOpen vertices.now place.0 place.1) }
    ensures none { IfNone result (AreFed vertices.now) }
{
    for v in 0..vertices.len() {
        if let Some(pin) = first_open_pin(vertices[v].pins.as_slice()) {
            return Some((VertexId::new(v as u32), pin as u32));
        }
    }
    None
}
