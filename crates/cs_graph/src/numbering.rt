// Numbering of edges: by vertex, then by pin.
ghost use Rattle.std.specs.Prelude.{◌≡◌, ℕ, Some, slice_get, ◌+◌, ◌<◌, ◌≤◌, ◌^◌, ◌++◌, All, IfOk, OnOk, length};
ghost use Rattle.std.specs.List.{sum_by};
ghost use Rattle.cs_graph.specs.Draft.{driven, registers, edge_count, weight, edge_into, edges_into, feed_of, feeds_from, built};
ghost use Rattle.cs_graph.specs.declared.source.OpenVertex.{OpenVertex as OpenVertexValue};

use crate::edge::Edge;
use crate::graph::Graph;
use crate::memory::Memory;
use crate::source::{OpenVertex, Source};
use crate::vertex::{Feed, Pins, Vertex};
use cs_base::{EdgeId, Sequence, VertexId};
use std::alloc::{AllocError, Global};

/// What a pin reads; the edge to it is put behind the others.
fn feed_pin(
    source: Option<Source>,
    to: VertexId,
    pin: u32,
    edges: &mut Sequence<Edge>,
) -> Result<Feed, AllocError>
    requires few { length edges.old < 2 ^ 32 }
    requires short { registers source < 2 ^ 32 }
    ensures feed { IfOk result (λ feed. feed ≡ feed_of (length edges.old) source) }
    ensures edges { OnOk result (edges.new ≡ edges.old ++ edge_into to pin source) }
{
    match source {
        None => Ok(Feed::Tied(false)),
        Some(Source::Tied(value)) => Ok(Feed::Tied(value)),
        Some(Source::Driven(driver)) => {
            let id = EdgeId::new(edges.len() as u32);
            edges.push(Edge {
                from: driver.from,
                output: driver.output,
                to,
                pin,
                weight: driver.contents.len() as u32,
                contents: driver.contents,
            })?;
            Ok(Feed::Edge(id))
        }
    }
}

/// What the pins of a vertex read; the edges to them are put behind the others.
fn feed_pins(
    alloc: Global,
    to: VertexId,
    sources: Vec<Option<Source>>,
    edges: &mut Sequence<Edge>,
) -> Result<Pins, AllocError>
    requires pins { length sources.items < 2 ^ 32 }
    requires few { length edges.old + sum_by driven sources.items < 2 ^ 32 }
    requires short { sum_by registers sources.items < 2 ^ 32 }
    ensures pins { IfOk result (λ pins. pins ≡ feeds_from (length edges.old) sources.items) }
    ensures edges { OnOk result (edges.new ≡ edges.old ++ edges_into to 0 sources.items) }
{
    let mut pins = Pins::new(alloc);
    for source in sources {
        let pin = pins.len() as u32;
        pins.push(feed_pin(source, to, pin, edges)?)?;
    }
    Ok(pins)
}

/// The graph of these vertices and memories, its edges numbered by vertex, then by pin.
pub(crate) fn number(
    alloc: Global,
    vertices: Vec<OpenVertex>,
    memories: Sequence<Memory>,
) -> Result<Graph, AllocError>
    requires vertices { length vertices.items < 2 ^ 32 }
    requires pins { (v : ℕ) (x : OpenVertexValue) → slice_get vertices.items v ≡ Some x → length x.pins < 2 ^ 32 }
    requires edges { edge_count vertices.items < 2 ^ 32 }
    requires registers { weight vertices.items < 2 ^ 32 }
    ensures { IfOk result (λ graph. graph ≡ built (record { vertices = vertices.items; memories = memories })) }
{
    let mut edges = Sequence::new(alloc);
    let mut numbered = Sequence::new(alloc);
    for vertex in vertices {
        let id = VertexId::new(numbered.len() as u32);
        let sources = vertex.pins.into_vec();
        let pins = feed_pins(alloc, id, sources, &mut edges)?;
        let kind = vertex.kind;
        numbered.push(Vertex { kind, pins })?;
    }
    Ok(Graph {
        vertices: numbered,
        edges,
        memories,
    })
}
