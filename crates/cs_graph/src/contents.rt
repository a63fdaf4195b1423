// Contents of all edges of a machine.
ghost use Rattle.std.specs.Prelude.{◌≡◌, ◌-◌, ◌<◌, ◌^◌, ◌↔◌, ℕ, [], IfOk, IsTrue, Some, get_or, length, min, slice_get};
ghost use Rattle.std.specs.List.{sum_by};
ghost use Rattle.cs_graph.specs.OtherContents.{IsWireKept, edge_with, edges_with, register_count};
ghost use Rattle.cs_graph.specs.declared.edge.Edge.{Edge as EdgeValue};

use crate::edge::Edge;
use cs_base::Sequence;
use std::alloc::{AllocError, Global};

/// Contents for each edge, in order of edges, nearest the driver first.
#[derive(Debug, Drop)]
pub struct Contents {
    pub of: Sequence<Sequence<bool>>,
}

impl Contents {
    /// How many registers hold them; 2^64 - 1 where there are more.
    pub(crate) fn register_count(&self) -> u64
        ensures { result ≡ min (register_count self.now) (2 ^ 64 - 1) }
    {
        let mut count = 0u64;
        for contents in self.of.as_slice() {
            count = count.saturating_add(contents.len() as u64);
        }
        count
    }
}

/// Whether there are contents just where the edge has a register.
fn is_wire_kept(edge: &Edge, contents: &Sequence<bool>) -> bool
    ensures { IsTrue result ↔ IsWireKept edge.now contents.now }
{
    if edge.weight == 0 {
        contents.len() == 0
    } else {
        contents.len() != 0
    }
}

/// Whether just the edges without a register have no contents.
pub(crate) fn are_wires_kept(edges: &[Edge], lists: &[Sequence<bool>]) -> bool
    requires { length lists.now ≡ length edges.now }
    ensures { IsTrue result ↔ ((e : ℕ) (d : EdgeValue) → slice_get edges.now e ≡ Some d
        → IsWireKept d (get_or lists.now e [])) }
{
    for e in 0..edges.len() {
        if !is_wire_kept(&edges[e], &lists[e]) {
            return false;
        }
    }
    true
}

/// An edge with these contents, and a register for each.
fn edge_with(edge: &Edge, contents: Sequence<bool>) -> Edge
    requires { length contents < 2 ^ 32 }
    ensures { result ≡ edge_with edge.now contents }
{
    Edge {
        from: edge.from,
        output: edge.output,
        to: edge.to,
        pin: edge.pin,
        weight: contents.len() as u32,
        contents,
    }
}

/// Each edge with the contents of its place.
pub(crate) fn edges_with(
    alloc: Global,
    edges: &[Edge],
    contents: Contents,
) -> Result<Sequence<Edge>, AllocError>
    requires count { length contents.of ≡ length edges.now }
    requires few { register_count contents < 2 ^ 32 }
    ensures { IfOk result (λ made. made ≡ edges_with edges.now contents.of) }
{
    let mut made = Sequence::new(alloc);
    for contents in contents.of.into_vec() {
        let edge = &edges[made.len()];
        made.push(edge_with(edge, contents))?;
    }
    Ok(made)
}
