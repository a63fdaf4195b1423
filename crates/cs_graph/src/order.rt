// An order of the vertices in which each comes after all that it sees in the same clock: an order of the graph in
// which each depends on those that it reads without a register.
ghost use Rattle.std.specs.Prelude.{◌≡◌, ℕ, ◌<◌, ◌^◌, All, IfErr, IfNone, IfOk, IfSome, OnOk, Some, length, slice_get};
ghost use Rattle.cs_graph.specs.Lags.{AreWithin};
ghost use Rattle.cs_graph.specs.Order.{AreDependencies, IsAdded, IsDriver, IsOrder, IsWired, TellsLoop};
ghost use Rattle.cs_graph.specs.declared.vertex.Vertex.{Vertex as VertexValue};

use crate::graph::Graph;
use crate::lags::weight_of;
use crate::vertex::Feed;
use cs_base::{Sequence, VertexId};
use cs_order::{Arrangement, Dependencies, arrange};
use std::alloc::{AllocError, Global};

/// Why there is no order.
#[derive(Debug, Drop)]
pub enum OrderError {
    /// Each of these vertices, none twice, is fed by the next without a register, and the last one by the first.
    Loop(Sequence<VertexId>),
    /// Memory ran out.
    NoMemory,
}

impl From<AllocError> for OrderError {
    ghost use Rattle.std.specs.Prelude.{◌≡◌};
    ghost use Rattle.cs_graph.specs.declared.order.OrderError.TheVariants.{NoMemory};

    ghost from_gives = { λ _ r. r ≡ NoMemory };

    fn from(_: AllocError) -> Self {
        OrderError::NoMemory
    }
}

/// The vertex that a pin reads without a register, if there is one.
pub(crate) fn driver(graph: &Graph, lags: &[i64], v: VertexId, pin: usize) -> Option<VertexId>
    requires wired { IsWired graph.now }
    requires reach { AreWithin (2 ^ 31) lags.now }
    requires vertex { v < length graph.now.vertices }
    requires pin { (x : VertexValue) → slice_get graph.now.vertices v ≡ Some x → pin < length x.pins }
    ensures found { IfSome result (λ u. IsDriver graph.now lags.now v pin u) }
    ensures none { IfNone result ((u : ℕ) → IsDriver graph.now lags.now v pin u → ⊥) }
{
    let vertex = &graph.vertices.as_slice()[v.get() as usize];
    let Feed::Edge(e) = vertex.pins.as_slice()[pin] else {
        return None;
    };
    let edge = &graph.edges.as_slice()[e.get() as usize];
    if weight_of(edge, lags) == 0 {
        Some(edge.from)
    } else {
        None
    }
}

/// Adds a vertex that depends on those that `v` reads without a register.
fn add_vertex(
    dependencies: &mut Dependencies,
    graph: &Graph,
    lags: &[i64],
    v: VertexId,
) -> Result<(), AllocError>
    requires wired { IsWired graph.now }
    requires reach { AreWithin (2 ^ 31) lags.now }
    requires vertex { v < length graph.now.vertices }
    ensures { OnOk result (IsAdded graph.now lags.now v dependencies.old dependencies.new) }
{
    dependencies.push_vertex()?;
    let vertex = &graph.vertices.as_slice()[v.get() as usize];
    for pin in 0..vertex.pins.len() {
        if let Some(u) = driver(graph, lags, v, pin) {
            dependencies.push_source(u.get() as usize)?;
        }
    }
    Ok(())
}

/// The graph in which each vertex depends on those that it reads without a register.
fn dependencies_under(
    alloc: Global,
    graph: &Graph,
    lags: &[i64],
) -> Result<Dependencies, AllocError>
    requires wired { IsWired graph.now }
    requires reach { AreWithin (2 ^ 31) lags.now }
    requires few { length graph.now.vertices < 2 ^ 32 }
    ensures { IfOk result (AreDependencies graph.now lags.now (length graph.now.vertices)) }
{
    let mut dependencies = Dependencies::new(alloc);
    for v in 0..graph.vertices.len() as u32 {
        add_vertex(&mut dependencies, graph, lags, VertexId::new(v))?;
    }
    Ok(dependencies)
}

/// The vertices of these numbers.
fn vertices_of(alloc: Global, numbers: &[usize]) -> Result<Sequence<VertexId>, AllocError>
    requires { All (λ v. v < 2 ^ 32) numbers.now }
    ensures { IfOk result (λ vertices. vertices ≡ numbers.now) }
{
    let vertices = numbers
        .iter()
        .map(|v| VertexId::new(*v as u32))
        .collect(alloc)?;
    Ok(Sequence::from_vec(vertices))
}

/// The vertices, each once, each after all that feed it without a register under these lags.
pub(crate) fn order_under(
    alloc: Global,
    graph: &Graph,
    lags: &[i64],
) -> Result<Sequence<VertexId>, OrderError>
    requires wired { IsWired graph.now }
    requires reach { AreWithin (2 ^ 31) lags.now }
    requires few { length graph.now.vertices < 2 ^ 32 }
    ensures ok { IfOk result (λ order. IsOrder graph.now lags.now order) }
    ensures err { IfErr result (TellsLoop graph.now lags.now) }
{
    let dependencies = dependencies_under(alloc, graph, lags)?;
    match arrange(alloc, &dependencies)? {
        Arrangement::Order(order) => Ok(vertices_of(alloc, order.as_slice())?),
        Arrangement::Loop(vertices) => {
            Err(OrderError::Loop(vertices_of(alloc, vertices.as_slice())?))
        }
    }
}
