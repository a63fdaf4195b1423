// Machines: a graph that keeps its invariant, with an order of its vertices.
ghost use Rattle.std.specs.Prelude.{◌≡◌, ◌<◌, ◌≤◌, ◌^◌, length, slice_get, Some, None, IfErr, IfOk, IsTrue, OnOk, ◌↔◌};
ghost use Rattle.cs_graph.specs.Invariant.{IsMachine};
ghost use Rattle.cs_graph.specs.Order.{IsOrder, no_lags};
ghost use Rattle.cs_graph.specs.Kinds.{is_pinned};
ghost use Rattle.cs_graph.specs.Faults.{TellsLimit};
ghost use Rattle.cs_graph.specs.Lags.{weight_under, AreWithin, IsLegal};
ghost use Rattle.cs_graph.specs.OtherContents.{FitsEdges, weight_fault, with_contents};
ghost use Rattle.cs_graph.specs.Period.{AreDelaysOf, ArePinsOf, IsPeriod};
ghost use Rattle.cs_base.specs.declared.contexts.Mode.TheVariants.{Any};
ghost use Rattle.cs_graph.specs.declared.edge.Edge.{Edge as EdgeValue};
ghost use Rattle.cs_graph.specs.declared.vertex.Vertex.{Vertex as VertexValue};

use crate::builder::MOST_WEIGHT;
use crate::contents::{Contents, are_wires_kept};
use crate::delays::Delays;
use crate::edge::Edge;
use crate::error::BuildError;
use crate::graph::Graph;
use crate::lags::{are_legal_lags, are_weights, weight_of};
use crate::memory::Memory;
use crate::order::{OrderError, order_under};
use crate::period::period_along;
use crate::vertex::{Vertex, VertexKind};
use cs_base::{Counted, EdgeId, LimitFault, MemId, Mode, Sequence, VertexId};
use std::alloc::{AllocError, Global};
use std::marker::Model;

/// A machine: vertices, edges and memories that keep what `keeps` says, and an order of the vertices.
#[derive(Drop)]
pub struct Machine {
    graph: Graph,
    order: Sequence<VertexId>,
}

impl Model for Machine {
    ghost use Rattle.cs_graph.specs.declared.graph.Graph.{Graph};
    ghost use Rattle.cs_graph.specs.Invariant.{IsMachine};
    ghost use Rattle.cs_graph.specs.Order.{IsOrder, no_lags};

    ghost Value = { Graph };

    ghost view = { λ m. m.graph };

    ghost invariant = { λ m. IsMachine m.graph × IsOrder m.graph no_lags m.order };
}

impl Machine {
    /// A machine of these parts; it takes no memory.
    pub(crate) fn from_parts(graph: Graph, order: Sequence<VertexId>) -> Machine
        requires graph { IsMachine graph }
        requires order { IsOrder graph no_lags order }
        ensures { result ≡ graph }
    {
        Machine { graph, order }
    }

    /// What every machine keeps.
    pub fn keeps(&self)
        ensures { IsMachine self.now }
    {
        let _ = &self.graph;
    }

    pub(crate) fn graph(&self) -> &Graph
        ensures { result.now ≡ self.now }
    {
        &self.graph
    }

    /// How many vertices there are, the Host included; at most 4,096.
    pub fn vertex_count(&self) -> u32
        ensures { result ≡ length self.now.vertices }
    {
        self.graph.vertices.len() as u32
    }

    /// The vertex of this id.
    pub fn vertex(&self, v: VertexId) -> &Vertex
        requires { v < length self.now.vertices }
        ensures { slice_get self.now.vertices v ≡ Some result.now }
    {
        &self.graph.vertices.as_slice()[v.get() as usize]
    }

    /// How many edges there are; at most 32,768.
    pub fn edge_count(&self) -> u32
        ensures { result ≡ length self.now.edges }
    {
        self.graph.edges.len() as u32
    }

    /// The edge of this id.
    pub fn edge(&self, e: EdgeId) -> &Edge
        requires { e < length self.now.edges }
        ensures { slice_get self.now.edges e ≡ Some result.now }
    {
        &self.graph.edges.as_slice()[e.get() as usize]
    }

    /// How many memories there are.
    pub fn memory_count(&self) -> u32
        ensures { result ≡ length self.now.memories }
    {
        self.graph.memories.len() as u32
    }

    /// The memory of this id.
    pub fn memory(&self, i: MemId) -> &Memory
        requires { i < length self.now.memories }
        ensures { slice_get self.now.memories i ≡ Some result.now }
    {
        &self.graph.memories.as_slice()[i.get() as usize]
    }

    /// The vertices, each once, each after all that feed it by an edge of weight 0.
    pub fn order(&self) -> &[VertexId]
        ensures { IsOrder self.now no_lags result.now }
    {
        self.order.as_slice()
    }

    /// Whether no lag moves the vertex: true for every kind but a gate.
    pub fn is_pinned(&self, v: VertexId) -> bool
        requires { v < length self.now.vertices }
        ensures { (x : VertexValue) → slice_get self.now.vertices v ≡ Some x → result ≡ is_pinned x.kind }
    {
        !matches!(self.vertex(v).kind, VertexKind::Gate(_))
    }

    /// The weight of an edge under these lags, one for each vertex: `w(e) + r(to) - r(from)`.
    pub fn weight_under(&self, e: EdgeId, lags: &[i64]) -> i64
        requires edge { e < length self.now.edges }
        requires count { length lags.now ≡ length self.now.vertices }
        requires reach { AreWithin (2 ^ 31) lags.now }
        ensures { (d : EdgeValue) → slice_get self.now.edges e ≡ Some d → result ≡ weight_under lags.now d }
    {
        weight_of(self.edge(e), lags)
    }

    /// Whether these lags, one for each vertex, are legal: pinned vertices have lag 0, no weight is negative
    /// and, in mode `Forward`, no lag is above 0. It takes no memory.
    pub fn is_legal(&self, mode: Mode, lags: &[i64]) -> bool
        requires count { length lags.now ≡ length self.now.vertices }
        requires reach { AreWithin (2 ^ 31) lags.now }
        ensures { IsTrue result ↔ IsLegal self.now mode lags.now }
    {
        let graph = &self.graph;
        are_legal_lags(graph.vertices.as_slice(), mode, lags)
            && are_weights(graph.edges.as_slice(), lags)
    }

    /// The period under legal lags: the greatest delay of a path without a register, a path counting the delay
    /// of its first vertex and those of the pins that it comes in by.
    pub fn period_under(
        &self,
        alloc: Global,
        lags: &[i64],
        delays: &Delays,
    ) -> Result<u64, AllocError>
        requires legal { IsLegal self.now Any lags.now }
        requires reach { AreWithin (2 ^ 31) lags.now }
        requires delays { AreDelaysOf self.now delays.now }
        ensures { IfOk result (λ period. IsPeriod self.now delays.now lags.now period) }
    {
        let graph = &self.graph;
        match order_under(alloc, graph, lags) {
            Ok(order) => period_along(alloc, graph, lags, delays, order.as_slice()),
            Err(OrderError::Loop(_)) => unreachable!(),
            Err(OrderError::NoMemory) => Err(AllocError),
        }
    }

    /// Whether there are contents for each edge, and none for just those without a register. It takes no memory.
    pub fn fits(&self, contents: &Contents) -> bool
        ensures { IsTrue result ↔ FitsEdges self.now contents.now }
    {
        let edges = self.graph.edges.as_slice();
        let lists = contents.of.as_slice();
        lists.len() == edges.len() && are_wires_kept(edges, lists)
    }

    /// The same vertices, edges and memories, with these contents in place of its own, and a register for each of
    /// them: the edges without a register, and they alone, get none. `Limit` comes exactly for more registers than a
    /// machine may have, and tells how many there would be.
    pub fn with_contents(&self, alloc: Global, contents: Contents) -> Result<Machine, BuildError>
        requires { FitsEdges self.now contents }
        ensures ok { IfOk result (λ machine. machine ≡ with_contents contents self.now) }
        ensures within { OnOk result (weight_fault contents ≡ None) }
        ensures cause { IfErr result (TellsLimit (weight_fault contents)) }
    {
        let registers = contents.register_count();
        if registers > MOST_WEIGHT {
            return Err(BuildError::Limit(LimitFault {
                what: Counted::Weight,
                found: registers,
                most: MOST_WEIGHT,
            }));
        }
        let graph = self.graph.with_contents(alloc, contents)?;
        let order = Vec::from_slice(alloc, self.order.as_slice())?;
        Ok(Machine::from_parts(graph, Sequence::from_vec(order)))
    }

    /// Whether there is one delay for each vertex and for each pin. It takes no memory.
    pub fn has_delays(&self, delays: &Delays) -> bool
        ensures { IsTrue result ↔ AreDelaysOf self.now delays.now }
    {
        let vertices = self.graph.vertices.as_slice();
        delays.per_vertex.len() == vertices.len() && are_delays_of(vertices, delays)
    }
}

/// Whether there is one delay for each pin.
fn are_delays_of(vertices: &[Vertex], delays: &Delays) -> bool
    requires count { length delays.now.per_vertex ≡ length vertices.now }
    requires few { length vertices.now ≤ 4096 }
    ensures { IsTrue result ↔ ArePinsOf vertices.now delays.now.per_pin }
{
    for v in 0..vertices.len() {
        let pins = delays.of_pins(VertexId::new(v as u32));
        let vertex = &vertices[v];
        if pins.len() != vertex.pins.len() {
            return false;
        }
    }
    true
}

fn crosses_threads<T: Send + Sync>(_: &T) {}

// Machines and their delays go from thread to thread.
fn machines_cross_threads(machine: &Machine, delays: &Delays) {
    crosses_threads(machine);
    crosses_threads(delays);
}
