// The builder of machines: memories, vertices, ties and edges in any order.
ghost use Rattle.std.specs.Prelude.{◌≡◌, ◌≢◌, ℕ, List, ◌<◌, ◌≤◌, ◌+◌, ◌*◌, ◌^◌, ◌++◌, [], ◌∷◌, None, length, replicate, IfOk, IfErr, IsTrue, ◌↔◌, OnErr, OnOk};
ghost use Rattle.std.specs.List.{sum_by};
ghost use Rattle.cs_graph.specs.Draft.{host_alone, IsDraft, open_kinds, IsOpen, with_source, vertex_fault, edge_fault, edge_count, weight, built, AreFed};
ghost use Rattle.cs_graph.specs.Faults.{TellsLimit, TellsUnfinished};
ghost use Rattle.cs_graph.specs.Order.{IsLoop, no_lags};
ghost use Rattle.cs_graph.specs.Invariant.{IsMemory, HasMemory, IsNextPort, HasOutput};
ghost use Rattle.cs_graph.specs.Kinds.{pin_count, output_count, read_width};
ghost use Rattle.cs_graph.specs.declared.vertex.VertexKind.TheVariants.{Host};
ghost use Rattle.cs_graph.specs.declared.source.Source.TheVariants.{Tied as TiedTo, Driven};

use crate::error::BuildError;
use crate::finish::first_open;
use crate::machine::Machine;
use crate::memory::Memory;
use crate::numbering::number;
use crate::order::{OrderError, order_under};
use crate::source::{Driver, OpenPins, OpenVertex, Source};
use crate::vertex::VertexKind;
use cs_base::{Counted, LimitFault, MemId, Sequence, VertexId};
use std::alloc::{AllocError, Global};
use std::marker::Model;

/// The most vertices that a machine has.
pub const MOST_VERTICES: usize = 4096;

/// The most edges that a machine has.
pub const MOST_EDGES: u32 = 32_768;

/// The most registers that a machine has, over all edges.
pub const MOST_WEIGHT: u64 = 65_536;

/// Memories and vertices, whose pins are tied or fed one by one.
#[derive(Drop)]
pub struct MachineBuilder {
    vertices: Vec<OpenVertex>,
    memories: Sequence<Memory>,
    edges: u32,
    registers: u32,
}

impl Model for MachineBuilder {
    ghost use Rattle.std.specs.Prelude.{◌≡◌};
    ghost use Rattle.cs_graph.specs.Draft.{Draft, IsDraft, edge_count, weight};

    ghost Value = { Draft };

    ghost view = { λ b. record { vertices = b.vertices.items; memories = b.memories } };

    ghost invariant = { λ b. IsDraft (record { vertices = b.vertices.items; memories = b.memories })
        × (b.edges ≡ edge_count b.vertices.items) × (b.registers ≡ weight b.vertices.items) };
}

/// How many pins a vertex of this kind has.
fn pins_of(memories: &[Memory], kind: &VertexKind) -> usize
    requires { HasMemory memories.now kind.now }
    ensures { result ≡ pin_count memories.now kind.now }
{
    match *kind {
        VertexKind::Host | VertexKind::Input | VertexKind::Constant(_) => 0,
        VertexKind::Output => 1,
        VertexKind::Gate(gate) => gate.pin_count(),
        VertexKind::Read { memory, .. } => memories[memory.get() as usize].abits as usize,
        VertexKind::Write { memory, .. } => {
            let memory = &memories[memory.get() as usize];
            memory.abits as usize + 2 * memory.width as usize
        }
    }
}

impl MachineBuilder {
    /// The Host alone.
    pub fn new(alloc: Global) -> Result<MachineBuilder, AllocError>
        ensures { IfOk result (λ b. b ≡ host_alone) }
    {
        let mut vertices = Vec::new(alloc);
        let pins = OpenPins::new(alloc, 0)?;
        vertices.push(OpenVertex {
            kind: VertexKind::Host,
            pins,
        })?;
        Ok(MachineBuilder {
            vertices,
            memories: Sequence::new(alloc),
            edges: 0,
            registers: 0,
        })
    }

    /// Takes a memory, which gets the next id. A refusal leaves the builder unchanged.
    pub fn add_memory(&mut self, memory: Memory) -> Result<MemId, BuildError>
        requires sizes { IsMemory memory }
        requires few { length self.old.memories + 1 < 2 ^ 32 }
        ensures id { IfOk result (λ id. id ≡ length self.old.memories) }
        ensures ok { OnOk result (self.new ≡ record self.old { memories = self.old.memories ++ memory ∷ [] }) }
        ensures err { OnErr result (self.new ≡ self.old) }
        ensures cause { IfErr result (TellsLimit None) }
    {
        let id = MemId::new(self.memories.len() as u32);
        self.memories.push(memory)?;
        Ok(id)
    }

    /// Takes a vertex whose pins are open, which gets the next id. A Read or Write takes the next port of its
    /// memory. `Limit` comes exactly for a vertex past the limit; a refusal leaves the builder unchanged.
    pub fn add_vertex(&mut self, alloc: Global, kind: VertexKind) -> Result<VertexId, BuildError>
        requires no_host { kind ≢ Host }
        requires memory { HasMemory self.old.memories kind }
        requires port { IsNextPort (open_kinds self.old.vertices) kind }
        requires reads { sum_by (read_width self.old.memories) (open_kinds self.old.vertices)
            + read_width self.old.memories kind ≤ 4194304 }
        ensures id { IfOk result (λ id. id ≡ length self.old.vertices) }
        ensures ok { OnOk result (self.new ≡ record self.old {
          vertices = self.old.vertices
              ++ record { kind = kind; pins = replicate (pin_count self.old.memories kind) None } ∷ [];
        }) }
        ensures within { OnOk result (vertex_fault self.old.vertices ≡ None) }
        ensures err { OnErr result (self.new ≡ self.old) }
        ensures cause { IfErr result (TellsLimit (vertex_fault self.old.vertices)) }
    {
        let count = self.vertices.len();
        if count >= MOST_VERTICES {
            return Err(BuildError::Limit(LimitFault {
                what: Counted::Vertices,
                found: count as u64 + 1,
                most: MOST_VERTICES as u64,
            }));
        }
        let vertex = open_vertex(alloc, self.memories.as_slice(), kind)?;
        push_vertex(&mut self.vertices, vertex)?;
        Ok(VertexId::new(count as u32))
    }

    /// Ties an open pin to a bit. It takes no memory.
    pub fn tie(&mut self, v: VertexId, pin: u32, value: bool)
        requires { IsOpen self.old.vertices v pin }
        ensures { self.new ≡ record self.old { vertices = with_source self.old.vertices v pin (TiedTo value) } }
    {
        set_source(&mut self.vertices, v, pin, Source::Tied(value));
    }

    /// Feeds an open pin from an output, through as many registers as there are contents, nearest the driver
    /// first. `Limit` comes exactly for an edge past the limit, or else for registers past theirs; a refusal
    /// leaves the builder unchanged.
    pub fn feed(
        &mut self,
        v: VertexId,
        pin: u32,
        from: VertexId,
        output: u32,
        contents: Sequence<bool>,
    ) -> Result<(), BuildError>
        requires pin { IsOpen self.old.vertices v pin }
        requires output { HasOutput self.old.memories (open_kinds self.old.vertices) from output }
        ensures ok { OnOk result (self.new ≡ record self.old {
          vertices = with_source self.old.vertices v pin (Driven (record { from = from; output = output; contents = contents }));
        }) }
        ensures within { OnOk result (edge_fault self.old.vertices (length contents) ≡ None) }
        ensures err { OnErr result (self.new ≡ self.old) }
        ensures cause { IfErr result (TellsLimit (edge_fault self.old.vertices (length contents))) }
    {
        if self.edges >= MOST_EDGES {
            return Err(BuildError::Limit(LimitFault {
                what: Counted::Edges,
                found: u64::from(self.edges) + 1,
                most: u64::from(MOST_EDGES),
            }));
        }
        let registers = u64::from(self.registers) + contents.len() as u64;
        if registers > MOST_WEIGHT {
            return Err(BuildError::Limit(LimitFault {
                what: Counted::Weight,
                found: registers,
                most: MOST_WEIGHT,
            }));
        }
        let driver = Driver {
            from,
            output,
            contents,
        };
        set_source(&mut self.vertices, v, pin, Source::Driven(driver));
        self.edges += 1;
        self.registers = registers as u32;
        Ok(())
    }

    /// What every builder keeps.
    pub fn keeps(&self)
        ensures { IsDraft self.now }
    {
        let _ = &self.vertices;
    }

    /// Whether the pin exists and isn't fed.
    pub fn is_open(&self, v: VertexId, pin: u32) -> bool
        ensures { IsTrue result ↔ IsOpen self.now.vertices v pin }
    {
        let Some(vertex) = self.vertices.get(v.get() as usize) else {
            return false;
        };
        match vertex.pins.as_slice().get(pin as usize) {
            Some(source) => source.is_none(),
            None => false,
        }
    }

    /// Whether the vertex has an output of this number.
    pub fn has_output(&self, v: VertexId, output: u32) -> bool
        ensures { IsTrue result ↔ HasOutput self.now.memories (open_kinds self.now.vertices) v output }
    {
        let Some(vertex) = self.vertices.get(v.get() as usize) else {
            return false;
        };
        output < outputs_of(self.memories.as_slice(), &vertex.kind)
    }

    /// The machine of exactly what was given, its edges numbered by vertex, then by pin. `Open` comes exactly
    /// where a pin isn't fed, and names the first; `Loop` exactly where every pin is fed and edges of weight 0
    /// form a loop, and is such a loop, with no vertex twice. The builder is spent.
    pub fn finish(self, alloc: Global) -> Result<Machine, BuildError>
        ensures ok { IfOk result (λ machine. machine ≡ built self) }
        ensures fed { OnOk result (AreFed self.vertices) }
        ensures no_loop { OnOk result ((vertices : List ℕ) → IsLoop (built self) no_lags vertices → ⊥) }
        ensures cause { IfErr result (TellsUnfinished self) }
    {
        let MachineBuilder {
            vertices,
            memories,
            ..
        } = self;
        if let Some((vertex, pin)) = first_open(vertices.as_slice()) {
            return Err(BuildError::Open { vertex, pin });
        }
        let graph = number(alloc, vertices, memories)?;
        match order_under(alloc, &graph, &[]) {
            Ok(order) => Ok(Machine::from_parts(graph, order)),
            Err(OrderError::Loop(vertices)) => Err(BuildError::Loop { vertices }),
            Err(OrderError::NoMemory) => Err(BuildError::NoMemory),
        }
    }
}

/// How many outputs a vertex of this kind has.
fn outputs_of(memories: &[Memory], kind: &VertexKind) -> u32
    ensures { result ≡ output_count memories.now kind.now }
{
    match *kind {
        VertexKind::Host | VertexKind::Output | VertexKind::Write { .. } => 0,
        VertexKind::Input | VertexKind::Constant(_) | VertexKind::Gate(_) => 1,
        VertexKind::Read { memory, .. } => match memories.get(memory.get() as usize) {
            Some(memory) => memory.width,
            None => 0,
        },
    }
}

/// A vertex whose pins are open.
fn open_vertex(
    alloc: Global,
    memories: &[Memory],
    kind: VertexKind,
) -> Result<OpenVertex, AllocError>
    requires { HasMemory memories.now kind }
    ensures { IfOk result (λ x. x ≡ record { kind = kind; pins = replicate (pin_count memories.now kind) None }) }
{
    let pins = OpenPins::new(alloc, pins_of(memories, &kind))?;
    Ok(OpenVertex { kind, pins })
}

/// Puts a vertex behind the others; a refusal leaves them unchanged.
fn push_vertex(vertices: &mut Vec<OpenVertex>, vertex: OpenVertex) -> Result<(), AllocError>
    ensures ok { OnOk result (vertices.new.items ≡ vertices.old.items ++ vertex ∷ []) }
    ensures err { OnErr result (vertices.new.items ≡ vertices.old.items) }
{
    vertices.push(vertex)?;
    Ok(())
}

/// Gives an open pin its source.
fn set_source(vertices: &mut Vec<OpenVertex>, v: VertexId, pin: u32, source: Source)
    requires { IsOpen vertices.old.items v pin }
    ensures { vertices.new.items ≡ with_source vertices.old.items v pin source }
{
    vertices[v.get() as usize].pins.set(pin, source);
}
