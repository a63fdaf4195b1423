// Vertices and what their pins read.
ghost use Rattle.std.specs.Prelude.{◌≡◌, [], ◌∷◌, ◌++◌, length, IfOk, OnOk, OnErr, IsTrue, ◌↔◌};

use cs_base::{EdgeId, MemId};
use cs_cells::Kind;
use smallvec::SmallVec;
use std::alloc::{AllocError, Global};
use std::default::Default;
use std::marker::Model;

/// What a vertex is. A port of a memory is numbered among those of its kind.
#[derive(Clone, Copy, Debug, PartialEq, Eq)]
pub enum VertexKind {
    /// The outside.
    Host,
    /// An input bit.
    Input,
    /// An output bit.
    Output,
    /// A constant bit.
    Constant(bool),
    /// A gate.
    Gate(Kind),
    /// An unclocked read port.
    Read { memory: MemId, port: u32 },
    /// A write port.
    Write { memory: MemId, port: u32 },
}

/// What a pin reads: a bit that is tied, or what an edge carries.
#[derive(Clone, Copy, Debug, PartialEq, Eq)]
pub enum Feed {
    Tied(bool),
    Edge(EdgeId),
}

impl Default for Feed {
    fn default() -> Self {
        Feed::Tied(false)
    }
}

/// The pins of a vertex; up to four of them lie in the vertex itself. Contracts see a list.
#[derive(Drop)]
pub struct Pins {
    feeds: SmallVec<Feed, 4>,
}

impl Model for Pins {
    ghost use Rattle.std.specs.Prelude.{List};
    ghost use Rattle.cs_graph.specs.declared.vertex.Feed.{Feed};

    ghost Value = { List Feed };

    ghost view = { λ p. p.feeds.items };
}

impl Pins {
    /// No pins; it takes no memory.
    pub fn new(alloc: Global) -> Self
        ensures { result ≡ [] }
    {
        Pins {
            feeds: SmallVec::new(alloc),
        }
    }

    /// How many pins there are.
    pub fn len(&self) -> usize
        ensures { result ≡ length self.now }
    {
        self.feeds.len()
    }

    /// Whether there are none.
    pub fn is_empty(&self) -> bool
        ensures { IsTrue result ↔ (self.now ≡ []) }
    {
        self.feeds.is_empty()
    }

    /// The pins in order.
    pub fn as_slice(&self) -> &[Feed]
        ensures { result.now ≡ self.now }
    {
        self.feeds.as_slice()
    }

    /// Another list of the same pins.
    pub(crate) fn copy(&self, alloc: Global) -> Result<Self, AllocError>
        ensures { IfOk result (λ pins. pins ≡ self.now) }
    {
        let feeds = SmallVec::from_slice(alloc, self.feeds.as_slice())?;
        Ok(Pins { feeds })
    }

    /// Puts a pin behind the others; a refusal leaves them unchanged.
    pub(crate) fn push(&mut self, feed: Feed) -> Result<(), AllocError>
        ensures ok { OnOk result (self.new ≡ self.old ++ feed ∷ []) }
        ensures err { OnErr result (self.new ≡ self.old) }
    {
        self.feeds.push(feed)?;
        Ok(())
    }
}

/// A vertex: its kind, and what each of its pins reads.
#[derive(Drop)]
pub struct Vertex {
    pub kind: VertexKind,
    pub pins: Pins,
}

impl Vertex {
    /// Another vertex of the same kind and pins.
    pub(crate) fn copy(&self, alloc: Global) -> Result<Self, AllocError>
        ensures { IfOk result (λ vertex. vertex ≡ self.now) }
    {
        let pins = self.pins.copy(alloc)?;
        Ok(Vertex {
            kind: self.kind,
            pins,
        })
    }
}
