// Vertices whose pins aren't followed back through registers yet.
ghost use Rattle.std.specs.Prelude.{◌≡◌, ◌<◌, ◌^◌, ◌∷◌, [], length, IfOk, OnOk};
ghost use Rattle.cs_lower.specs.Taps.{no_parts, piece, with_pieces, with_wire};

use cs_base::{BitId, Sequence, Signal, Text};
use cs_graph::VertexKind;
use std::alloc::{AllocError, Global};
use std::mem::size_of_val;

/// What a pin is connected to.
#[derive(Clone, Copy, Debug, PartialEq, Eq)]
pub enum Tap {
    /// A signal of the netlist.
    Signal(Signal),
    /// An output of the vertex of a number.
    Vertex { vertex: usize, output: usize },
    /// A bit.
    Constant(bool),
    /// The register that drives this bit.
    Register(BitId),
    /// A register with this start that takes output 0 of the vertex of a number.
    Held { vertex: usize, start: bool },
}

/// A vertex; its origin is the name of the gate cell that it is, and empty for every other vertex.
#[derive(Drop)]
pub struct Piece {
    pub kind: VertexKind,
    pub pins: Sequence<Tap>,
    pub origin: Text,
}

impl Piece {
    /// A vertex that is no gate cell; it takes no memory.
    pub(crate) fn new(alloc: Global, kind: VertexKind, pins: Sequence<Tap>) -> Self
        ensures { result ≡ piece kind pins }
    {
        Piece {
            kind,
            pins,
            origin: Text::from_string(String::new(alloc)),
        }
    }
}

/// What drives a bit: nothing, an output of a vertex, or a register that takes what this is.
#[derive(Clone, Copy, Debug, PartialEq, Eq)]
pub enum Wire {
    Undriven,
    Vertex { vertex: usize, output: usize },
    Register(Tap),
}

/// Where a pin leads: an output of a vertex, or a bit that stands for good.
#[derive(Clone, Copy, Debug, PartialEq, Eq)]
pub enum End {
    Vertex { vertex: usize, output: usize },
    Constant(bool),
}

/// The vertices of a part of a netlist, and the signals that it drives.
#[derive(Drop)]
pub struct Parts {
    pub pieces: Sequence<Piece>,
    pub wires: Sequence<(Signal, Wire)>,
}

impl Parts {
    /// No parts; it takes no memory.
    pub(crate) fn new(alloc: Global) -> Self
        ensures { result ≡ no_parts }
    {
        Parts {
            pieces: Sequence::new(alloc),
            wires: Sequence::new(alloc),
        }
    }

    /// There are few vertices, since a vertex takes more than one byte.
    pub(crate) fn keeps(&self)
        ensures { length self.now.pieces < 2 ^ 63 }
    {
        let _bytes = size_of_val(self.pieces.as_slice());
    }

    /// Puts a vertex behind the others, and tells its number.
    pub(crate) fn push(&mut self, piece: Piece) -> Result<usize, AllocError>
        ensures pushed { OnOk result (self.new ≡ with_pieces self.old (piece ∷ [])) }
        ensures number { IfOk result (λ vertex. vertex ≡ length self.old.pieces) }
    {
        let vertex = self.pieces.len();
        self.pieces.push(piece)?;
        Ok(vertex)
    }

    /// Says what drives a signal.
    pub(crate) fn drive(&mut self, signal: Signal, wire: Wire) -> Result<(), AllocError>
        ensures { OnOk result (self.new ≡ with_wire self.old signal wire) }
    {
        self.wires.push((signal, wire))
    }
}
