// What the pins of a netlist's vertices read.
ghost use Rattle.std.specs.Prelude.{◌≡◌, ◌++◌, ◌∷◌, ◌<◌, ◌^◌, [], IfOk, OnOk, Some, length, map};
ghost use Rattle.std.specs.List.{AllByRecursion, list_any};
ghost use Rattle.cs_graph.specs.declared.source.Source.TheVariants.{Driven};
ghost use Rattle.cs_graph.specs.declared.vertex.VertexKind.TheVariants.{Constant};
ghost use Rattle.cs_lower.specs.Lowered.{constant_number, constant_source, constants, is_used, needs_constant, pieces_of, source_by, source_of, trail_of, vertex_of};
ghost use Rattle.cs_lower.specs.Sizes.{HasIds};
ghost use Rattle.cs_lower.specs.Taps.{piece};

use crate::reaches::Reach;
use crate::taps::{End, Piece, Tap};
use crate::trails::Trails;
use cs_base::{Sequence, Text, VertexId};
use cs_graph::{Driver, OpenPins, OpenVertex, Source, VertexKind};
use std::alloc::{AllocError, Global};
use std::marker::Model;

// ---- constants behind registers

// Whether a pin reads this constant through a register.
fn needs_constant(trails: &Trails, tap: Tap, value: bool) -> bool
    ensures { result ≡ needs_constant value (trail_of trails.now tap) }
{
    let reach = trails.reach(tap);
    match reach.end {
        End::Vertex { .. } => false,
        End::Constant(bit) => reach.registers != 0 && if bit { value } else { !value },
    }
}

// Whether one of these pins does.
fn some_needs(trails: &Trails, pins: &[Tap], value: bool) -> bool
    ensures { result ≡ list_any (λ t. needs_constant value (trail_of trails.now t)) pins.now }
{
    for tap in pins {
        if needs_constant(trails, *tap, value) {
            return true;
        }
    }
    false
}

// Whether a pin of these vertices does.
fn is_used(trails: &Trails, pieces: &[Piece], value: bool) -> bool
    requires { pieces.now ≡ pieces_of trails.now }
    ensures { result ≡ is_used trails.now value }
{
    for piece in pieces {
        if some_needs(trails, piece.pins.as_slice(), value) {
            return true;
        }
    }
    false
}

// ---- the plan

/// A netlist with the constants that its registers read; contracts see the netlist.
#[derive(Drop)]
pub(crate) struct Plan<'a> {
    trails: Trails<'a>,
    first_constant: usize,
    uses_zero: bool,
    uses_one: bool,
}

impl<'a> Model for Plan<'a> {
    ghost use Rattle.std.specs.Prelude.{◌≡◌, false, length, true};
    ghost use Rattle.cs_net.specs.Netlist.{Net};
    ghost use Rattle.cs_lower.specs.Lowered.{is_used, pieces_of};

    ghost Value = { Net };

    ghost view = { λ p. p.trails };

    ghost invariant = { λ p. (p.first_constant ≡ length (pieces_of p.trails)) × (p.uses_zero ≡ is_used p.trails false)
        × (p.uses_one ≡ is_used p.trails true) };
}

// An output of a vertex through registers with these starts.
fn driven(vertex: usize, output: usize, contents: Sequence<bool>) -> Source
    requires vertex { vertex < 2 ^ 32 }
    requires output { output < 2 ^ 32 }
    ensures { result ≡ Driven (record { from = vertex; output = output; contents = contents }) }
{
    Source::Driven(Driver {
        from: VertexId::new(vertex as u32),
        output: output as u32,
        contents,
    })
}

impl<'a> Plan<'a> {
    /// The plan of a netlist whose ports, cells and ring buffers these are; it takes no memory.
    pub fn of(trails: Trails<'a>, pieces: &[Piece]) -> Self
        requires { pieces.now ≡ pieces_of trails }
        ensures { result ≡ trails.entry }
    {
        let uses_zero = is_used(&trails, pieces, false);
        let uses_one = is_used(&trails, pieces, true);
        Plan {
            trails,
            first_constant: pieces.len(),
            uses_zero,
            uses_one,
        }
    }

    /// Puts the Constant vertices behind the others.
    pub fn push_constants(
        &self,
        alloc: Global,
        pieces: &mut Sequence<Piece>,
    ) -> Result<(), AllocError>
        ensures { OnOk result (pieces.new ≡ pieces.old ++ constants self.now) }
    {
        if self.uses_zero {
            push_constant(alloc, pieces, false)?;
        }
        if self.uses_one {
            push_constant(alloc, pieces, true)?;
        }
        Ok(())
    }

    /// How far a pin reaches.
    pub fn reach(&self, tap: Tap) -> Reach
        ensures registers { result.registers ≡ length (trail_of self.now tap).contents }
        ensures end { result.end ≡ (trail_of self.now tap).end }
    {
        self.trails.reach(tap)
    }

    // The number of the Constant vertex of a bit.
    fn constant_number(&self, value: bool) -> usize
        requires { constant_number self.now value < 2 ^ 64 }
        ensures { result ≡ constant_number self.now value }
    {
        if value && self.uses_zero {
            self.first_constant + 1
        } else {
            self.first_constant
        }
    }

    // What a pin reads that passes registers with these starts to a bit that stands for good.
    fn constant_source(&self, bit: bool, contents: Sequence<bool>) -> Source
        requires { HasIds (constant_source self.now bit contents) }
        ensures { result ≡ constant_source self.now bit contents }
    {
        if contents.len() == 0 {
            Source::Tied(bit)
        } else {
            driven(self.constant_number(bit), 0, contents)
        }
    }

    // What a pin reads that passes registers with these starts to this end.
    fn source_by(&self, end: End, contents: Sequence<bool>) -> Source
        requires { HasIds (source_by self.now contents end) }
        ensures { result ≡ source_by self.now contents end }
    {
        match end {
            End::Vertex { vertex, output } => driven(vertex, output, contents),
            End::Constant(bit) => self.constant_source(bit, contents),
        }
    }

    // The starts of the registers that a pin passes.
    fn contents(&self, alloc: Global, tap: Tap) -> Result<Sequence<bool>, AllocError>
        ensures { IfOk result (λ contents. contents ≡ (trail_of self.now tap).contents) }
    {
        self.trails.contents(alloc, tap)
    }

    // What a pin reads.
    fn source(&self, alloc: Global, tap: &Tap) -> Result<Source, AllocError>
        requires { HasIds (source_of self.now tap.now) }
        ensures { IfOk result (λ source. source ≡ source_of self.now tap.now) }
    {
        let contents = self.contents(alloc, *tap)?;
        Ok(self.source_by(self.reach(*tap).end, contents))
    }

    // What the pins of a vertex read.
    fn pins(&self, alloc: Global, taps: &[Tap]) -> Result<OpenPins, AllocError>
        requires { AllByRecursion (λ t. HasIds (source_of self.now t)) taps.now }
        ensures { IfOk result (λ pins. pins ≡ map (λ t. Some (source_of self.now t)) taps.now) }
    {
        let mut sources = Vec::new(alloc);
        for tap in taps {
            sources.push(Some(self.source(alloc, tap)?))?;
        }
        Ok(OpenPins::from_vec(sources))
    }

    // Puts a vertex and its origin behind the others.
    fn push_vertex(
        &self,
        alloc: Global,
        made: &mut MadeVertices,
        piece: Piece,
    ) -> Result<(), AllocError>
        requires { AllByRecursion (λ t. HasIds (source_of self.now t)) piece.pins }
        ensures vertices { OnOk result (made.new.vertices ≡ made.old.vertices ++ vertex_of self.now piece ∷ []) }
        ensures origins { OnOk result (made.new.origins ≡ made.old.origins ++ piece.origin ∷ []) }
    {
        let pins = self.pins(alloc, piece.pins.as_slice())?;
        made.vertices.push(OpenVertex {
            kind: piece.kind,
            pins,
        })?;
        made.origins.push(piece.origin)
    }

    /// The vertices with what their pins read.
    pub fn vertices(
        &self,
        alloc: Global,
        pieces: Sequence<Piece>,
    ) -> Result<MadeVertices, AllocError>
        requires { AllByRecursion (λ p. AllByRecursion (λ t. HasIds (source_of self.now t)) p.pins) pieces }
        ensures vertices { IfOk result (λ made. made.vertices ≡ map (vertex_of self.now) pieces) }
        ensures origins { IfOk result (λ made. made.origins ≡ map (λ p. p.origin) pieces) }
    {
        let mut made = MadeVertices {
            vertices: Sequence::new(alloc),
            origins: Sequence::new(alloc),
        };
        for piece in pieces.into_vec() {
            self.push_vertex(alloc, &mut made, piece)?;
        }
        Ok(made)
    }
}

/// Vertices, each with the name of the gate cell that it is, which is empty for every other vertex.
#[derive(Drop)]
pub struct MadeVertices {
    pub vertices: Sequence<OpenVertex>,
    pub origins: Sequence<Text>,
}

// Puts the Constant vertex of a bit behind the others.
fn push_constant(alloc: Global, pieces: &mut Sequence<Piece>, value: bool) -> Result<(), AllocError>
    ensures { OnOk result (pieces.new ≡ pieces.old ++ piece (Constant value) [] ∷ []) }
{
    pieces.push(Piece::new(alloc, VertexKind::Constant(value), Sequence::new(alloc)))
}
