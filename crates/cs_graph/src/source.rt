// Vertices of a builder, whose pins may still be open.
ghost use Rattle.std.specs.Prelude.{◌≡◌, ◌<◌, ◌↔◌, None, Some, length, replicate, slice_set, IfOk, IsTrue};

use crate::vertex::VertexKind;
use cs_base::{Sequence, VertexId};
use std::alloc::{AllocError, Global};
use std::marker::Model;

/// What a pin is to read: a tied bit, or an output of a vertex through registers with these starts.
#[derive(Debug, Drop)]
pub enum Source {
    Tied(bool),
    Driven(Driver),
}

/// An output of a vertex, and the starts of the registers between it and a pin, nearest the output first.
#[derive(Debug, Drop)]
pub struct Driver {
    pub from: VertexId,
    pub output: u32,
    pub contents: Sequence<bool>,
}

/// The pins of a vertex that is being built: each is open or has its source. Contracts see a list.
#[derive(Drop)]
pub struct OpenPins {
    sources: Vec<Option<Source>>,
}

impl Model for OpenPins {
    ghost use Rattle.std.specs.Prelude.{List, Option};
    ghost use Rattle.cs_graph.specs.declared.source.Source.{Source};

    ghost Value = { List (Option Source) };

    ghost view = { λ p. p.sources.items };
}

impl OpenPins {
    /// So many open pins.
    pub(crate) fn new(alloc: Global, count: usize) -> Result<OpenPins, AllocError>
        ensures { IfOk result (λ pins. pins ≡ replicate count None) }
    {
        let mut sources = Vec::with_capacity(alloc, count)?;
        for _ in 0..count {
            sources.push(None)?;
        }
        Ok(OpenPins { sources })
    }

    /// Pins with these sources; it takes no memory.
    pub fn from_vec(sources: Vec<Option<Source>>) -> OpenPins
        ensures { result ≡ sources.items }
    {
        OpenPins { sources }
    }

    /// Feeds a pin.
    pub(crate) fn set(&mut self, pin: u32, source: Source)
        requires { pin < length self.old }
        ensures { self.new ≡ slice_set self.old pin (Some source) }
    {
        self.sources[pin as usize] = Some(source);
    }

    /// The pins in order.
    pub fn as_slice(&self) -> &[Option<Source>]
        ensures { result.now ≡ self.now }
    {
        self.sources.as_slice()
    }

    pub(crate) fn into_vec(self) -> Vec<Option<Source>>
        ensures { result.items ≡ self }
    {
        self.sources
    }
}

/// A vertex that is being built.
#[derive(Drop)]
pub struct OpenVertex {
    pub kind: VertexKind,
    pub pins: OpenPins,
}
