// The multiplexers that stand before a register with an enable and a reset.
ghost use Rattle.std.specs.Prelude.{◌≡◌, ◌<◌, ◌≤◌, ◌^◌, ◌∷◌, [], length, IfOk, OnOk};
ghost use Rattle.cs_lower.specs.Registers.{IsPushed, always, element_of, held_of, held_tap, mux, never, no_chain, register_chain, register_parts, reset_count, with_enable, with_reset};
ghost use Rattle.cs_lower.specs.declared.taps.Tap.TheVariants.{Vertex as of_vertex};
ghost use Rattle.cs_lower.specs.Taps.{both, with_pieces};
ghost use Rattle.cs_net.specs.Drivers.{Source};

use crate::driven::DrivenBits;
use crate::taps::{Parts, Piece, Tap, Wire};
use cs_base::{Sequence, Signal};
use cs_cells::{FfKind, Kind};
use cs_graph::VertexKind;
use std::alloc::{AllocError, Global};

/// A register without its D: what it is, the bit that it drives, and what it has at E and R.
#[derive(Clone, Copy)]
pub(crate) struct RegisterPins {
    pub kind: FfKind,
    pub q: Signal,
    /// What it starts with where Q is a text; a bit has its own start.
    pub start: bool,
    pub enable: Signal,
    pub reset: Signal,
}

fn is_always(high: bool, still: Option<bool>) -> bool
    ensures { result ≡ always high still }
{
    match still {
        Some(bit) => bit == high,
        None => false,
    }
}

fn is_never(high: bool, still: Option<bool>) -> bool
    ensures { result ≡ never high still }
{
    match still {
        Some(bit) => bit != high,
        None => false,
    }
}

// The pins of a multiplexer that gives `on` where the select is active, else `off`.
fn mux_pins(
    alloc: Global,
    high: bool,
    off: Tap,
    on: Tap,
    select: Signal,
) -> Result<Sequence<Tap>, AllocError>
    ensures { IfOk result (λ pins. pins ≡ (mux high off on select).pins) }
{
    let select = Tap::Signal(select);
    let pins = if high {
        [off, on, select]
    } else {
        [on, off, select]
    };
    Ok(Sequence::from_vec(Vec::from_slice(alloc, &pins)?))
}

// Pushes a multiplexer, and tells what comes out.
fn push_mux(
    alloc: Global,
    parts: &mut Parts,
    high: bool,
    off: Tap,
    on: Tap,
    select: Signal,
) -> Result<Tap, AllocError>
    ensures pushed { OnOk result (parts.new ≡ with_pieces parts.old (mux high off on select ∷ [])) }
    ensures last { IfOk result (λ last. last ≡ of_vertex (length parts.old.pieces) 0) }
{
    let pins = mux_pins(alloc, high, off, on, select)?;
    let piece = Piece::new(alloc, VertexKind::Gate(Kind::Mux), pins);
    let vertex = parts.push(piece)?;
    Ok(Tap::Vertex { vertex, output: 0 })
}

// Pushes what lets a register keep what it holds, and tells what comes out.
fn push_enable(
    alloc: Global,
    parts: &mut Parts,
    net: &DrivenBits,
    pins: &RegisterPins,
    held: Tap,
    last: Tap,
) -> Result<Tap, AllocError>
    ensures { IfOk result (λ end. IsPushed parts.old
        (with_enable net.now held pins.now.kind.enable pins.now.enable (no_chain (length parts.old.pieces) last)) parts.new end) }
{
    match pins.kind.enable {
        None => Ok(last),
        Some(high) => if is_always(high, net.still(pins.enable)) {
            Ok(last)
        } else {
            push_mux(alloc, parts, high, held, last, pins.enable)
        },
    }
}

// Pushes what gives a register its reset value, and tells what comes out.
fn push_reset(
    alloc: Global,
    parts: &mut Parts,
    net: &DrivenBits,
    pins: &RegisterPins,
    last: Tap,
) -> Result<Tap, AllocError>
    ensures { IfOk result (λ end. IsPushed parts.old
        (with_reset net.now pins.now.kind.reset pins.now.reset (no_chain (length parts.old.pieces) last)) parts.new end) }
{
    match pins.kind.reset {
        None => Ok(last),
        Some(reset) => if is_never(reset.high, net.still(pins.reset)) {
            Ok(last)
        } else {
            push_mux(
                alloc,
                parts,
                reset.high,
                last,
                Tap::Constant(reset.value),
                pins.reset,
            )
        },
    }
}

// How many multiplexers a reset makes.
fn reset_count(net: &DrivenBits, pins: &RegisterPins) -> usize
    ensures is { result ≡ reset_count net.now pins.now.kind.reset pins.now.reset }
    ensures few { result ≤ 1 }
{
    match pins.kind.reset {
        None => 0,
        Some(reset) => if is_never(reset.high, net.still(pins.reset)) {
            0
        } else {
            1
        },
    }
}

// What a register holds whose last multiplexer is this vertex.
fn held_of(vertex: usize, start: bool, q: Signal) -> Tap
    ensures { result ≡ held_of vertex start q }
{
    match q {
        Signal::Bit(_) => Tap::Signal(q),
        Signal::Zero => Tap::Held { vertex, start },
        Signal::One => Tap::Held { vertex, start },
        Signal::Unknown => Tap::Held { vertex, start },
        Signal::HighZ => Tap::Held { vertex, start },
    }
}

// What a register holds whose multiplexers begin at vertex `first`.
fn held_tap(net: &DrivenBits, first: usize, pins: &RegisterPins) -> Tap
    requires { first < 2 ^ 63 }
    ensures { (source : Source)
        → result ≡ held_tap net.now first (pins.now.q, pins.now.start) (element_of source pins.now) }
{
    let vertex = first + reset_count(net, pins);
    held_of(vertex, pins.start, pins.q)
}

// Pushes the multiplexers before a register, from what it has at D, and tells what comes out.
fn push_chain(
    alloc: Global,
    parts: &mut Parts,
    net: &DrivenBits,
    pins: &RegisterPins,
    d: Tap,
) -> Result<Tap, AllocError>
    ensures { IfOk result (λ last. (source : Source)
        → IsPushed parts.old
        (register_chain net.now (length parts.old.pieces) (pins.now.q, pins.now.start) (element_of source pins.now) d) parts.new last) }
{
    parts.keeps();
    let held = held_tap(net, parts.pieces.len(), pins);
    if pins.kind.enable_over_reset {
        let last = push_reset(alloc, parts, net, pins, d)?;
        push_enable(alloc, parts, net, pins, held, last)
    } else {
        let last = push_enable(alloc, parts, net, pins, held, d)?;
        push_reset(alloc, parts, net, pins, last)
    }
}

/// Pushes the vertices of a register, from what it has at D.
pub(crate) fn push_register(
    alloc: Global,
    parts: &mut Parts,
    net: &DrivenBits,
    pins: &RegisterPins,
    d: Tap,
) -> Result<(), AllocError>
    ensures { OnOk result ((source : Source)
        → parts.new ≡ both parts.old
        (register_parts net.now (length parts.old.pieces) (pins.now.q, pins.now.start) (element_of source pins.now) d)) }
{
    let last = push_chain(alloc, parts, net, pins, d)?;
    parts.drive(pins.q, Wire::Register(last))
}
