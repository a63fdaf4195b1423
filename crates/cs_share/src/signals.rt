// What drivers, registers and pins are, as signals.
ghost use Rattle.std.specs.Prelude.{◌≡◌, ◌+◌, ◌<◌, ◌^◌, ◌++◌, IfOk, OnOk, drop, flat_map, length, take};
ghost use Rattle.cs_share.specs.Planned.{HasNumber, HasSignal, HaveEnds, end_signals, feed_signal, feed_signals, feeds_shown, kind_signal, number_signal, signal_after};
ghost use Rattle.cs_share.specs.Shared.{constant};

use crate::numbers::{Numbers, number_at};
use cs_base::{BitId, EdgeId, Sequence, Signal, VertexId};
use cs_graph::{Feed, Machine, Vertex, VertexKind};
use cs_prefix::DriverId;
use std::alloc::{AllocError, Global};

// ---- lists

/// The first of these signals.
pub(crate) fn first_signals(
    alloc: Global,
    signals: &[Signal],
    count: usize,
) -> Result<Sequence<Signal>, AllocError>
    ensures { IfOk result (λ first. first ≡ take count signals.now) }
{
    let end = count.min(signals.len());
    Ok(Sequence::from_vec(Vec::from_slice(alloc, &signals[..end])?))
}

/// The signals behind the first of these.
pub(crate) fn signals_after(signals: &[Signal], count: usize) -> &[Signal]
    ensures { result.now ≡ drop count signals.now }
{
    &signals[count.min(signals.len())..]
}

// ---- drivers

fn constant(value: bool) -> Signal
    ensures { result ≡ constant value }
{
    if value { Signal::One } else { Signal::Zero }
}

// An output of a vertex whose first output has this number.
fn kind_signal(kind: VertexKind, number: u32, output: u32) -> Signal
    requires { number + output < 2 ^ 32 }
    ensures { result ≡ kind_signal kind number output }
{
    match kind {
        VertexKind::Input => Signal::Bit(BitId::new(number)),
        VertexKind::Constant(value) => constant(value),
        VertexKind::Gate(_) => Signal::Bit(BitId::new(number + output)),
        VertexKind::Read { .. } => Signal::Bit(BitId::new(number + output)),
        VertexKind::Host => Signal::Zero,
        VertexKind::Output => Signal::Zero,
        VertexKind::Write { .. } => Signal::Zero,
    }
}

fn number_signal(machine: &Machine, numbers: &[u32], driver: DriverId) -> Signal
    requires { HasNumber machine.now.vertices numbers.now driver.vertex driver.output }
    ensures { result ≡ number_signal machine.now.vertices numbers.now driver.vertex driver.output }
{
    let number = number_at(numbers, driver.vertex.get() as usize);
    kind_signal(machine.vertex(driver.vertex).kind, number, driver.output)
}

/// What stands behind a register, or the driver itself where there is none.
pub(crate) fn signal_after(
    machine: &Machine,
    numbers: &Numbers,
    driver: DriverId,
    place: Option<usize>,
) -> Signal
    requires { HasSignal machine.now.vertices numbers.now.vertices numbers.now.first_register
        driver.vertex driver.output place }
    ensures { result ≡ signal_after machine.now.vertices numbers.now.vertices numbers.now.first_register
        driver.vertex driver.output place }
{
    match place {
        Some(n) => Signal::Bit(BitId::new(numbers.first_register + n as u32)),
        None => number_signal(machine, numbers.vertices.as_slice(), driver),
    }
}

/// What the end of each edge reads, where these are the last registers that the edges pass.
pub(crate) fn end_signals(
    alloc: Global,
    machine: &Machine,
    numbers: &Numbers,
    ends: &[Option<usize>],
) -> Result<Sequence<Signal>, AllocError>
    requires count { length ends.now ≡ length machine.now.edges }
    requires each { HaveEnds machine.now.vertices numbers.now.vertices numbers.now.first_register
        ends.now machine.now.edges }
    ensures { IfOk result (λ signals. signals
        ≡ end_signals machine.now.vertices numbers.now.vertices numbers.now.first_register ends.now machine.now.edges) }
{
    let mut signals = Sequence::new(alloc);
    for e in 0..machine.edge_count() {
        let edge = machine.edge(EdgeId::new(e));
        let driver = DriverId {
            vertex: edge.from,
            output: edge.output,
        };
        signals.push(signal_after(machine, numbers, driver, ends[e as usize]))?;
    }
    Ok(signals)
}

// ---- pins

// What a pin reads, where these are what the ends of the edges read.
fn feed_signal(signals: &[Signal], feed: Feed) -> Signal
    ensures { result ≡ feed_signal signals.now feed }
{
    match feed {
        Feed::Tied(value) => constant(value),
        Feed::Edge(e) => signals
            .get(e.get() as usize)
            .copied()
            .unwrap_or(Signal::Zero),
    }
}

// Pushes what the pins of a vertex read.
fn push_feeds(
    pins: &mut Sequence<Signal>,
    signals: &[Signal],
    vertex: &Vertex,
) -> Result<(), AllocError>
    ensures { OnOk result (pins.new ≡ pins.old ++ feed_signals signals.now vertex.now) }
{
    let feeds = vertex.pins.as_slice();
    for feed in feeds {
        pins.push(feed_signal(signals, *feed))?;
    }
    Ok(())
}

/// What the pins of a vertex read.
pub(crate) fn feed_signals(
    alloc: Global,
    signals: &[Signal],
    vertex: &Vertex,
) -> Result<Sequence<Signal>, AllocError>
    ensures { IfOk result (λ pins. pins ≡ feed_signals signals.now vertex.now) }
{
    let mut pins = Sequence::new(alloc);
    push_feeds(&mut pins, signals, vertex)?;
    Ok(pins)
}

// Pushes what a vertex shows, if it is an Output.
fn push_shown(
    shown: &mut Sequence<Signal>,
    signals: &[Signal],
    vertex: &Vertex,
) -> Result<(), AllocError>
    ensures { OnOk result (shown.new ≡ shown.old ++ feeds_shown signals.now vertex.now) }
{
    match vertex.kind {
        VertexKind::Output => push_feeds(shown, signals, vertex),
        VertexKind::Host => Ok(()),
        VertexKind::Input => Ok(()),
        VertexKind::Constant(_) => Ok(()),
        VertexKind::Gate(_) => Ok(()),
        VertexKind::Read { .. } => Ok(()),
        VertexKind::Write { .. } => Ok(()),
    }
}

/// What the Outputs show, in order.
pub(crate) fn shown_signals(
    alloc: Global,
    machine: &Machine,
    signals: &[Signal],
) -> Result<Sequence<Signal>, AllocError>
    ensures { IfOk result (λ shown. shown ≡ flat_map (feeds_shown signals.now) machine.now.vertices) }
{
    let mut shown = Sequence::new(alloc);
    for v in 0..machine.vertex_count() {
        push_shown(&mut shown, signals, machine.vertex(VertexId::new(v)))?;
    }
    Ok(shown)
}
