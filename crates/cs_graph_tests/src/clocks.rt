// What machines of one input, outputs and gates do, clock by clock.
use cs_graph::{Edge, Feed, Machine, Vertex, VertexKind};
use std::alloc::Global;
use std::process::Abort;

fn bit(row: &[bool], place: usize) -> bool {
    row.get(place).copied().unwrap_or(false)
}

// What an edge brings, by the values of the vertices in the clocks before and now.
fn brought(edge: &Edge, before: &[Vec<bool>], now: &[bool]) -> bool {
    let from = edge.from.get() as usize;
    let weight = edge.weight as usize;
    if weight == 0 {
        bit(now, from)
    } else if weight <= before.len() {
        bit(before[before.len() - weight].as_slice(), from)
    } else {
        bit(edge.contents.as_slice(), weight - before.len() - 1)
    }
}

fn pins_of(
    rt: &impl Abort,
    alloc: Global,
    machine: &Machine,
    vertex: &Vertex,
    before: &[Vec<bool>],
    now: &[bool],
) -> Vec<bool> {
    let mut pins = Vec::new(alloc);
    for feed in vertex.pins.as_slice() {
        let pin = match *feed {
            Feed::Tied(bit) => bit,
            Feed::Edge(e) => {
                assert!(rt; e.get() < machine.edge_count());
                brought(machine.edge(e), before, now)
            }
        };
        pins.push(pin).expect(rt, "a pin");
    }
    pins
}

// An output shows what it sees.
fn value_of(rt: &impl Abort, kind: VertexKind, input: bool, pins: &[bool]) -> bool {
    match kind {
        VertexKind::Input => input,
        VertexKind::Output => bit(pins, 0),
        VertexKind::Gate(gate) => {
            assert!(rt; pins.len() == gate.pin_count());
            gate.eval(pins)
        }
        _ => false,
    }
}

// The values of the vertices in the next clock.
fn settled(
    rt: &impl Abort,
    alloc: Global,
    machine: &Machine,
    input: bool,
    before: &[Vec<bool>],
) -> Vec<bool> {
    let mut now = vec![in alloc; false; machine.vertex_count() as usize].expect(rt, "a clock");
    for v in machine.order() {
        let place = v.get() as usize;
        assert!(rt; v.get() < machine.vertex_count() && place < now.len());
        let vertex = machine.vertex(*v);
        let pins = pins_of(rt, alloc, machine, vertex, before, now.as_slice());
        now[place] = value_of(rt, vertex.kind, input, pins.as_slice());
    }
    now
}

/// The values of a vertex clock by clock, by those of the input.
pub fn values_of(
    rt: &impl Abort,
    alloc: Global,
    machine: &Machine,
    inputs: &[bool],
    vertex: usize,
) -> Vec<bool> {
    let mut clocks = Vec::new(alloc);
    let mut values = Vec::new(alloc);
    for input in inputs {
        let clock = settled(rt, alloc, machine, *input, clocks.as_slice());
        values
            .push(bit(clock.as_slice(), vertex))
            .expect(rt, "a value");
        clocks.push(clock).expect(rt, "a clock");
    }
    values
}
