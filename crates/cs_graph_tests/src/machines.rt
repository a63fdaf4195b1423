// Machines built by hand. Numbers of vertices: 0 is the Host.
use crate::building::{Wire, assert_row, built, keep, machine};
use cs_base::{EdgeId, MemId, Mode, Sequence, VertexId};
use cs_cells::Kind;
use cs_graph::{
    BuildError, Delays, Feed, Machine, MachineBuilder, Memory, Vertex, VertexKind, are_within,
};
use std::alloc::Global;
use std::process::Abort;

// Whether the edge of this number is this wire.
pub fn is_edge(machine: &Machine, e: u32, wire: Wire<'_>) -> bool {
    if e >= machine.edge_count() {
        return false;
    }
    let (to, pin, from, contents) = wire;
    let edge = machine.edge(EdgeId::new(e));
    edge.to.get() == to
        && edge.pin == pin
        && edge.from.get() == from
        && edge.output == 0
        && edge.weight as usize == contents.len()
        && edge.contents.as_slice() == contents
}

fn is_open(built: &Result<Machine, BuildError>) -> bool {
    matches!(built, Err(BuildError::Open { vertex, pin: 0 }) if vertex.get() == 1)
}

// Whether it is a loop of these vertices, told in this order.
fn is_loop_of(built: &Result<Machine, BuildError>, wanted: &[VertexId]) -> bool {
    match built {
        Err(BuildError::Loop { vertices }) => vertices.as_slice() == wanted,
        _ => false,
    }
}

const NOT: [VertexKind; 1] = [VertexKind::Gate(Kind::Not)];

#[test]
fn machine_builder(rt: HostRuntime) {
    let alloc = rt.alloc();
    let open = keep(&rt, alloc, built(&rt, alloc, &NOT, &[]));
    assert!(rt; is_open(open));
    let loop_of_one = keep(&rt, alloc, built(&rt, alloc, &NOT, &[(1, 0, 1, &[])]));
    assert!(rt; is_loop_of(loop_of_one, &[VertexId::new(1)]));
    let wire: Wire<'_> = (1, 0, 1, &[true, false]);
    let inverter = machine(&rt, alloc, &NOT, &[wire]);
    assert!(rt; inverter.vertex_count() == 2 && inverter.edge_count() == 1);
    assert!(rt; is_edge(inverter, 0, wire));
}

// Inverter 1 reads inverter 2, and this reads gate 3, which reads inverter 2 by both pins.
const LOOP: [VertexKind; 3] = [
    VertexKind::Gate(Kind::Not),
    VertexKind::Gate(Kind::Not),
    VertexKind::Gate(Kind::And),
];

const LOOP_WIRES: &[Wire<'static>] = &[
    (1, 0, 2, &[]),
    (2, 0, 3, &[]),
    (3, 0, 2, &[]),
    (3, 1, 2, &[]),
];

#[test]
fn loop_names_each_vertex_once(rt: HostRuntime) {
    let alloc = rt.alloc();
    let built = keep(&rt, alloc, built(&rt, alloc, &LOOP, LOOP_WIRES));
    let (first, second) = (VertexId::new(2), VertexId::new(3));
    assert!(rt; is_loop_of(built, &[first, second]) || is_loop_of(built, &[second, first]));
}

// Input 1, output 2, inverters 3 and 4 and an exclusive or 5 that reads the input and inverter 4, each through a
// register; inverter 4 goes to the output through a register.
const KINDS: [VertexKind; 5] = [
    VertexKind::Input,
    VertexKind::Output,
    VertexKind::Gate(Kind::Not),
    VertexKind::Gate(Kind::Not),
    VertexKind::Gate(Kind::Xor),
];

const TO_OUTPUT: Wire<'static> = (2, 0, 4, &[false]);

const TO_FIRST: Wire<'static> = (3, 0, 5, &[]);

const TO_SECOND: Wire<'static> = (4, 0, 3, &[]);

const FROM_INPUT: Wire<'static> = (5, 0, 1, &[false]);

const BACK: Wire<'static> = (5, 1, 4, &[false]);

// Its edges in order.
const WIRES: &[Wire<'static>] = &[TO_OUTPUT, TO_FIRST, TO_SECOND, FROM_INPUT, BACK];

// The same in another order.
const WIRES_AS_BUILT: &[Wire<'static>] = &[TO_SECOND, TO_FIRST, BACK, FROM_INPUT, TO_OUTPUT];

pub(crate) fn inverter_loop(rt: &impl Abort, alloc: Global) -> &'static Machine {
    machine(rt, alloc, &KINDS, WIRES_AS_BUILT)
}

/// Asserts that these are its edges in order.
pub fn assert_edges(rt: &impl Abort, machine: &Machine, wires: &[Wire<'_>]) {
    assert!(rt; machine.edge_count() as usize == wires.len());
    for (e, wire) in wires.iter().enumerate() {
        assert_row(rt, is_edge(machine, e as u32, *wire), e);
    }
}

#[test]
fn edges_by_vertex_and_pin(rt: HostRuntime) {
    assert_edges(&rt, inverter_loop(&rt, rt.alloc()), WIRES);
}

// Whether these are so many edges, numbered from the first.
fn are_edges(pins: &[Feed], first: u32, count: usize) -> bool {
    let mut wanted = first;
    for pin in pins {
        if !matches!(pin, Feed::Edge(edge) if edge.get() == wanted) {
            return false;
        }
        wanted = wanted.saturating_add(1);
    }
    pins.len() == count
}

// The first edge of each vertex, and how many it has.
const EDGES: &[(u32, usize)] = &[(0, 0), (0, 0), (0, 1), (1, 1), (2, 1), (3, 2)];

#[test]
fn edges_of_vertices(rt: HostRuntime) {
    let machine = inverter_loop(&rt, rt.alloc());
    assert!(rt; machine.vertex_count() == 6);
    for (v, (first, count)) in EDGES.iter().enumerate() {
        let vertex = machine.vertex(VertexId::new(v as u32));
        assert_row(&rt, are_edges(vertex.pins.as_slice(), *first, *count), v);
    }
}

#[test]
fn kinds_of_vertices(rt: HostRuntime) {
    let machine = inverter_loop(&rt, rt.alloc());
    assert!(rt; machine.vertex_count() == 6);
    assert!(rt; machine.vertex(VertexId::new(0)).kind == VertexKind::Host);
    for (place, kind) in KINDS.iter().enumerate() {
        let v = VertexId::new(place as u32 + 1);
        let is_gate = matches!(kind, VertexKind::Gate(_));
        let is_so = machine.vertex(v).kind == *kind && machine.is_pinned(v) != is_gate;
        assert_row(&rt, is_so, place);
    }
}

#[test]
fn order(rt: HostRuntime) {
    let machine = inverter_loop(&rt, rt.alloc());
    assert!(rt; machine.order().len() == 6);
    let mut gates = Vec::new(rt.alloc());
    for v in machine.order() {
        if 3 <= v.get() {
            gates.push(v.get()).expect(&rt, "a gate");
        }
    }
    assert!(rt; gates.as_slice() == [5, 3, 4].as_slice());
}

// Lags, and whether they are legal in either mode.
const LAGS: &[([i64; 6], bool, bool)] = &[
    ([0, 0, 0, 0, 0, -1], true, true),
    ([0, 0, 0, 0, 1, 0], true, false),
    ([0, 0, 0, 0, 0, 1], false, false),
    ([0, 1, 0, 0, 0, 0], false, false),
];

#[test]
fn lags(rt: HostRuntime) {
    let machine = inverter_loop(&rt, rt.alloc());
    for (row, (lags, any, forward)) in LAGS.iter().enumerate() {
        assert!(rt; machine.vertex_count() == 6 && are_within(lags));
        let is_any = machine.is_legal(Mode::Any, lags);
        let is_forward = machine.is_legal(Mode::Forward, lags);
        assert_row(&rt, is_any == *any && is_forward == *forward, row);
    }
}

#[test]
fn weights_under_lags(rt: HostRuntime) {
    let machine = inverter_loop(&rt, rt.alloc());
    let lags = [0, 0, 0, 0, 0, -1];
    assert!(rt; machine.vertex_count() == 6 && machine.edge_count() == 5 && are_within(&lags));
    for (e, weight) in [1, 1, 0, 0, 0].iter().enumerate() {
        let found = machine.weight_under(EdgeId::new(e as u32), &lags);
        assert_row(&rt, found == *weight, e);
    }
}

// Delay 2 for the inverters, and these for the exclusive or and its pins.
pub(crate) fn gate_delays(rt: &impl Abort, alloc: Global, xor: [u32; 3]) -> &'static Delays {
    let [most, first, second] = xor;
    assert!(rt; first <= most && second <= most && most <= 1_000_000);
    let list = |items: &[u32]| Sequence::from_vec(items.to_vec(alloc).expect(rt, "delays"));
    let per_vertex = list(&[0, 0, 0, 2, 2, most]);
    let per_pin = vec![in alloc;
        list(&[]),
        list(&[]),
        list(&[0]),
        list(&[2]),
        list(&[2]),
        list(&[first, second]),
    ];
    let per_pin = Sequence::from_vec(per_pin.expect(rt, "delays"));
    let delays = Delays {
        per_vertex,
        per_pin,
    };
    keep(rt, alloc, delays)
}

fn period(rt: &impl Abort, alloc: Global, machine: &Machine, lags: &[i64], delays: &Delays) -> u64 {
    assert!(rt; lags.len() == machine.vertex_count() as usize && are_within(lags));
    assert!(rt; machine.is_legal(Mode::Any, lags) && machine.has_delays(delays));
    machine
        .period_under(alloc, lags, delays)
        .expect(rt, "a period")
}

// Delays of the exclusive or and of its pins, its lag, and the period.
const PERIODS: &[([u32; 3], i64, u64)] = &[
    ([2, 2, 2], 0, 6),
    ([5, 5, 1], 0, 9),
    ([5, 5, 1], -1, 5),
    ([5, 5, 5], 0, 9),
    ([5, 5, 5], -1, 9),
];

#[test]
fn delays_per_pin(rt: HostRuntime) {
    let alloc = rt.alloc();
    let machine = inverter_loop(&rt, alloc);
    for (row, (xor, lag, wanted)) in PERIODS.iter().enumerate() {
        let delays = gate_delays(&rt, alloc, *xor);
        let found = period(&rt, alloc, machine, &[0, 0, 0, 0, 0, *lag], delays);
        assert_row(&rt, found == *wanted, row);
    }
}

// Ties open pins to bits.
fn tie(rt: &impl Abort, builder: &mut MachineBuilder, rows: &[(u32, u32, bool)]) {
    for (v, pin, bit) in rows {
        let v = VertexId::new(*v);
        assert!(rt; builder.is_open(v, *pin));
        builder.tie(v, *pin, *bit);
    }
}

const START: &[bool] = &[false, false, false, false, true, false, false, false];

// A Read 1 and a Write 2 of memory 0.
fn with_two_ports(rt: &impl Abort, alloc: Global) -> MachineBuilder {
    let mut builder = MachineBuilder::new(alloc).expect(rt, "a builder");
    let memory = Memory {
        size: 3,
        words: 4,
        abits: 2,
        width: 2,
        start: Sequence::from_vec(START.to_vec(alloc).expect(rt, "a start")),
    };
    let memory = builder.add_memory(memory).expect(rt, "a memory");
    let read = builder.add_vertex(alloc, VertexKind::Read { memory, port: 0 });
    let _ = read.expect(rt, "a read port");
    let write = builder.add_vertex(alloc, VertexKind::Write { memory, port: 0 });
    let _ = write.expect(rt, "a write port");
    builder
}

// The vertices and the numbers of pins, and the bits that they are tied to.
const TIES: &[(u32, u32, bool)] = &[
    (1, 0, true),
    (1, 1, false),
    (2, 0, false),
    (2, 1, true),
    (2, 2, true),
    (2, 3, false),
    (2, 4, true),
];

// Output 1 of the Read goes to the Write's last pin, an enable bit; the other pins are tied.
pub fn memory_with_two_ports(rt: &impl Abort, alloc: Global) -> &'static Machine {
    let mut builder = with_two_ports(rt, alloc);
    tie(rt, &mut builder, TIES);
    let (read, write) = (VertexId::new(1), VertexId::new(2));
    assert!(rt; builder.is_open(write, 5) && builder.has_output(read, 1));
    let fed = builder.feed(write, 5, read, 1, Sequence::new(alloc));
    fed.expect(rt, "an edge");
    keep(rt, alloc, builder.finish(alloc).expect(rt, "a machine"))
}

// Whether the pins but the last are tied to these bits.
fn are_tied(pins: &[Feed], bits: &[bool]) -> bool {
    for (pin, bit) in pins.iter().zip(bits) {
        if !matches!(pin, Feed::Tied(tied) if tied == bit) {
            return false;
        }
    }
    true
}

// Whether it is the Write, five of whose pins are tied.
fn is_write_of_six_pins(write: &Vertex) -> bool {
    let memory = MemId::new(0);
    let pins = write.pins.as_slice();
    write.kind == VertexKind::Write { memory, port: 0 }
        && pins.len() == 6
        && are_tied(pins, &[false, true, true, false, true])
        && matches!(pins[5], Feed::Edge(edge) if edge.get() == 0)
}

#[test]
fn ports_of_a_memory(rt: HostRuntime) {
    let machine = memory_with_two_ports(&rt, rt.alloc());
    assert!(rt; machine.vertex_count() == 3 && machine.edge_count() == 1);
    let memory = MemId::new(0);
    let read = machine.vertex(VertexId::new(1));
    assert!(rt; read.kind == VertexKind::Read { memory, port: 0 });
    assert!(rt; read.pins.len() == 2 && are_tied(read.pins.as_slice(), &[true, false]));
    assert!(rt; is_write_of_six_pins(machine.vertex(VertexId::new(2))));
    assert!(rt; machine.edge(EdgeId::new(0)).output == 1);
}

fn is_memory_of_four_words(kept: &Memory) -> bool {
    kept.size == 3
        && kept.words == 4
        && kept.abits == 2
        && kept.width == 2
        && kept.start.as_slice() == START
}

// Whether it has the memory and the Write.
pub fn has_memory_and_write(machine: &Machine) -> bool {
    machine.vertex_count() == 3
        && machine.memory_count() == 1
        && is_memory_of_four_words(machine.memory(MemId::new(0)))
        && is_write_of_six_pins(machine.vertex(VertexId::new(2)))
}

#[test]
fn a_memory_is_kept(rt: HostRuntime) {
    assert!(rt; has_memory_and_write(memory_with_two_ports(&rt, rt.alloc())));
}
