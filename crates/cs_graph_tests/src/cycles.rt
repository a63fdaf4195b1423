// Cycles of steps and lower bounds, over the inverter loop of `machines.rt`.
use crate::building::{assert_row, keep};
use crate::machines::{gate_delays, inverter_loop};
use cs_base::{EdgeId, Mode, Sequence, VertexId};
use cs_cert::{Cycle, Step, check_cycle, check_floors};
use std::alloc::Global;
use std::process::Abort;

// A step by its numbers.
#[derive(Clone, Copy)]
enum Row {
    Edge(u32),
    Path(u32, &'static [u32]),
    Pin(u32, u32),
}

fn edges(rt: &impl Abort, alloc: Global, numbers: &[u32]) -> Sequence<EdgeId> {
    let edges = numbers.iter().map(|e| EdgeId::new(*e)).collect(alloc);
    Sequence::from_vec(edges.expect(rt, "edges"))
}

fn step(rt: &impl Abort, alloc: Global, row: Row) -> Step {
    match row {
        Row::Edge(edge) => Step::EdgeStep {
            edge: EdgeId::new(edge),
        },
        Row::Path(from, numbers) => Step::PathStep {
            from: VertexId::new(from),
            edges: edges(rt, alloc, numbers),
        },
        Row::Pin(from, to) => Step::PinStep {
            from: VertexId::new(from),
            to: VertexId::new(to),
        },
    }
}

fn steps(rt: &impl Abort, alloc: Global, rows: &[Row]) -> Sequence<Step> {
    let mut steps = Sequence::new(alloc);
    for row in rows {
        steps.push(step(rt, alloc, *row)).expect(rt, "a step");
    }
    steps
}

// Whether the steps are a valid cycle for the bound, with delay 2 for the inverters and these for the exclusive or and
// its pins.
fn is_valid(rt: &impl Abort, alloc: Global, xor: [u32; 3], bound: u64, rows: &[Row]) -> bool {
    let machine = inverter_loop(rt, alloc);
    let delays = gate_delays(rt, alloc, xor);
    let steps = steps(rt, alloc, rows);
    let cycle = keep(rt, alloc, Cycle { steps });
    check_cycle(machine, delays, Mode::Any, bound, cycle)
}

const AROUND: &[Row] = &[
    Row::Path(5, &[1, 2]),
    Row::Path(4, &[4, 1]),
    Row::Path(3, &[2, 4]),
];

// From the input to the output and back outside; the last step begins at a gate, which no mode but `Forward` allows.
const OUTSIDE: &[Row] = &[Row::Path(5, &[1, 2]), Row::Edge(0), Row::Pin(2, 1)];

// Delays of the exclusive or and its pins, a bound, steps, and whether they are a valid cycle.
const CYCLES: &[([u32; 3], u64, &[Row], bool)] = &[
    ([2, 2, 2], 5, AROUND, true),
    ([2, 2, 2], 6, AROUND, false),
    ([5, 5, 1], 4, &[Row::Path(5, &[])], true),
    ([5, 5, 1], 5, &[Row::Path(5, &[])], false),
    // A sum of 0, a cycle that doesn't close, edges that don't meet, one that isn't there, and no step.
    ([2, 2, 2], 5, &[Row::Path(5, &[1, 2]), Row::Edge(4)], false),
    ([2, 2, 2], 5, &[Row::Path(5, &[1, 2])], false),
    ([2, 2, 2], 1, &[Row::Path(5, &[1, 1])], false),
    ([2, 2, 2], 1, &[Row::Path(5, &[4_294_967_295])], false),
    ([2, 2, 2], 5, &[], false),
    ([2, 2, 2], 5, OUTSIDE, false),
];

#[test]
fn cycles(rt: HostRuntime) {
    for (row, (xor, bound, rows, wanted)) in CYCLES.iter().enumerate() {
        let found = is_valid(&rt, rt.alloc(), *xor, *bound, rows);
        assert_row(&rt, found == *wanted, row);
    }
}

// Whether the steps show these lower bounds, or none.
fn has_floors(
    rt: &impl Abort,
    alloc: Global,
    rows: &[Row],
    wanted: Option<&[Option<i128>]>,
) -> bool {
    let machine = inverter_loop(rt, alloc);
    assert!(rt; machine.vertex_count() == 6);
    let delays = gate_delays(rt, alloc, [2, 2, 2]);
    let steps = keep(rt, alloc, steps(rt, alloc, rows)).as_slice();
    let mut least = [None; 6];
    let are_shown = check_floors(machine, delays, Mode::Any, 5, steps, &mut least);
    match wanted {
        Some(wanted) => are_shown && least.as_slice() == wanted,
        None => !are_shown,
    }
}

const KNOWN: &[Option<i128>] = &[Some(0), Some(0), Some(0), None, Some(0), Some(-1)];

// A chain from the input over a register to the exclusive or, and by a path of delay 6 to an inverter; one that begins at
// a vertex of which nothing is known, and one that ends where something is.
const CHAINS: &[(&[Row], Option<&[Option<i128>]>)] = &[
    (&[Row::Edge(3), Row::Path(5, &[1, 2])], Some(KNOWN)),
    (&[Row::Edge(1)], None),
    (&[Row::Edge(3), Row::Edge(3)], None),
];

#[test]
fn floors(rt: HostRuntime) {
    for (row, (rows, wanted)) in CHAINS.iter().enumerate() {
        assert_row(&rt, has_floors(&rt, rt.alloc(), rows, *wanted), row);
    }
}
