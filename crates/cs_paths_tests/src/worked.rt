// Worked rows: the inverter loop, with one delay a gate and with a delay for each pin, and two paths with as many
// registers.
ghost use Rattle.cs_graph.specs.Period.{AreDelaysOf};
ghost use Rattle.cs_paths.specs.Rows.{AreRowsOf};

use crate::building::{Wire, delays, keep, machine, rows_of};
use cs_base::{Contexts, VertexId};
use cs_cells::Kind;
use cs_graph::{Delays, Machine, VertexKind};
use cs_paths::types::Rows;
use cs_slow::slow;
use std::alloc::Global;
use std::process::Abort;
use std::thread::Threads;

// Input 1, output 2, inverters 3 and 4 and an exclusive or 5 that reads the input and inverter 4, each through a
// register; inverter 4 goes to the output through a register.
const INVERTERS: [VertexKind; 5] = [
    VertexKind::Input,
    VertexKind::Output,
    VertexKind::Gate(Kind::Not),
    VertexKind::Gate(Kind::Not),
    VertexKind::Gate(Kind::Xor),
];

// Its edges in order.
const LOOP: &[Wire] = &[
    (2, 0, 4, 1),
    (3, 0, 5, 0),
    (4, 0, 3, 0),
    (5, 0, 1, 1),
    (5, 1, 4, 1),
];

const EQUAL: &str = r#"{"version":1,"delays":{},"default":2}"#;

const BY_PIN: &str = r#"{"version":2,"delays":{"$_NOT_":2,"$_XOR_":{"A":5,"B":1}}}"#;

// A pair of vertices, and W and D of it.
type Pair = (u32, u32, Option<(u32, u32)>);

// Whether the rows have these pairs.
fn are_pairs(machine: &Machine, delays: &Delays, rows: &Rows, pairs: &[Pair]) -> bool
    requires { AreRowsOf machine.now delays.now rows.now }
{
    let _ = delays;
    let count = machine.vertex_count();
    for (u, v, wanted) in pairs {
        if *u >= count || *v >= count {
            return false;
        }
        if rows.at(VertexId::new(*u), VertexId::new(*v)) != *wanted {
            return false;
        }
    }
    true
}

// Whether the rows keep this path from u to v.
fn is_path(
    rt: &impl Abort,
    alloc: Global,
    machine: &Machine,
    delays: &Delays,
    rows: &Rows,
    ends: (u32, u32),
    wanted: &[u32],
) -> bool
    requires delays { AreDelaysOf machine.now delays.now }
    requires rows { AreRowsOf machine.now delays.now rows.now }
{
    let (u, v) = ends;
    assert!(rt; u < machine.vertex_count() && v < machine.vertex_count());
    let path = rows.path(alloc, machine, delays, VertexId::new(u), VertexId::new(v));
    let Some(edges) = path.expect(rt, "memory") else {
        return false;
    };
    edges.len() == wanted.len()
        && edges
            .as_slice()
            .iter()
            .zip(wanted)
            .all(|(e, wanted)| e.get() == *wanted)
}

const PAIRS: &[Pair] = &[
    (5, 4, Some((0, 6))),
    (5, 5, Some((0, 2))),
    (4, 3, Some((1, 6))),
    (1, 5, Some((1, 2))),
    (2, 2, Some((0, 0))),
    (2, 5, None),
    (0, 1, None),
];

#[test]
fn inverter_loop(rt: HostRuntime) {
    let alloc = rt.alloc();
    let machine = machine(&rt, alloc, &INVERTERS, LOOP);
    let delays = delays(&rt, alloc, machine, EQUAL);
    let rows = rows_of(&rt, alloc, machine, delays);
    assert!(rt; are_pairs(machine, delays, rows, PAIRS));
    assert!(rt; is_path(&rt, alloc, machine, delays, rows, (5, 4), &[1, 2]));
    assert!(rt; is_path(&rt, alloc, machine, delays, rows, (4, 3), &[4, 1]));
    assert!(rt; is_path(&rt, alloc, machine, delays, rows, (2, 2), &[]));
    assert!(rt; !is_path(&rt, alloc, machine, delays, rows, (2, 5), &[]));
}

#[test]
fn inverter_loop_for_three_contexts(rt: HostRuntime) {
    let alloc = rt.alloc();
    let alone = machine(&rt, alloc, &INVERTERS, LOOP);
    let contexts = Contexts::new(3).expect(&rt, "contexts");
    let machine = slow(alloc, alone, contexts).expect(&rt, "a machine");
    let machine = keep(&rt, alloc, machine);
    let delays = delays(&rt, alloc, machine, EQUAL);
    let rows = rows_of(&rt, alloc, machine, delays);
    assert!(rt; are_pairs(machine, delays, rows, &[(4, 3, Some((3, 6)))]));
}

const PAIRS_BY_PIN: &[Pair] = &[
    (5, 4, Some((0, 9))),
    (5, 5, Some((0, 5))),
    (4, 5, Some((1, 3))),
    (1, 5, Some((1, 5))),
    (4, 3, Some((1, 5))),
];

// A path that begins at the exclusive or counts 5, one that comes in by its second pin 1.
#[test]
fn delays_of_pins(rt: HostRuntime) {
    let alloc = rt.alloc();
    let machine = machine(&rt, alloc, &INVERTERS, LOOP);
    let delays = delays(&rt, alloc, machine, BY_PIN);
    let rows = rows_of(&rt, alloc, machine, delays);
    assert!(rt; are_pairs(machine, delays, rows, PAIRS_BY_PIN));
}

// Input 1 goes to inverter 2; the exclusive or 3 reads both, so it is reached by two paths without a register, of
// the delays 5 and 3. Or 4 reads the exclusive or directly and inverter 2 through a register.
const TWO_PATHS: [VertexKind; 4] = [
    VertexKind::Input,
    VertexKind::Gate(Kind::Not),
    VertexKind::Gate(Kind::Xor),
    VertexKind::Gate(Kind::Or),
];

const TWO_PATHS_WIRES: &[Wire] = &[
    (2, 0, 1, 0),
    (3, 0, 1, 0),
    (3, 1, 2, 0),
    (4, 0, 3, 0),
    (4, 1, 2, 1),
];

const LATE_FIRST: &str = r#"{"version":2,"delays":{"$_NOT_":2,"$_XOR_":{"A":5,"B":1},"$_OR_":9}}"#;

const LATE_SECOND: &str = r#"{"version":2,"delays":{"$_NOT_":2,"$_XOR_":{"A":1,"B":5},"$_OR_":9}}"#;

const PAIRS_FIRST: &[Pair] = &[(1, 3, Some((0, 5))), (1, 4, Some((0, 14)))];

const PAIRS_SECOND: &[Pair] = &[(1, 3, Some((0, 7))), (1, 4, Some((0, 16)))];

// Whether the delays of a text give these pairs, and this path from the input to the or.
fn is_taken<R: Threads + Sync + Abort>(
    rt: &R,
    alloc: Global,
    text: &str,
    pairs: &[Pair],
    path: &[u32],
) -> bool {
    let machine = machine(rt, alloc, &TWO_PATHS, TWO_PATHS_WIRES);
    let delays = delays(rt, alloc, machine, text);
    let rows = rows_of(rt, alloc, machine, delays);
    are_pairs(machine, delays, rows, pairs)
        && is_path(rt, alloc, machine, delays, rows, (1, 4), path)
}

// The path with the greater delay is taken, whichever it is, and one with more registers never.
#[test]
fn paths_with_as_many_registers(rt: HostRuntime) {
    let alloc = rt.alloc();
    assert!(rt; is_taken(&rt, alloc, LATE_FIRST, PAIRS_FIRST, &[1, 3]));
    assert!(rt; is_taken(&rt, alloc, LATE_SECOND, PAIRS_SECOND, &[0, 2, 3]));
}
