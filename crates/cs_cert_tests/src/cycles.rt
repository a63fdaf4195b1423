// Cycles and chains of worked netlists, as papers say them.
use crate::building::{Wire, delays, machine};
use cs_base::{Mode, Sequence};
use cs_cells::Kind;
use cs_cert::{Cycle, Paper, Step, check_cycle, check_floors, read_certificate};
use cs_graph::{Machine, VertexKind};
use std::alloc::Global;
use std::process::Abort;

// The steps that a text lists, read as the cycle of a certificate.
fn steps(rt: &impl Abort, alloc: Global, text: &str) -> Sequence<Step> {
    let paper = format!(in alloc;
        r#"{{"contents":[],"contexts":1,"cycle":{text},"kind":"certificate","lags":[],"mode":"any","period":0,"version":1}}"#
    );
    let paper = paper.expect(rt, "a text");
    match read_certificate(alloc, paper.as_bytes()) {
        Ok(Paper::Certificate(certificate)) => certificate.cycle,
        _ => panic!(rt; "no certificate"),
    }
}

// An inverter between the input 1 and the output 2.
fn inverter(rt: &impl Abort, alloc: Global) -> Machine {
    let kinds = [
        VertexKind::Input,
        VertexKind::Output,
        VertexKind::Gate(Kind::Not),
    ];
    let wires: [Wire<'_>; 2] = [(2, 0, 3, &[]), (3, 0, 1, &[])];
    machine(rt, alloc, &kinds, &wires)
}

// An inverter 3 and a buffer 4 between the input 1 and the output 2, without a register.
fn straight_path(rt: &impl Abort, alloc: Global) -> Machine {
    let kinds = [
        VertexKind::Input,
        VertexKind::Output,
        VertexKind::Gate(Kind::Not),
        VertexKind::Gate(Kind::Buf),
    ];
    let wires: [Wire<'_>; 3] = [(2, 0, 4, &[]), (3, 0, 1, &[]), (4, 0, 3, &[])];
    machine(rt, alloc, &kinds, &wires)
}

// The inputs 1 and 2 go to a gate 5, this to an inverter 6, and this to the outputs 3 and 4 through registers of
// different starts.
fn two_starts(rt: &impl Abort, alloc: Global) -> Machine {
    let kinds = [
        VertexKind::Input,
        VertexKind::Input,
        VertexKind::Output,
        VertexKind::Output,
        VertexKind::Gate(Kind::And),
        VertexKind::Gate(Kind::Not),
    ];
    let wires: [Wire<'_>; 5] = [
        (3, 0, 6, &[false]),
        (4, 0, 6, &[true]),
        (5, 0, 1, &[]),
        (5, 1, 2, &[]),
        (6, 0, 5, &[]),
    ];
    machine(rt, alloc, &kinds, &wires)
}

// Whether the steps are a valid cycle for this bound, and for the next.
fn validity(
    rt: &impl Abort,
    alloc: Global,
    machine: &Machine,
    table: &str,
    mode: Mode,
    bound: u64,
    text: &str,
) -> (bool, bool) {
    let delays = delays(rt, alloc, table, machine);
    let cycle = Cycle {
        steps: steps(rt, alloc, text),
    };
    (
        check_cycle(machine, &delays, mode, bound, &cycle),
        check_cycle(machine, &delays, mode, bound.saturating_add(1), &cycle),
    )
}

const LAST: (bool, bool) = (true, false);

const NEITHER: (bool, bool) = (false, false);

#[test]
fn a_path_alone(rt: HostRuntime) {
    let alloc = rt.alloc();
    let machine = inverter(&rt, alloc);
    let table = r#"{"version":1,"delays":{"$_NOT_":2}}"#;
    let path = r#"[{"edges":[],"from":3,"kind":"path"}]"#;
    let found = validity(&rt, alloc, &machine, table, Mode::Any, 1, path);
    assert!(rt; found == LAST);
}

#[test]
fn a_straight_path(rt: HostRuntime) {
    let alloc = rt.alloc();
    let machine = straight_path(&rt, alloc);
    let table = r#"{"version":1,"delays":{"$_BUF_":4,"$_NOT_":3}}"#;
    let through = r#"[{"edges":[1,2,0],"from":1,"kind":"path"},{"from":2,"kind":"pin","to":1}]"#;
    let found = validity(&rt, alloc, &machine, table, Mode::Any, 6, through);
    assert!(rt; found == LAST);
}

const FIVES: &str = r#"{"version":1,"delays":{"$_AND_":5,"$_NOT_":5}}"#;

#[test]
fn forward_alone(rt: HostRuntime) {
    let alloc = rt.alloc();
    let machine = two_starts(&rt, alloc);
    let back = r#"[{"edges":[2,4],"from":1,"kind":"path"},{"from":6,"kind":"pin","to":1}]"#;
    let forward = validity(&rt, alloc, &machine, FIVES, Mode::Forward, 9, back);
    assert!(rt; forward == LAST);
    let any = validity(&rt, alloc, &machine, FIVES, Mode::Any, 9, back);
    assert!(rt; any == NEITHER);
    let gate = r#"[{"edges":[],"from":5,"kind":"path"}]"#;
    let alone = validity(&rt, alloc, &machine, FIVES, Mode::Any, 4, gate);
    assert!(rt; alone == LAST);
}

// What the chains show of the vertices, if they are taken.
fn shown(rt: &impl Abort, alloc: Global, text: &str) -> Option<[Option<i128>; 7]> {
    let machine = two_starts(rt, alloc);
    assert!(rt; machine.vertex_count() == 7);
    let delays = delays(rt, alloc, FIVES, &machine);
    let steps = steps(rt, alloc, text);
    let mut least = [None; 7];
    let taken = check_floors(
        &machine,
        &delays,
        Mode::Any,
        5,
        steps.as_slice(),
        &mut least,
    );
    if taken { Some(least) } else { None }
}

// A chain of one step from an input; it can't be taken twice, nor begin at a gate of which nothing is known.
#[test]
fn chains(rt: HostRuntime) {
    let zero = Some(0);
    let bounds = [zero, zero, zero, zero, zero, None, Some(1)];
    let once = r#"[{"edges":[2,4],"from":1,"kind":"path"}]"#;
    assert!(rt; shown(&rt, rt.alloc(), once) == Some(bounds));
    let twice =
        r#"[{"edges":[2,4],"from":1,"kind":"path"},{"edges":[3,4],"from":2,"kind":"path"}]"#;
    assert!(rt; shown(&rt, rt.alloc(), twice).is_none());
    let unknown = r#"[{"edges":[4],"from":5,"kind":"path"}]"#;
    assert!(rt; shown(&rt, rt.alloc(), unknown).is_none());
}
