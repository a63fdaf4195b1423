// Machines with other contents on the same edges.
use crate::building::{Wire, assert_row, keep, machine};
use crate::limits::is_limit;
use crate::machines::{
    assert_edges, has_memory_and_write, inverter_loop, is_edge, memory_with_two_ports,
};
use cs_base::{Counted, Sequence};
use cs_cells::Kind;
use cs_graph::{BuildError, Contents, Machine, VertexKind};
use std::alloc::Global;
use std::process::Abort;

// Contents of these bits, edge by edge.
fn contents_of(rt: &impl Abort, alloc: Global, lists: &[&[bool]]) -> Contents {
    let mut of = Sequence::new(alloc);
    for bits in lists {
        let bits = bits.to_vec(alloc).expect(rt, "bits");
        of.push(Sequence::from_vec(bits)).expect(rt, "contents");
    }
    Contents { of }
}

fn with_contents(
    rt: &impl Abort,
    alloc: Global,
    machine: &Machine,
    lists: &[&[bool]],
) -> Result<Machine, BuildError> {
    let contents = contents_of(rt, alloc, lists);
    assert!(rt; machine.fits(&contents));
    machine.with_contents(alloc, contents)
}

fn made(rt: &impl Abort, alloc: Global, machine: &Machine, lists: &[&[bool]]) -> &'static Machine {
    let made = with_contents(rt, alloc, machine, lists).expect(rt, "a machine");
    keep(rt, alloc, made)
}

const FIRST: &[bool] = &[true, false];

const FOURTH: &[bool] = &[true];

const FIFTH: &[bool] = &[false, true, true];

// Other contents for the inverter loop, two of whose edges have no register.
const OTHERS: &[&[bool]] = &[FIRST, &[], &[], FOURTH, FIFTH];

// Its edges with these.
const WIRES: &[Wire<'static>] = &[
    (2, 0, 4, FIRST),
    (3, 0, 5, &[]),
    (4, 0, 3, &[]),
    (5, 0, 1, FOURTH),
    (5, 1, 4, FIFTH),
];

#[test]
fn other_contents_on_the_same_edges(rt: HostRuntime) {
    let machine = inverter_loop(&rt, rt.alloc());
    let made = made(&rt, rt.alloc(), machine, OTHERS);
    assert!(rt; made.vertex_count() == 6 && made.order() == machine.order());
    assert_edges(&rt, made, WIRES);
}

fn fits(rt: &impl Abort, alloc: Global, machine: &Machine, lists: &[&[bool]]) -> bool {
    machine.fits(&contents_of(rt, alloc, lists))
}

// Contents, edge by edge, and whether they fit those of the inverter loop.
const CONTENTS: &[(&[&[bool]], bool)] = &[
    (&[&[true], &[], &[], &[true], &[true]], true),
    (&[&[true], &[true], &[], &[true], &[true]], false),
    (&[&[true], &[], &[], &[true], &[]], false),
    (&[&[true], &[], &[], &[true]], false),
];

#[test]
fn contents_fit_edges(rt: HostRuntime) {
    let machine = inverter_loop(&rt, rt.alloc());
    for (row, (lists, wanted)) in CONTENTS.iter().enumerate() {
        assert_row(&rt, fits(&rt, rt.alloc(), machine, lists) == *wanted, row);
    }
}

#[test]
fn limit_of_other_contents(rt: HostRuntime) {
    let alloc = rt.alloc();
    let not = [VertexKind::Gate(Kind::Not)];
    let machine = machine(&rt, alloc, &not, &[(1, 0, 1, &[false])]);
    let bits = vec![in alloc; true; 65_537].expect(&rt, "bits");
    let bits = bits.as_slice();
    let refused = with_contents(&rt, alloc, machine, &[bits]).err();
    let refused = keep(&rt, alloc, refused);
    assert!(rt; is_limit(refused, Counted::Weight, 65_537, 65_536));
    let made = made(&rt, alloc, machine, &[&bits[1..]]);
    assert!(rt; is_edge(made, 0, (1, 0, 1, &bits[1..])));
}

#[test]
fn other_contents_beside_a_memory(rt: HostRuntime) {
    let alloc = rt.alloc();
    let machine = memory_with_two_ports(&rt, alloc);
    assert!(rt; has_memory_and_write(made(&rt, alloc, machine, &[&[]])));
}
