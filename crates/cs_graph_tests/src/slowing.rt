// Machines with each register once for each context.
use crate::building::{Wire, assert_row, keep, machine};
use crate::clocks::values_of;
use crate::machines::{assert_edges, has_memory_and_write, inverter_loop, memory_with_two_ports};
use cs_base::{Contexts, Counted};
use cs_cells::Kind;
use cs_graph::{Machine, VertexKind};
use cs_slow::{SlowError, slow};
use std::alloc::Global;
use std::process::Abort;

fn slowed(
    rt: &impl Abort,
    alloc: Global,
    machine: &Machine,
    contexts: u64,
) -> Result<Machine, SlowError> {
    let contexts = Contexts::new(contexts).expect(rt, "contexts");
    slow(alloc, machine, contexts)
}

fn made(rt: &impl Abort, alloc: Global, machine: &Machine, contexts: u64) -> &'static Machine {
    let made = slowed(rt, alloc, machine, contexts).expect(rt, "a machine");
    keep(rt, alloc, made)
}

const NOT: VertexKind = VertexKind::Gate(Kind::Not);

// How many contexts, and what an inverter that feeds itself has in its registers then.
const STARTS: &[(u64, &[bool])] = &[
    (3, &[true, true, true, false, false, false]),
    (2, &[true, true, false, false]),
    (1, &[true, false]),
];

#[test]
fn each_content_for_each_context(rt: HostRuntime) {
    let alloc = rt.alloc();
    let inverter = machine(&rt, alloc, &[NOT], &[(1, 0, 1, &[true, false])]);
    for (contexts, starts) in STARTS {
        let made = made(&rt, alloc, inverter, *contexts);
        assert!(rt; made.vertex_count() == 2);
        assert_edges(&rt, made, &[(1, 0, 1, starts)]);
    }
}

const TWO: &[bool] = &[false, false];

// The edges of the inverter loop for two contexts.
const WIRES: &[Wire<'static>] = &[
    (2, 0, 4, TWO),
    (3, 0, 5, &[]),
    (4, 0, 3, &[]),
    (5, 0, 1, TWO),
    (5, 1, 4, TWO),
];

#[test]
fn edges_without_a_register(rt: HostRuntime) {
    let machine = inverter_loop(&rt, rt.alloc());
    let made = made(&rt, rt.alloc(), machine, 2);
    assert!(rt; made.vertex_count() == 6 && made.order() == machine.order());
    assert_edges(&rt, made, WIRES);
}

// Two inverters that feed themselves, the first through so many registers and the second through one.
fn two_inverters(rt: &impl Abort, alloc: Global, registers: usize) -> &'static Machine {
    let starts = vec![in alloc; true; registers].expect(rt, "starts");
    let wires: [Wire<'_>; 2] = [(1, 0, 1, starts.as_slice()), (2, 0, 2, &[true])];
    machine(rt, alloc, &[NOT, NOT], &wires)
}

// How many registers there would be, where they are too many.
fn too_many(rt: &impl Abort, made: &Result<Machine, SlowError>) -> Option<u64> {
    match made {
        Ok(_) => None,
        Err(SlowError::Limit(fault)) => {
            assert!(rt; fault.what == Counted::Weight && fault.most == 65_536);
            Some(fault.found)
        }
        Err(SlowError::NoMemory) => panic!(rt; "no memory"),
    }
}

// Registers, contexts, and how many registers these would be where they are too many.
const REGISTERS: &[(usize, u64, Option<u64>)] = &[
    (4_095, 16, None),
    (4_096, 16, Some(65_552)),
    (21_844, 3, None),
    (21_845, 3, Some(65_538)),
    (65_535, 1, None),
    (65_535, 16, Some(1_048_576)),
];

#[test]
fn limit_of_registers(rt: HostRuntime) {
    let alloc = rt.alloc();
    for (row, (registers, contexts, wanted)) in REGISTERS.iter().enumerate() {
        let machine = two_inverters(&rt, alloc, *registers);
        let made = keep(&rt, alloc, slowed(&rt, alloc, machine, *contexts));
        assert_row(&rt, too_many(&rt, made) == *wanted, row);
    }
}

#[test]
fn a_slowed_machine_keeps_its_memory(rt: HostRuntime) {
    let alloc = rt.alloc();
    let machine = memory_with_two_ports(&rt, alloc);
    assert!(rt; has_memory_and_write(made(&rt, alloc, machine, 4)));
}

// An input 1, an output 2, and a gate 3 of the input and of its own value, which a register with this start holds.
fn with_feedback(
    rt: &impl Abort,
    alloc: Global,
    gate: Kind,
    start: bool,
    shown: &[bool],
) -> &'static Machine {
    let kinds = [
        VertexKind::Input,
        VertexKind::Output,
        VertexKind::Gate(gate),
    ];
    let wires: [Wire<'_>; 3] = [(2, 0, 3, shown), (3, 0, 1, &[]), (3, 1, 3, &[start])];
    machine(rt, alloc, &kinds, &wires)
}

fn bits(rt: &impl Abort, alloc: Global, text: &str) -> Vec<bool> {
    let mut bits = Vec::new(alloc);
    for byte in text.as_bytes() {
        bits.push(*byte == b'1').expect(rt, "a bit");
    }
    bits
}

// Whether the output shows these bits where the input has those.
fn shows(rt: &impl Abort, alloc: Global, machine: &Machine, inputs: &str, outputs: &str) -> bool {
    let inputs = bits(rt, alloc, inputs);
    let shown = values_of(rt, alloc, machine, inputs.as_slice(), 2);
    shown == bits(rt, alloc, outputs)
}

// Two contexts in turn, and each of them alone.
fn assert_turns(
    rt: &impl Abort,
    alloc: Global,
    machine: &Machine,
    inputs: [&str; 3],
    outputs: [&str; 3],
) {
    let made = made(rt, alloc, machine, 2);
    assert!(rt; shows(rt, alloc, made, inputs[0], outputs[0]));
    assert!(rt; shows(rt, alloc, machine, inputs[1], outputs[1]));
    assert!(rt; shows(rt, alloc, machine, inputs[2], outputs[2]));
}

#[test]
fn contexts_in_turn(rt: HostRuntime) {
    let alloc = rt.alloc();
    let xor = with_feedback(&rt, alloc, Kind::Xor, false, &[false]);
    let inputs = ["101110", "111", "010"];
    assert_turns(&rt, alloc, xor, inputs, ["001001", "010", "001"]);
    let and = with_feedback(&rt, alloc, Kind::And, true, &[]);
    let inputs = ["110111", "101", "111"];
    assert_turns(&rt, alloc, and, inputs, ["110101", "100", "111"]);
}
