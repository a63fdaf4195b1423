// Which delays a table gives a machine, and which types lack one.
use crate::lines::{delays_line, refusal};
use cs_base::{Sequence, VertexId};
use cs_cells::Kind;
use cs_delay::{assign, read_delays};
use cs_graph::{Machine, MachineBuilder, Memory, VertexKind};
use std::alloc::{AllocError, Global};
use std::process::Abort;

const START: [bool; 8] = [false; 8];

// A Read 1 and a Write 2 of memory 0.
fn with_two_ports(rt: &impl Abort, alloc: Global) -> MachineBuilder {
    let mut builder = MachineBuilder::new(alloc).expect(rt, "a builder");
    let memory = Memory {
        size: 4,
        words: 4,
        abits: 2,
        width: 2,
        start: Sequence::from_vec(START.to_vec(alloc).expect(rt, "a start")),
    };
    let memory = builder.add_memory(memory).expect(rt, "a memory");
    let read = builder.add_vertex(alloc, VertexKind::Read { memory, port: 0 });
    let _ = read.expect(rt, "a read port");
    let write = builder.add_vertex(alloc, VertexKind::Write { memory, port: 0 });
    let _ = write.expect(rt, "a write port");
    builder
}

// The number of pins of each vertex behind the Host.
const PINS: [u32; 5] = [2, 6, 1, 2, 1];

fn tie_all(rt: &impl Abort, builder: &mut MachineBuilder) {
    for (v, count) in PINS.iter().enumerate() {
        let v = VertexId::new(v as u32 + 1);
        for pin in 0..*count {
            assert!(rt; builder.is_open(v, pin));
            builder.tie(v, pin, false);
        }
    }
}

// A Read of two address bits, a Write, an inverter, an exclusive or and an output, every pin tied.
fn machine(rt: &impl Abort, alloc: Global) -> Machine {
    let mut builder = with_two_ports(rt, alloc);
    builder.keeps();
    let not = builder.add_vertex(alloc, VertexKind::Gate(Kind::Not));
    let _ = not.expect(rt, "an inverter");
    builder.keeps();
    let xor = builder.add_vertex(alloc, VertexKind::Gate(Kind::Xor));
    let _ = xor.expect(rt, "an exclusive or");
    builder.keeps();
    let output = builder.add_vertex(alloc, VertexKind::Output);
    let _ = output.expect(rt, "an output");
    tie_all(rt, &mut builder);
    builder.finish(alloc).expect(rt, "a machine")
}

fn line_of(alloc: Global, text: &str, machine: &Machine) -> Result<String, AllocError> {
    let assigned = match read_delays(alloc, text.as_bytes()) {
        Ok(table) => assign(alloc, &table, machine),
        Err(error) => Err(error),
    };
    match assigned {
        Ok(delays) => delays_line(alloc, &delays),
        Err(error) => refusal(alloc, &error),
    }
}

const ROWS: [(&str, &str); 11] = [
    (
        r#"{"version":2,"delays":{"$_NOT_":2,"$_XOR_":{"A":5,"B":1},"$mem_v2":6}}"#,
        "0: 6:6,6, 0:0,0,0,0,0,0, 2:2, 5:5,1, 0:0, ",
    ),
    (
        r#"{"version":2,"delays":{"$_NOT_":2,"$_XOR_":5,"$mem_v2":6}}"#,
        "0: 6:6,6, 0:0,0,0,0,0,0, 2:2, 5:5,5, 0:0, ",
    ),
    (
        r#"{"version":1,"delays":{},"default":2}"#,
        "0: 2:2,2, 0:0,0,0,0,0,0, 2:2, 2:2,2, 0:0, ",
    ),
    (
        r#"{"version":2,"delays":{"$_NOT_":0,"$_XOR_":{"B":9},"$mem_v2":{"RD_ADDR":3}},"default":4}"#,
        "0: 3:3,3, 0:0,0,0,0,0,0, 0:0, 9:4,9, 0:0, ",
    ),
    (
        r#"{"version":2,"delays":{"$_AND_":7,"$mem_v2":{"RD_DATA":3}},"default":4}"#,
        "0: 4:4,4, 0:0,0,0,0,0,0, 4:4, 4:4,4, 0:0, ",
    ),
    (r#"{"version":1,"delays":{}}"#, "none for $_NOT_"),
    (r#"{"version":1,"delays":{"$_XOR_":1}}"#, "none for $_NOT_"),
    (r#"{"version":1,"delays":{"$_NOT_":1}}"#, "none for $_XOR_"),
    (
        r#"{"version":2,"delays":{"$_NOT_":1,"$_XOR_":{"A":1,"Q":1}}}"#,
        "none for $_XOR_",
    ),
    (
        r#"{"version":1,"delays":{"$_NOT_":1,"$_XOR_":1}}"#,
        "none for $mem_v2",
    ),
    (
        r#"{"version":2,"delays":{"$_NOT_":1,"$_XOR_":1,"$mem_v2":{"RD_DATA":3}}}"#,
        "none for $mem_v2",
    ),
];

#[test]
fn delays_of_a_machine(rt: HostRuntime) {
    let alloc = rt.alloc();
    let machine = machine(&rt, alloc);
    for (text, wanted) in ROWS {
        let found = line_of(alloc, text, &machine).expect(&rt, "a line");
        assert!(rt; found.as_str() == wanted, "{text}: {found}");
    }
}
