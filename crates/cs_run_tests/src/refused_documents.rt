// Documents that are refused, each with its status and its line.
use crate::documents::{INVERTER, MEMORY, REGISTER, RESETS, XOR_FEEDBACK};
use crate::running::assert_run;
use cs_io::MemStore;
use std::alloc::AllocGlobal;
use std::process::Abort;

const SLOW: &str = "slow in out cert delays -c 2";

// A document in which a part is exchanged for another, and with which status and line that is refused.
const REFUSED: [(&str, &str, &str, u8, &str); 21] = [
    (
        REGISTER,
        r#""$_DFF_P_""#,
        r#""$_DFF_PP0_""#,
        6,
        "netlist: asynchronous cell \"r\" of type \"$_DFF_PP0_\"\n",
    ),
    (
        REGISTER,
        r#"{"r":{"type":"$_DFF_P_""#,
        r#"{"z":{"type":"$and","connections":{}},"r":{"type":"$_DFF_PP0_""#,
        6,
        "netlist: not fine cell \"z\" of type \"$and\"\n",
    ),
    (
        INVERTER,
        "$_NOT_",
        "gate",
        6,
        "netlist: unknown cell \"g\" of type \"gate\"\n",
    ),
    (INVERTER, r#""A":[2],"#, "", 6, "netlist: pins of \"g\"\n"),
    (
        INVERTER,
        r#""direction":"input""#,
        r#""direction":"inout""#,
        6,
        "netlist: inout port \"a\"\n",
    ),
    (
        INVERTER,
        r#""A":[2]"#,
        r#""A":["z"]"#,
        6,
        "netlist: constant z at \"g\"\n",
    ),
    (
        INVERTER,
        r#""A":[2],"Y":[3]"#,
        r#""A":[3],"Y":[2]"#,
        6,
        "netlist: two drivers of bit 2\n",
    ),
    // The least of those that are driven twice is told.
    (
        INVERTER,
        r#""ports":{"#,
        r#""ports":{"b":{"direction":"input","bits":[7,9,4]},"c":{"direction":"input","bits":[9,7,7]},"#,
        6,
        "netlist: two drivers of bit 7\n",
    ),
    (
        REGISTER,
        r#""C":[2]"#,
        r#""C":["0"]"#,
        6,
        "netlist: clock 0 is no input\n",
    ),
    (
        XOR_FEEDBACK,
        r#"{"r":"#,
        r#"{"s":{"type":"$_DFF_P_","connections":{"C":[3],"D":[5],"Q":[6]}},"r":"#,
        6,
        "netlist: two clocks 2 and 3\n",
    ),
    (
        XOR_FEEDBACK,
        r#"{"r":"#,
        r#"{"s":{"type":"$_DFF_N_","connections":{"C":[2],"D":[5],"Q":[6]}},"r":"#,
        6,
        "netlist: other clock edge at \"s\"\n",
    ),
    (
        XOR_FEEDBACK,
        r#"{"r":"#,
        r#"{"g":{"type":"$_NOT_","connections":{"A":[2],"Y":[6]}},"r":"#,
        6,
        "netlist: clock bit 2 is read as data\n",
    ),
    (
        REGISTER,
        r#""netnames":{"#,
        r#""netnames":{"r":{"bits":[4],"attributes":{"init":"0"}},"#,
        6,
        "netlist: two starts at bit 4\n",
    ),
    // The least of those that are given two starts is told.
    (
        RESETS,
        r#""netnames":{"#,
        r#""netnames":{"r":{"bits":[7,6],"attributes":{"init":"00"}},"#,
        6,
        "netlist: two starts at bit 6\n",
    ),
    (
        MEMORY,
        r#""OFFSET":0"#,
        r#""OFFSET":1"#,
        6,
        "netlist: memory \"m\" by OFFSET\n",
    ),
    (
        MEMORY,
        r#""RD_TRANSPARENCY_MASK":"0""#,
        r#""RD_TRANSPARENCY_MASK":"1""#,
        6,
        "netlist: memory \"m\" by RD_TRANSPARENCY_MASK\n",
    ),
    (
        INVERTER,
        r#""A":[2],"Y":[3]}}"#,
        r#""A":[4],"Y":[3]}},"h":{"type":"$_NOT_","connections":{"A":[3],"Y":[4]}}"#,
        6,
        "netlist: loop \"g\" \"h\"\n",
    ),
    (
        INVERTER,
        r#"{"a":"#,
        r#"{"cslow_clk":"#,
        6,
        "netlist: reserved port \"cslow_clk\"\n",
    ),
    (r#"{"modules":{}}"#, "", "", 6, "netlist: no top module\n"),
    (
        r#"{"modules":[]}"#,
        "",
        "",
        5,
        "document: bad shape at /modules\n",
    ),
    (
        MEMORY,
        r#""ABITS":2},"connections":{"RD_ADDR":[3,4],"WR_ADDR":[3,4]"#,
        concat!(
            r#""ABITS":21},"connections":{"#,
            r#""RD_ADDR":[3,3,3,3,3,3,3,3,3,3,3,3,3,3,3,3,3,3,3,3,3],"#,
            r#""WR_ADDR":[3,3,3,3,3,3,3,3,3,3,3,3,3,3,3,3,3,3,3,3,3]"#,
        ),
        8,
        "limit: address bits 21 above 20\n",
    ),
];

fn assert_refused<R: AllocGlobal + Abort>(rt: &R, document: &[u8], status: u8, line: &str) {
    let mut store = MemStore::new(rt.alloc());
    assert!(rt; store.add("in", document).is_ok());
    assert_run(rt, &mut store, SLOW, status, line);
    assert!(rt; store.file("out").is_none(), "{line}");
}

#[test]
fn refused(rt: HostRuntime) {
    for (document, part, other, status, line) in REFUSED {
        let document = document
            .replace(rt.alloc(), part, other)
            .expect(&rt, "a document");
        assert_refused(&rt, document.as_str().as_bytes(), status, line);
    }
}

fn lists_in_each_other<R: AllocGlobal + Abort>(rt: &R, depth: usize) -> String {
    let mut lists = "[".repeat(rt.alloc(), depth).expect(rt, "a list");
    let ends = "]".repeat(rt.alloc(), depth).expect(rt, "its ends");
    assert!(rt; lists.push_str(ends.as_str()).is_ok());
    lists
}

// A document is cut short at each place, and one has 200 lists in each other.
#[test]
fn broken(rt: HostRuntime) {
    let register = REGISTER.as_bytes();
    for length in 0..register.len() {
        assert_refused(&rt, &register[..length], 5, "document: not json\n");
    }
    let lists = lists_in_each_other(&rt, 200);
    assert_refused(&rt, lists.as_str().as_bytes(), 5, "document: not json\n");
}
