// Which images bytes say, and where they are refused.
use crate::lines::{images_line, refusal};
use cs_base::Contexts;
use cs_images::read_images;
use cs_json::read_document;
use cs_net::{Netlist, accept};
use std::alloc::{AllocError, Global};
use std::process::Abort;

// A gate `g`, a memory `m` of four words of two bits, and a memory `n` whose address reaches two words of one bit.
const DOCUMENT: &str = r#"{"modules":{"top":{
"ports":{"a":{"direction":"input","bits":[2]},"q":{"direction":"output","bits":[3]}},
"cells":{"g":{"type":"$_NOT_","connections":{"A":[2],"Y":[3]}},
"m":{"type":"$mem_v2","parameters":{"SIZE":4,"ABITS":2,"WIDTH":2,"INIT":"00001000","RD_PORTS":0,"WR_PORTS":0},
"connections":{"RD_CLK":[],"RD_EN":[],"RD_ARST":[],"RD_SRST":[],"RD_ADDR":[],"RD_DATA":[],
"WR_CLK":[],"WR_EN":[],"WR_ADDR":[],"WR_DATA":[]}},
"n":{"type":"$mem_v2","parameters":{"SIZE":3,"ABITS":1,"WIDTH":1,"RD_PORTS":0,"WR_PORTS":0},
"connections":{"RD_CLK":[],"RD_EN":[],"RD_ARST":[],"RD_SRST":[],"RD_ADDR":[],"RD_DATA":[],
"WR_CLK":[],"WR_EN":[],"WR_ADDR":[],"WR_DATA":[]}}}}}}"#;

fn netlist(rt: &impl Abort, alloc: Global) -> Netlist {
    let document = read_document(alloc, DOCUMENT.as_bytes()).expect(rt, "a document");
    accept(alloc, &document, None).expect(rt, "a netlist")
}

fn line_of(
    alloc: Global,
    text: &str,
    net: &Netlist,
    contexts: Contexts,
) -> Result<String, AllocError> {
    match read_images(alloc, text.as_bytes(), net, contexts) {
        Ok(images) => images_line(alloc, &images),
        Err(error) => refusal(alloc, &error),
    }
}

fn assert_lines(rt: &impl Abort, alloc: Global, rows: &[(u64, &str, &str)]) {
    let net = netlist(rt, alloc);
    for (count, text, wanted) in rows {
        let contexts = Contexts::new(*count).expect(rt, "contexts");
        let found = line_of(alloc, text, &net, contexts).expect(rt, "a line");
        assert!(rt; found.as_str() == *wanted, "{text}: {found}");
    }
}

const IMAGES: [(u64, &str, &str); 9] = [
    (
        2,
        r#"{"images":{"m":["00001000","00000100"]},"version":1}"#,
        " 00010000 00100000; -;",
    ),
    (
        2,
        r#"{"version":1,"images":{"n":["1","10"],"m":["1","111111111"]}}"#,
        " 10000000 11111111; 10 01;",
    ),
    (
        2,
        r#"{"images":{"m":["","x1z"]},"version":1}"#,
        " 00000000 01000000; -;",
    ),
    (
        2,
        r#"{"images":{"m":["1é1","2 1"]},"version":1}"#,
        " 10100000 10000000; -;",
    ),
    (
        3,
        r#"{"images":{"n":["100","010","001"]},"version":1}"#,
        " -; 00 01 10;",
    ),
    (1, r#"{"images":{"n":["1"]},"version":1}"#, " -; 10;"),
    (2, r#"{"images":{},"version":1}"#, " -; -;"),
    (
        1,
        r#"{"images":{"n":["0"],"n":["1"]},"version":1}"#,
        " -; 10;",
    ),
    (
        1,
        r#" {"more":[],"images":{"n":["1"]},"version":1} "#,
        " -; 10;",
    ),
];

#[test]
fn images(rt: HostRuntime) {
    assert_lines(&rt, rt.alloc(), &IMAGES);
}

const SHAPES: [(u64, &str, &str); 18] = [
    (2, "", "not json"),
    (2, r#"{"images":{},"version":1"#, "not json"),
    (2, "[]", "bad shape at "),
    (2, "{}", "bad shape at /images"),
    (2, r#"{"version":2}"#, "bad shape at /images"),
    (2, r#"{"images":[],"version":1}"#, "bad shape at /images"),
    (
        2,
        r#"{"images":{"m":{}},"version":1}"#,
        "bad shape at /images/m",
    ),
    (
        2,
        r#"{"images":{"a/b~c":"0"},"version":1}"#,
        "bad shape at /images/a~1b~0c",
    ),
    (
        2,
        r#"{"images":{"m":["0",1]},"version":1}"#,
        "bad shape at /images/m/1",
    ),
    (
        2,
        r#"{"images":{"z":[],"m":[null]},"version":2}"#,
        "bad shape at /images/m/0",
    ),
    (2, r#"{"images":{}}"#, "bad shape at /version"),
    (
        2,
        r#"{"images":{"g":[]},"version":2}"#,
        "bad shape at /version",
    ),
    (2, r#"{"images":{},"version":1.0}"#, "bad shape at /version"),
    (2, r#"{"images":{},"version":"1"}"#, "bad shape at /version"),
    (2, r#"{"images":{},"version":-1}"#, "bad shape at /version"),
    (
        2,
        r#"{"images":{},"version":18446744073709551617}"#,
        "bad shape at /version",
    ),
    (2, r#"{"images":null,"version":0}"#, "bad shape at /images"),
    (2, "null", "bad shape at "),
];

#[test]
fn shapes(rt: HostRuntime) {
    assert_lines(&rt, rt.alloc(), &SHAPES);
}

const FAULTS: [(u64, &str, &str); 8] = [
    (2, r#"{"images":{"m":["0"]},"version":1}"#, "m has 1 images"),
    (2, r#"{"images":{"g":[]},"version":1}"#, "no memory g"),
    (
        2,
        r#"{"images":{"m":["0","0","0"]},"version":1}"#,
        "m has 3 images",
    ),
    (1, r#"{"images":{"n":[]},"version":1}"#, "n has 0 images"),
    (
        2,
        r#"{"images":{"z":["0","0"],"n":[]},"version":1}"#,
        "n has 0 images",
    ),
    (
        2,
        r#"{"images":{"m":[],"a":["0","0"]},"version":1}"#,
        "no memory a",
    ),
    (
        2,
        r#"{"images":{"m":["0","0"],"mm":["0","0"],"n":[]},"version":1}"#,
        "no memory mm",
    ),
    (2, r#"{"images":{"":["0","0"]},"version":1}"#, "no memory "),
];

#[test]
fn faults(rt: HostRuntime) {
    assert_lines(&rt, rt.alloc(), &FAULTS);
}
