// Which tables bytes say, and where they are refused.
use crate::lines::{refusal, table_line};
use cs_delay::read_delays;
use std::alloc::{AllocError, Global};
use std::process::Abort;

fn line_of(alloc: Global, text: &str) -> Result<String, AllocError> {
    match read_delays(alloc, text.as_bytes()) {
        Ok(table) => table_line(alloc, &table),
        Err(error) => refusal(alloc, &error),
    }
}

fn assert_lines(rt: &impl Abort, alloc: Global, rows: &[(&str, &str)]) {
    for (text, wanted) in rows {
        let found = line_of(alloc, text).expect(rt, "a line");
        assert!(rt; found.as_str() == *wanted, "{text}: {found}");
    }
}

const TABLES: [(&str, &str); 9] = [
    (r#"{"version":1,"delays":{}}"#, "1 -"),
    (r#"{"version":1,"delays":{},"default":2}"#, "1 2"),
    (
        r#"{"version":2,"delays":{"$_XOR_":{"B":1,"A":5},"$_NOT_":2}}"#,
        "2 - $_NOT_ 2 $_XOR_ A=5 B=1",
    ),
    (
        r#"{"version":2,"delays":{"$_NOT_":2,"$_XOR_":5}}"#,
        "2 - $_NOT_ 2 $_XOR_ 5",
    ),
    (
        r#"{"version":1,"delays":{"$_NOT_":1000000},"default":1000000}"#,
        "1 1000000 $_NOT_ 1000000",
    ),
    (
        r#"{"version":1,"delays":{"$_NOT_":0,"none":7}}"#,
        "1 - $_NOT_ 0 none 7",
    ),
    (
        r#"{"version":2,"delays":{"none":{},"x":{"Q":1}}}"#,
        "2 - none x Q=1",
    ),
    (
        r#"{"version":1,"delays":{"a":1,"a":2},"more":[]}"#,
        "1 - a 2",
    ),
    (r#" {"delays":{"a":9},"version":2} "#, "2 - a 9"),
];

#[test]
fn tables(rt: HostRuntime) {
    assert_lines(&rt, rt.alloc(), &TABLES);
}

const SHAPES: [(&str, &str); 20] = [
    ("", "not json"),
    (r#"{"version":1,"delays":{}"#, "not json"),
    ("[]", "bad shape at "),
    ("{}", "bad shape at /delays"),
    (r#"{"delays":[],"version":1}"#, "bad shape at /delays"),
    (r#"{"delays":{}}"#, "bad shape at /version"),
    (r#"{"delays":{},"version":3}"#, "bad shape at /version"),
    (r#"{"delays":{},"version":1.0}"#, "bad shape at /version"),
    (r#"{"default":null,"delays":[]}"#, "bad shape at /default"),
    (r#"{"default":-1,"version":0}"#, "bad shape at /default"),
    (
        r#"{"delays":{"$_NOT_":"1"},"version":0}"#,
        "bad shape at /delays/$_NOT_",
    ),
    (
        r#"{"delays":{"$_NOT_":{"A":1}},"version":1}"#,
        "bad shape at /delays/$_NOT_",
    ),
    (
        r#"{"delays":{"$_NOT_":{"A":1}},"version":2.0}"#,
        "bad shape at /delays/$_NOT_",
    ),
    (
        r#"{"delays":{"$_NOT_":1.0},"version":1}"#,
        "bad shape at /delays/$_NOT_",
    ),
    (
        r#"{"delays":{"$_NOT_":1e2},"version":1}"#,
        "bad shape at /delays/$_NOT_",
    ),
    (
        r#"{"delays":{"$_NOT_":-0},"version":1}"#,
        "bad shape at /delays/$_NOT_",
    ),
    (
        r#"{"delays":{"$_NOT_":18446744073709551616},"version":1}"#,
        "bad shape at /delays/$_NOT_",
    ),
    (
        r#"{"delays":{"a/b~c":[]},"version":2}"#,
        "bad shape at /delays/a~1b~0c",
    ),
    (
        r#"{"delays":{"$_XOR_":{"A":1,"B":null}},"version":2}"#,
        "bad shape at /delays/$_XOR_/B",
    ),
    (
        r#"{"delays":{"x":{"Q":[],"R":1}},"version":2}"#,
        "bad shape at /delays/x/Q",
    ),
];

#[test]
fn shapes(rt: HostRuntime) {
    assert_lines(&rt, rt.alloc(), &SHAPES);
}

const BOUNDS: [(&str, &str); 7] = [
    (
        r#"{"version":1,"delays":{"$_NOT_":1000001}}"#,
        "too large: $_NOT_",
    ),
    (
        r#"{"version":1,"delays":{"$_NOT_":4294967296}}"#,
        "too large: $_NOT_",
    ),
    (
        r#"{"version":1,"delays":{"$_NOT_":18446744073709551615}}"#,
        "too large: $_NOT_",
    ),
    (
        r#"{"version":2,"delays":{"a":1,"b":{"A":1,"Q":1000001},"c":2000000}}"#,
        "too large: b",
    ),
    (
        r#"{"version":1,"delays":{"a":1000001},"default":1000001}"#,
        "too large: default",
    ),
    (
        r#"{"version":1,"delays":{"$_AND_":1000001,"$_NOT_":"x"}}"#,
        "bad shape at /delays/$_NOT_",
    ),
    (
        r#"{"version":3,"delays":{},"default":1000001}"#,
        "bad shape at /version",
    ),
];

#[test]
fn bounds(rt: HostRuntime) {
    assert_lines(&rt, rt.alloc(), &BOUNDS);
}
