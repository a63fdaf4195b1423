// Netlists at and above the limits of a machine.
use crate::running::{assert_run, store_of};
use std::alloc::{AllocError, Global};
use std::process::Abort;

// The most cells of a document.
const MOST_CELLS: u32 = 8_192;

// One input, one output that reads the first gate, and so many inverters of the input, at most `MOST_CELLS`.
fn inverters(alloc: Global, count: u32) -> Result<String, AllocError> {
    let count = count.min(MOST_CELLS);
    let mut text = String::from_str(
        alloc,
        r#"{"modules":{"top":{"ports":{"a":{"direction":"input","bits":[2]},"y":{"direction":"output","bits":[3]}},"cells":{"#,
    )?;
    for i in 0..count {
        let comma = if i == 0 { "" } else { "," };
        let bit = i + 3;
        text.push_str(&format!(in alloc;
            r#"{comma}"g{i}":{{"type":"$_NOT_","connections":{{"A":[2],"Y":[{bit}]}}}}"#
        )?)?;
    }
    text.push_str("}}}}")?;
    Ok(text)
}

// So many registers in series from the input to the output, at most `MOST_CELLS`.
fn registers(alloc: Global, count: u32) -> Result<String, AllocError> {
    let count = count.min(MOST_CELLS);
    let last = count + 3;
    let mut text = format!(in alloc;
        r#"{{"modules":{{"top":{{"ports":{{"a":{{"direction":"input","bits":[3]}},"clk":{{"direction":"input","bits":[2]}},"y":{{"direction":"output","bits":[{last}]}}}},"cells":{{"#
    )?;
    for i in 0..count {
        let comma = if i == 0 { "" } else { "," };
        let bit = i + 3;
        let next = i + 4;
        text.push_str(&format!(in alloc;
            r#"{comma}"r{i}":{{"type":"$_DFF_P_","connections":{{"C":[2],"D":[{bit}],"Q":[{next}]}}}}"#
        )?)?;
    }
    text.push_str("}}}}")?;
    Ok(text)
}

#[test]
fn vertex_limit(rt: HostRuntime) {
    for (count, status, line) in [
        (4093, 0, ""),
        (4094, 8, "limit: vertices 4097 above 4096\n"),
    ] {
        let document = inverters(rt.alloc(), count).expect(&rt, "a document");
        let mut store = store_of(&rt, &[("in", document.as_str())]);
        assert_run(
            &rt,
            &mut store,
            "slow in out cert delays -c 2",
            status,
            line,
        );
    }
}

#[test]
fn weight_limit(rt: HostRuntime) {
    for (count, status, line) in [
        (4096, 0, ""),
        (4097, 8, "limit: weight 65552 above 65536\n"),
    ] {
        let document = registers(rt.alloc(), count).expect(&rt, "a document");
        let mut store = store_of(&rt, &[("in", document.as_str())]);
        assert_run(
            &rt,
            &mut store,
            "slow in out cert delays -c 16",
            status,
            line,
        );
    }
}

const LARGEST_MEMORY: &str = concat!(
    r#"{"modules":{"top":{"ports":{"a":{"direction":"input","bits":["#,
    "2,3,4,5,6,7,8,9,10,11,12,13,14,15,16,17,18,19,20,21",
    r#"]},"q":{"direction":"output","bits":[22,23,24,25]}},"cells":{"m":{"type":"$mem_v2","parameters":{"#,
    r#""SIZE":1048576,"ABITS":20,"WIDTH":4,"INIT":"x","RD_PORTS":1,"WR_PORTS":0,"RD_CLK_ENABLE":"0"},"connections":{"#,
    r#""RD_CLK":["x"],"RD_EN":["1"],"RD_ARST":["0"],"RD_SRST":["0"],"RD_ADDR":["#,
    "2,3,4,5,6,7,8,9,10,11,12,13,14,15,16,17,18,19,20,21",
    r#"],"RD_DATA":[22,23,24,25],"WR_CLK":[],"WR_EN":[],"WR_ADDR":[],"WR_DATA":[]}}}}}}"#,
);

#[test]
fn memory_limit(rt: HostRuntime) {
    for (words, status, line) in [
        ("slow in out cert delays -c 1", 0, ""),
        (
            "slow in out cert delays -c 2",
            8,
            "limit: memory bits 8388608 above 4194304\n",
        ),
    ] {
        let mut store = store_of(&rt, &[("in", LARGEST_MEMORY)]);
        assert_run(&rt, &mut store, words, status, line);
    }
}
