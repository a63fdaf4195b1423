//! Runs `cslow` on netlists of real size: each is slowed for two and for four contexts, fed the streams of all contexts in
//! turn, and answers each context what the netlist alone answers to that context's stream.
#![tactic(auto)]

use cs_io::{DirStore, Failed, MemSink, OutSink, Sink, Store};
use cs_run::run;
use std::alloc::{AllocError, AllocFailed};
use std::process::ExitCode;

// The netlists, each with four streams.
const DESIGNS: [&str; 3] = ["dpram", "lfsr32", "uart"];

const CONTEXTS: [u32; 2] = [2, 4];

fn main(rt: HostRuntime) -> ExitCode {
    for design in DESIGNS {
        for contexts in CONTEXTS {
            if compare(&rt, design, contexts).is_err() {
                return ExitCode::from(1);
            }
        }
    }
    ExitCode::from(0)
}

// A command failed, or memory ran out.
#[derive(Clone, Copy)]
struct Stopped;

impl From<AllocError> for Stopped {
    fn from(_: AllocError) -> Self {
        Stopped
    }
}

impl<T: Drop> From<AllocFailed<T>> for Stopped {
    fn from(_: AllocFailed<T>) -> Self {
        Stopped
    }
}

impl From<Failed> for Stopped {
    fn from(_: Failed) -> Self {
        Stopped
    }
}

// Slows a design for so many contexts and feeds it their streams in turn.
fn compare(rt: &HostRuntime, design: &str, contexts: u32) -> Result<(), Stopped> {
    let alloc = rt.alloc();
    answer(
        rt,
        &format!(in alloc; "slow {design}.json out cert delays -c {contexts}")?,
    )?;
    mix(rt, design, contexts)?;
    let response = answer(rt, "sim out mixed")?;
    DirStore::new(rt).write("response", response.bytes())?;
    for k in 0..contexts {
        compare_stream(rt, design, contexts, k)?;
    }
    Ok(())
}

// The streams of the first contexts of a design, in turn.
fn mix(rt: &HostRuntime, design: &str, contexts: u32) -> Result<(), Stopped> {
    let mut line = String::from_str(rt.alloc(), "mix mixed")?;
    for k in 0..contexts {
        line.push_str(&format!(in rt.alloc(); " {design}.{k}")?)?;
    }
    answer(rt, &line)?;
    Ok(())
}

// Whether one context was answered what the design alone answers to its stream.
fn compare_stream(rt: &HostRuntime, design: &str, contexts: u32, k: u32) -> Result<(), Stopped> {
    let alloc = rt.alloc();
    let own = answer(rt, &format!(in alloc; "part {k} {contexts} response")?)?;
    let alone = answer(rt, &format!(in alloc; "sim {design}.json {design}.{k}")?)?;
    let same = if own.bytes() == alone.bytes() {
        "same"
    } else {
        "other"
    };
    let line = format!(in alloc; "{design} -c {contexts} stream {k} {same}\n")?;
    OutSink::new(rt).put(line.as_bytes())?;
    Ok(())
}

// What the words of a line put, where their run is done.
fn answer(rt: &HostRuntime, line: &str) -> Result<MemSink, Stopped> {
    let mut words = Vec::new(rt.alloc());
    for word in line.split_whitespace() {
        words.push(String::from_str(rt.alloc(), word)?)?;
    }
    let mut out = MemSink::new(rt.alloc());
    match run(rt, &words, &mut DirStore::new(rt), &mut out) {
        0 => Ok(out),
        _ => Err(Stopped),
    }
}
