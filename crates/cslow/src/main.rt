//! Turns a netlist into one of interleaved hardware threads.
#![tactic(auto)]

use cs_io::{DirStore, OutSink};
use cs_run::run;
use std::alloc::AllocError;
use std::env;
use std::process::ExitCode;

// The words weren't given.
const NO_WORDS: u8 = 17;

fn main(rt: HostRuntime) -> ExitCode {
    let Ok(words) = words(&rt) else {
        return ExitCode::from(NO_WORDS);
    };
    let mut store = DirStore::new(&rt);
    let mut out = OutSink::new(&rt);
    ExitCode::from(run(&rt, &words, &mut store, &mut out))
}

// The words after the program's name.
fn words(rt: &HostRuntime) -> Result<Vec<String>, NoWords> {
    let Ok(args) = env::args(rt) else {
        return Err(NoWords);
    };
    match args.skip(1).collect(rt.alloc()) {
        Ok(words) => Ok(words),
        Err(AllocError) => Err(NoWords),
    }
}

#[derive(Clone, Copy)]
struct NoWords;
