// The top call.
ghost use Rattle.cs_words.specs.Commands.{texts};
ghost use Rattle.cs_run.specs.Promises.{Promises};
ghost use Rattle.cs_run.specs.Reasons.{StopsAt};
ghost use Rattle.cs_run.specs.Runs.{RunEnds, run_of, words_fault};
ghost use Rattle.cs_run.specs.Worlds.{world};

use crate::commands::run_command;
use crate::finish::put_stop;
use crate::status::Status;
use crate::stop::{Stop, stop_at};
use cs_io::{Sink, Store};
use cs_report::Fault;
use cs_words::{WordError, read_words};
use std::alloc::Global;

/// Does what the words after the program's name say, and answers the exit status, which is the number of a `Status`.
/// Every file but those that the words name to be written stays, whatever the status. `Promises` has, by name, what each
/// status leaves and when it comes, and what each command does.
pub fn run<R: AllocGlobal, S: Store, O: Sink>(
    rt: &R,
    words: &[String],
    store: &mut S,
    out: &mut O,
) -> u8
    ensures { let old = world (S.state store.old) (O.state out.old) in
        let new = world (S.state store.new) (O.state out.new) in
        Promises (run_of (texts words.now) old new) result }
{
    let status = perform(rt.alloc(), words, store, out);
    status.code()
}

// Words that say no command are refused. All commands so far are over files.
fn perform<S: Store, O: Sink>(alloc: Global, words: &[String], store: &mut S, out: &mut O) -> Status
    ensures { RunEnds (run_of (texts words.now) (world (S.state store.old) (O.state out.old))
        (world (S.state store.new) (O.state out.new))) result }
{
    match read_words(alloc, words) {
        Ok(command) => run_command(alloc, &command, store, out),
        Err(error) => put_stop(&misused(alloc, error), out),
    }
}

// The refusal of words that say no command.
fn misused(alloc: Global, error: WordError) -> Stop
    ensures { StopsAt (words_fault error) result }
{
    match error {
        WordError::NoCommand => stop_at(alloc, Fault::NoCommand),
        WordError::BadWords { command } => stop_at(alloc, Fault::WordsOf(command)),
        WordError::BadNumber { name } => stop_at(alloc, Fault::NumberOf(name)),
        WordError::SameName => stop_at(alloc, Fault::SameName),
        WordError::NoMemory => Stop::OutOfMemory,
    }
}
