// Commands over files: each reads its files, and answers what they hold.
ghost use Rattle.std.specs.Prelude.{◌≡◌, ◌++◌, ◌∷◌, [], IfOk, length};
ghost use Rattle.cs_words.specs.Commands.{IsWithin};
ghost use Rattle.cs_run.specs.Commands.{Makes, MakesRight, Refuses, reads_of};
ghost use Rattle.cs_run.specs.Inputs.{AreFew, all_bytes, file, files_of};
ghost use Rattle.cs_run.specs.Reasons.{Answers};
ghost use Rattle.cs_run.specs.Runs.{HasOutcome, Ran};
ghost use Rattle.cs_run.specs.Slow.{slow_reads};
ghost use Rattle.cs_run.specs.Worlds.{world};

use crate::context::answer_sim_context;
use crate::finish::{carry_out, put_stop};
use crate::inputs::{FileName, Input, Role, bytes_of, file, found_bytes, read_inputs};
use crate::mixing::answer_mix;
use crate::own_texts::answer_own;
use crate::parting::answer_part;
use crate::reply::Reply;
use crate::simulation::answer_sim;
use crate::slow::answer_slow;
use crate::status::Status;
use crate::stop::Stop;
use crate::upgrading::answer_upgrade;
use cs_base::{Sequence, Text};
use cs_io::{Sink, Store};
use cs_report::{help_text, version_text};
use cs_words::{Command, SlowWords};
use std::alloc::{AllocError, Global};

// The files that a command reads, in order.
fn reads_of(alloc: Global, command: &Command) -> Result<Sequence<FileName>, AllocError>
    ensures { IfOk result (λ reads. reads ≡ reads_of command.now) }
{
    match command {
        Command::Slow(words) => slow_reads(alloc, words),
        Command::Sim(words) => {
            let reads = one_file(alloc, Role::Net, &words.net)?;
            and_file(alloc, reads, Role::Stim, &words.stim)
        },
        Command::SimContext(words) => {
            let reads = one_file(alloc, Role::Net, &words.net)?;
            let reads = and_file(alloc, reads, Role::Stim, &words.stim)?;
            and_file(alloc, reads, Role::Images, &words.images)
        },
        Command::Mix(words) => files_of(alloc, Role::Stream, words.streams.as_slice()),
        Command::Part(words) => one_file(alloc, Role::File, &words.file),
        Command::Upgrade(words) => one_file(alloc, Role::Paper, &words.old),
        Command::Help | Command::Version => Ok(Sequence::new(alloc)),
    }
}

// The answer of a command to what was read of its files.
fn answer_inputs(alloc: Global, command: &Command, inputs: &[Input]) -> Result<Reply, Stop>
    requires within { IsWithin command.now }
    requires all { length inputs.now ≡ length (reads_of command.now) }
    requires few { AreFew (all_bytes inputs.now) }
    ensures { Answers (λ reply. Makes command.now inputs.now reply × MakesRight command.now inputs.now)
        (Refuses command.now inputs.now) result }
{
    match command {
        Command::Slow(words) => answer_slow(
            alloc,
            words,
            bytes_of(Role::In, inputs),
            found_bytes(Role::Images, inputs),
        ),
        Command::Sim(_) => answer_sim(
            alloc,
            bytes_of(Role::Net, inputs),
            bytes_of(Role::Stim, inputs),
        ),
        Command::SimContext(words) => answer_sim_context(
            alloc,
            words,
            bytes_of(Role::Net, inputs),
            bytes_of(Role::Stim, inputs),
            bytes_of(Role::Images, inputs),
        ),
        Command::Mix(words) => answer_mix(alloc, words, inputs),
        Command::Part(words) => answer_part(alloc, words, bytes_of(Role::File, inputs)),
        Command::Upgrade(words) => answer_upgrade(alloc, words, bytes_of(Role::Paper, inputs)),
        Command::Help => answer_own(alloc, help_text()),
        Command::Version => answer_own(alloc, version_text()),
    }
}

/// Reads the files of a command, and says what is to be written and put.
pub fn answer_command<S: Store>(
    alloc: Global,
    command: &Command,
    store: &mut S,
) -> Result<Reply, Stop>
    requires { IsWithin command.now }
    ensures { HasOutcome command.now (S.state store.old) (S.state store.new) result }
{
    let reads = reads_of(alloc, command)?;
    let inputs = read_inputs(alloc, reads.as_slice(), store)?;
    answer_inputs(alloc, command, inputs.as_slice())
}

/// Does what a command says over the files of a store, and answers the status.
pub fn run_command<S: Store, O: Sink>(
    alloc: Global,
    command: &Command,
    store: &mut S,
    out: &mut O,
) -> Status
    requires { IsWithin command.now }
    ensures { Ran command.now (world (S.state store.old) (O.state out.old))
        (world (S.state store.new) (O.state out.new)) result }
{
    match answer_command(alloc, command, store) {
        Ok(reply) => carry_out(&reply, store, out),
        Err(stop) => put_stop(&stop, out),
    }
}

// IN, and IMAGES where it is named.
fn slow_reads(alloc: Global, words: &SlowWords) -> Result<Sequence<FileName>, AllocError>
    ensures { IfOk result (λ reads. reads ≡ slow_reads words.now) }
{
    let reads = one_file(alloc, Role::In, &words.input)?;
    match &words.images {
        Some(name) => and_file(alloc, reads, Role::Images, name),
        None => Ok(reads),
    }
}

fn one_file(alloc: Global, role: Role, name: &Text) -> Result<Sequence<FileName>, AllocError>
    ensures { IfOk result (λ reads. reads ≡ file role name.now ∷ []) }
{
    let mut reads = Sequence::new(alloc);
    reads.push(file(alloc, role, name)?)?;
    Ok(reads)
}

fn and_file(
    alloc: Global,
    mut reads: Sequence<FileName>,
    role: Role,
    name: &Text,
) -> Result<Sequence<FileName>, AllocError>
    ensures { IfOk result (λ all. all ≡ reads ++ file role name.now ∷ []) }
{
    reads.push(file(alloc, role, name)?)?;
    Ok(reads)
}

fn files_of(alloc: Global, role: Role, names: &[Text]) -> Result<Sequence<FileName>, AllocError>
    ensures { IfOk result (λ reads. reads ≡ files_of role names.now) }
{
    let mut reads = Sequence::new(alloc);
    for name in names {
        reads.push(file(alloc, role, name)?)?;
    }
    Ok(reads)
}
