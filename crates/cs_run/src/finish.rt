// Ends a run: this alone writes files and puts texts.
ghost use Rattle.std.specs.Prelude.{◌≡◌, OnOk, OnErr, MatchResult};
ghost use Rattle.cs_run.specs.Statuses.{status_unput};
ghost use Rattle.cs_run.specs.Worlds.{CarriesOut, Puts, PutsStop, PutsTexts, StopsAtPut, StopsPutting, StopsWriting, after_puts, after_writes, world};

use crate::reply::{NewFile, Reply};
use crate::status::Status;
use crate::stop::Stop;
use cs_base::Sequence;
use cs_io::{Failed, Sink, Store};

/// Writes the files of a reply in order, puts its texts, and answers its status. After a failed write its fault's line
/// is put in place of the texts, and the status is that of a write fault, whatever the reply's.
pub fn carry_out<S: Store, O: Sink>(reply: &Reply, store: &mut S, out: &mut O) -> Status
    ensures { CarriesOut reply.now (world (S.state store.old) (O.state out.old)) (world (S.state store.new) (O.state out.new)) result }
{
    match write_all(reply.writes.as_slice(), store) {
        Ok(()) => put_texts(reply, out),
        Err(file) => {
            let _ = put(file.fault_line.as_slice(), out);
            Status::WriteFault
        }
    }
}

/// Puts the line of what stops a command, and answers its status, which stays whatever becomes of the line.
pub fn put_stop<O: Sink>(stop: &Stop, out: &mut O) -> Status
    ensures { PutsStop stop.now (O.state out.old) (O.state out.new) result }
{
    match stop {
        Stop::OutOfMemory => {
            let _ = out.put(b"out of memory\n");
            Status::NoMemory
        }
        Stop::Refused(refusal) => {
            let _ = put(refusal.line.as_slice(), out);
            refusal.status
        }
    }
}

fn put_texts<O: Sink>(reply: &Reply, out: &mut O) -> Status
    ensures { PutsTexts reply.now (O.state out.old) (O.state out.new) result }
{
    match put_all(reply.texts.as_slice(), out) {
        Ok(()) => reply.status,
        Err(Failed) => status_unput(reply.status),
    }
}

// Puts the texts one by one, up to the first that can't be put.
fn put_all<O: Sink>(texts: &[Sequence<u8>], out: &mut O) -> Result<(), Failed>
    ensures ok { OnOk result (O.state out.new ≡ after_puts (O.state out.old) texts.now) }
    ensures err { OnErr result (StopsAtPut texts.now (O.state out.old) (O.state out.new)) }
{
    match texts {
        [] => Ok(()),
        [text, others @ ..] => match put(text.as_slice(), out) {
            Ok(()) => put_all(others, out),
            Err(Failed) => Err(Failed),
        },
    }
}

// Nothing to put makes no put.
fn put<O: Sink>(bytes: &[u8], out: &mut O) -> Result<(), Failed>
    ensures ok { OnOk result (Puts (O.state out.old) (O.state out.new) bytes.now) }
    ensures err { OnErr result (StopsPutting (O.state out.old) (O.state out.new) bytes.now) }
{
    if bytes.is_empty() {
        return Ok(());
    }
    out.put(bytes)
}

// A run that is done fails where a text can't be put; any other keeps its status.
fn status_unput(status: Status) -> Status
    ensures { result ≡ status_unput status }
{
    match status {
        Status::Done => Status::WriteFault,
        _ => status,
    }
}

// Writes the files in order, up to the first that can't be written.
fn write_all<'a, S: Store>(files: &'a [NewFile], store: &mut S) -> Result<(), &'a NewFile>
    ensures { MatchResult result
        (λ _. S.state store.new ≡ after_writes (S.state store.old) files.now)
        (λ file. StopsWriting files.now (S.state store.old) (S.state store.new) file.now) }
{
    match files {
        [] => Ok(()),
        [first, others @ ..] => match store.write(first.name.as_str(), first.bytes.as_slice()) {
            Ok(()) => write_all(others, store),
            Err(Failed) => Err(first),
        },
    }
}
