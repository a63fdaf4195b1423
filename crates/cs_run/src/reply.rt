// What a run is to write, put and answer once its files are read.
ghost use Rattle.std.specs.Prelude.{◌≡◌, IfOk};
ghost use Rattle.cs_report.specs.declared.fault.Fault.TheVariants.{CannotWrite};
ghost use Rattle.cs_report.specs.FaultLines.{fault_line};
ghost use Rattle.cs_run.specs.Replies.{putting, refusal_for, writing};

use crate::status::{Status, status_of};
use cs_base::{Sequence, Text};
use cs_report::{Fault, fault_text};
use std::alloc::{AllocError, Global};

/// A file that is to be written. Where its write fails, its fault's line is put, and nothing where that is empty.
#[derive(Debug, Drop)]
pub struct NewFile {
    pub name: Text,
    pub bytes: Sequence<u8>,
    pub fault_line: Sequence<u8>,
}

/// A command's own answer, of any status: the files are written in order, then the texts are put one by one, and the
/// status is answered.
#[derive(Debug, Drop)]
pub struct Reply {
    pub status: Status,
    pub writes: Sequence<NewFile>,
    pub texts: Sequence<Sequence<u8>>,
}

/// The answer of a run that only puts a line.
#[derive(Debug, Drop)]
pub struct Refusal {
    pub status: Status,
    pub line: Sequence<u8>,
}

/// The status and the line of a fault.
pub fn refuse(alloc: Global, fault: &Fault) -> Result<Refusal, AllocError>
    ensures { IfOk result (λ refusal. refusal ≡ refusal_for fault.now) }
{
    let line = fault_text(alloc, fault)?;
    Ok(Refusal {
        status: status_of(fault),
        line: Sequence::from_vec(line),
    })
}

/// A reply that puts one text.
pub fn putting(alloc: Global, text: Vec<u8>) -> Result<Reply, AllocError>
    ensures { IfOk result (λ reply. reply ≡ putting text.items) }
{
    let mut texts = Sequence::new(alloc);
    texts.push(Sequence::from_vec(text))?;
    Ok(Reply {
        status: Status::Done,
        writes: Sequence::new(alloc),
        texts,
    })
}

/// A reply that writes one file and puts nothing; where the write fails, the line is put.
pub fn writing(
    alloc: Global,
    name: &Text,
    bytes: Vec<u8>,
    fault_line: Vec<u8>,
) -> Result<Reply, AllocError>
    ensures { IfOk result (λ reply. reply ≡ writing name.now bytes.items fault_line.items) }
{
    let mut writes = Sequence::new(alloc);
    writes.push(NewFile {
        name: name.copy(alloc)?,
        bytes: Sequence::from_vec(bytes),
        fault_line: Sequence::from_vec(fault_line),
    })?;
    Ok(Reply {
        status: Status::Done,
        writes,
        texts: Sequence::new(alloc),
    })
}

/// The line of a failed write of the file of this name.
pub(crate) fn unwritten_line(alloc: Global, name: &Text) -> Result<Vec<u8>, AllocError>
    ensures { IfOk result (λ line. line.items ≡ fault_line (CannotWrite name.now)) }
{
    let fault = Fault::CannotWrite(name.copy(alloc)?);
    fault_text(alloc, &fault)
}
