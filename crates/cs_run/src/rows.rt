// Rows of bytes.
ghost use Rattle.std.specs.Prelude.{IfErr, IfOk};
ghost use Rattle.cs_stream.specs.Reading.{fault_of as stimulus_fault};
ghost use Rattle.cs_run.specs.Reasons.{HasNoRows, StopsFor};
ghost use Rattle.cs_run.specs.Rows.{AreRowsOf};

use crate::stop::{Stop, rows_fault, stop_at};
use cs_stream::{Stimulus, read_stimulus};
use std::alloc::Global;

/// The rows of a width that bytes say; a faulty line ends the command.
pub fn read_rows(alloc: Global, bytes: &[u8], width: usize) -> Result<Stimulus, Stop>
    ensures ok { IfOk result (AreRowsOf width bytes.now) }
    ensures err { IfErr result (StopsFor (HasNoRows (stimulus_fault width bytes.now))) }
{
    match read_stimulus(alloc, bytes, width) {
        Ok(rows) => Ok(rows),
        Err(error) => Err(stop_at(alloc, rows_fault(error))),
    }
}
