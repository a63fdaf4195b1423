// Why a command goes no further.
ghost use Rattle.std.specs.Prelude.{◌≡◌};
ghost use Rattle.cs_run.specs.Reasons.{StopsAt, machine_fault, rows_fault};
ghost use Rattle.cs_run.specs.declared.stop.Stop.TheVariants.{OutOfMemory};

use crate::reply::{Refusal, refuse};
use crate::status::{Status, status_of};
use cs_interleave::InterleaveError;
use cs_report::Fault;
use cs_stream::StimError;
use std::alloc::{AllocError, AllocFailed, Global};

/// Why a command goes no further: want of memory, or a refusal.
#[derive(Debug, Drop)]
pub enum Stop {
    OutOfMemory,
    Refused(Refusal),
}

impl From<AllocError> for Stop {
    ghost from_gives = { λ _ stop. stop ≡ OutOfMemory };

    fn from(_: AllocError) -> Self {
        Stop::OutOfMemory
    }
}

impl<T: Drop> From<AllocFailed<T>> for Stop {
    ghost from_gives = { λ _ stop. stop ≡ OutOfMemory };

    fn from(_: AllocFailed<T>) -> Self {
        Stop::OutOfMemory
    }
}

/// Ends a command because of a fault: it is refused with the fault's status and line, but for want of memory.
pub fn stop_at(alloc: Global, fault: Fault) -> Stop
    ensures { StopsAt fault result }
{
    if let Status::NoMemory = status_of(&fault) {
        return Stop::OutOfMemory;
    }
    match refuse(alloc, &fault) {
        Ok(refusal) => Stop::Refused(refusal),
        Err(AllocError) => Stop::OutOfMemory,
    }
}

/// The fault of a netlist whose machine for several contexts would be too large.
pub fn machine_fault(error: InterleaveError) -> Fault
    ensures { result ≡ machine_fault error }
{
    match error {
        InterleaveError::Limit(limit) => Fault::Limit(limit),
        InterleaveError::NoMemory => Fault::NoMemory,
    }
}

/// The fault of rows that can't be read, or can't be mixed.
pub fn rows_fault(error: StimError) -> Fault
    ensures { result ≡ rows_fault error }
{
    match error {
        StimError::Width { line } => Fault::StimulusWidth { line },
        StimError::Character { line, column } => Fault::StimulusCharacter { line, column },
        StimError::Uneven { stream } => Fault::StimulusUneven(stream),
        StimError::NoMemory => Fault::NoMemory,
    }
}
