// The files that a command reads, by their roles.
ghost use Rattle.std.specs.Prelude.{◌≡◌, IfOk};
ghost use Rattle.std.specs.Option.{option_copied};
ghost use Rattle.cs_run.specs.Inputs.{bytes_of, file, found_bytes};
ghost use Rattle.cs_report.specs.declared.fault.Fault.TheVariants.{CannotRead, FileTooLong};
ghost use Rattle.cs_run.specs.Reasons.{StopsAt};
ghost use Rattle.cs_run.specs.Runs.{ReadsInput, ReadsInputs};

use crate::stop::{Stop, stop_at};
use cs_base::{Sequence, Text};
use cs_io::{Store, StoreError};
use cs_report::Fault;
use std::alloc::{AllocError, Global};

const MOST_BYTES: u64 = 67_108_864;

/// What a file is to its command.
#[derive(Clone, Copy, Debug, PartialEq, Eq)]
pub enum Role {
    In,
    Net,
    Stim,
    Images,
    /// One of the streams that are mixed.
    Stream,
    File,
    /// The paper that is read.
    Paper,
}

impl Role {
    ghost use Rattle.cs_run.specs.Inputs.{number_of};

    fn number(self) -> u8
        ensures { result ≡ number_of self }
    {
        self as u8
    }
}

/// A file that a command reads.
#[derive(Debug, Drop)]
pub struct FileName {
    pub role: Role,
    pub name: Text,
}

/// What was read of a file.
#[derive(Debug, Drop)]
pub struct Input {
    pub role: Role,
    pub bytes: Sequence<u8>,
}

/// The file of a role.
pub fn file(alloc: Global, role: Role, name: &Text) -> Result<FileName, AllocError>
    ensures { IfOk result (λ f. f ≡ file role name.now) }
{
    Ok(FileName {
        role,
        name: name.copy(alloc)?,
    })
}

/// The bytes of the file of a role, where the command read one.
pub fn found_bytes(role: Role, inputs: &[Input]) -> Option<&[u8]>
    ensures { option_copied result ≡ found_bytes role inputs.now }
{
    match inputs {
        [] => None,
        [input, others @ ..] => {
            if input.role.number() == role.number() {
                Some(input.bytes.as_slice())
            } else {
                found_bytes(role, others)
            }
        }
    }
}

/// The bytes of the file of a role that the command always reads.
pub fn bytes_of(role: Role, inputs: &[Input]) -> &[u8]
    ensures { result.now ≡ bytes_of role inputs.now }
{
    match found_bytes(role, inputs) {
        Some(bytes) => bytes,
        None => &[],
    }
}

/// The bytes of a file of a command, at most 67,108,864. A failed read and a longer file end the command.
pub fn read_input<S: Store>(alloc: Global, name: &Text, store: &mut S) -> Result<Vec<u8>, Stop>
    ensures { ReadsInput (S.state store.old) (S.state store.new) name.now result }
{
    match store.read(alloc, name.as_str(), MOST_BYTES) {
        Ok(bytes) => Ok(bytes),
        Err(StoreError::Failed) => Err(unread(alloc, name)),
        Err(StoreError::TooLong { .. }) => Err(overlong(alloc, name)),
        Err(StoreError::NoMemory) => Err(Stop::OutOfMemory),
    }
}

// The refusal of a file that can't be read.
fn unread(alloc: Global, name: &Text) -> Stop
    ensures { StopsAt (CannotRead name.now) result }
{
    match name.copy(alloc) {
        Ok(name) => stop_at(alloc, Fault::CannotRead(name)),
        Err(AllocError) => Stop::OutOfMemory,
    }
}

// The refusal of a file that is too long.
fn overlong(alloc: Global, name: &Text) -> Stop
    ensures { StopsAt (FileTooLong name.now) result }
{
    match name.copy(alloc) {
        Ok(name) => stop_at(alloc, Fault::FileTooLong(name)),
        Err(AllocError) => Stop::OutOfMemory,
    }
}

/// The bytes of the files of a command, read in order up to the first that ends it.
pub fn read_inputs<S: Store>(
    alloc: Global,
    reads: &[FileName],
    store: &mut S,
) -> Result<Sequence<Input>, Stop>
    ensures { ReadsInputs (S.state store.old) (S.state store.new) reads.now result }
{
    let mut inputs = Sequence::new(alloc);
    for read in reads {
        let bytes = read_input(alloc, &read.name, store)?;
        inputs.push(Input {
            role: read.role,
            bytes: Sequence::from_vec(bytes),
        })?;
    }
    Ok(inputs)
}
