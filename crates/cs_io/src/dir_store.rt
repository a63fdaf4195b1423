// The files of the system, as a store. It tells nothing of what they hold.
ghost use Rattle.std.specs.Prelude.{◌≡◌, ◌≤◌, [], None, true};
ghost use Rattle.cs_io.specs.Stores.{ReadGives};

use crate::store::{Failed, Store, StoreError};
use std::alloc::Global;
use std::fs::File;
use std::io::{ErrorKind, Read, Write};
use std::marker::Model;
use std::rt::Files;

const CHUNK: usize = 65536;

/// The files of a runtime, by their paths. Nothing is told of what they hold.
#[derive(Drop)]
pub struct DirStore<'a, R: Files + AllocGlobal> {
    rt: &'a R,
    failed: Vec<String>,
    faults: u64,
}

impl<'a, R: Files + AllocGlobal> Model for DirStore<'a, R> {
    ghost use Rattle.std.specs.Prelude.{None, true};
    ghost use Rattle.cs_io.specs.Stores.{StoreState, store_code};

    ghost Value = { StoreState };

    ghost coded = { store_code };

    ghost use Rattle.cs_io.specs.Memory.{names_of};

    ghost view = { λ s. record { files = None; failed = names_of s.failed.items; faults = s.faults; dry = 0; is_fallible = true } };
}

impl<'a, R: Files + AllocGlobal> DirStore<'a, R> {
    /// No call has failed yet.
    pub fn new(rt: &'a R) -> Self
        ensures { result ≡ record { files = None; failed = []; faults = 0; dry = 0; is_fallible = true } }
    {
        DirStore {
            rt,
            failed: Vec::new(rt.alloc()),
            faults: 0,
        }
    }
}

impl<'a, R: Files + AllocGlobal> Store for DirStore<'a, R> {
    ghost state = { λ s. s };

    fn read(&mut self, alloc: Global, name: &str, most: u64) -> Result<Vec<u8>, StoreError> {
        let Ok(copy) = String::from_str(alloc, name) else {
            return Err(StoreError::NoMemory);
        };
        // The name is noted first, so that a failure finds room for it.
        if self.failed.push(copy).is_err() {
            return Err(StoreError::NoMemory);
        }
        let result = read_file(self.rt, alloc, name, most);
        if !matches!(&result, Err(StoreError::Failed)) {
            let _ = self.failed.pop();
        }
        result
    }

    fn write(&mut self, name: &str, bytes: &[u8]) -> Result<(), Failed> {
        match write_file(self.rt, name, bytes) {
            Ok(()) => Ok(()),
            Err(Failed) => {
                self.faults = self.faults.saturating_add(1);
                Err(Failed)
            }
        }
    }
}

fn read_file<R: Files>(rt: &R, alloc: Global, name: &str, most: u64) -> Result<Vec<u8>, StoreError>
    ensures { ReadGives None name.now most result }
{
    let Ok(mut file) = File::open(rt, name) else {
        return Err(StoreError::Failed);
    };
    read_within(alloc, &mut file, most)
}

// Reads to the end, or one byte past the limit.
fn read_within<F: Read>(alloc: Global, file: &mut F, most: u64) -> Result<Vec<u8>, StoreError>
    ensures { ReadGives None [] most result }
{
    let mut bytes = Vec::new(alloc);
    let mut chunk = [0u8; CHUNK];
    for _ in 0..u64::MAX {
        let room = most - bytes.len() as u64;
        let ask = room.min(CHUNK as u64 - 1) as usize + 1;
        match file.read(&mut chunk[..ask]) {
            Ok(0) => return Ok(bytes),
            Ok(count) if count as u64 > room => return Err(StoreError::TooLong { most }),
            Ok(count) => {
                if bytes.extend_from_slice(&chunk[..count]).is_err() {
                    return Err(StoreError::NoMemory);
                }
            }
            Err(error) if error.kind() == ErrorKind::Interrupted => {}
            Err(_) => return Err(StoreError::Failed),
        }
    }
    Err(StoreError::Failed)
}

fn write_file<R: Files>(rt: &R, name: &str, bytes: &[u8]) -> Result<(), Failed> {
    let Ok(mut file) = File::create(rt, name) else {
        return Err(Failed);
    };
    match file.write_all(bytes) {
        Ok(()) => Ok(()),
        Err(_) => Err(Failed),
    }
}
