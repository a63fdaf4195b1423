// A store in memory, in which calls can be made to fail.
ghost use Rattle.std.specs.Prelude.{◌≡◌, ◌⊎◌, [], OnOk, OnErr, IsErr, IsErrOf, IsSome, None};
ghost use Rattle.std.specs.Bool.{OnFalse};
ghost use Rattle.std.specs.Option.{option_copied};
ghost use Rattle.std.specs.FinMap as map;
ghost use Rattle.cs_io.specs.Memory.{is_planned};
ghost use Rattle.cs_io.specs.Stores.{ReadGives, IsMissing, failed_after, with_file, FailsToWrite};
ghost use Rattle.cs_io.specs.MemStores.{store_state, one_more, next_plan, FailsToRead, IsFailedRead, HasCause, IsCounted, CopiesWithin};

use crate::memory::{NamedFile, find, front, insert_file, plan_at, plan_call};
use crate::store::{Failed, NoMemory, Store, StoreError};
use std::alloc::Global;
use std::marker::Model;

/// Named files in memory, which tell what they hold.
#[derive(Drop)]
pub struct MemStore {
    alloc: Global,
    files: Vec<NamedFile>,
    failed: Vec<String>,
    plan: Vec<(u64, usize)>,
    calls: u64,
    faults: u64,
    dry: u64,
}

impl Model for MemStore {
    ghost use Rattle.cs_io.specs.MemStores.{MemState, state_code};

    ghost Value = { MemState };

    ghost coded = { state_code };

    ghost use Rattle.cs_io.specs.Memory.{files_of, names_of, plan_of};

    ghost view = { λ s. record {
      files = files_of s.files.items;
      failed = names_of s.failed.items;
      faults = s.faults;
      plan = plan_of s.plan.items;
      calls = s.calls;
      dry = s.dry;
    } };
}

impl MemStore {
    /// A store without files in which no call is to fail.
    pub fn new(alloc: Global) -> Self
        ensures { result ≡ record { files = map.empty; failed = []; faults = 0; plan = map.empty; calls = 0; dry = 0 } }
    {
        MemStore {
            alloc,
            files: Vec::new(alloc),
            failed: Vec::new(alloc),
            plan: Vec::new(alloc),
            calls: 0,
            faults: 0,
            dry: 0,
        }
    }

    /// Puts a file with these bytes in the place of what the name held. It isn't counted among the calls, and
    /// a refusal leaves the store unchanged.
    pub fn add(&mut self, name: &str, bytes: &[u8]) -> Result<(), NoMemory>
        ensures ok { OnOk result (self.new ≡ record self.old { files = map.insert self.old.files name.now bytes.now }) }
        ensures err { OnErr result (self.new ≡ self.old) }
    {
        match insert_file(self.alloc, &mut self.files, name, bytes) {
            Ok(()) => Ok(()),
            Err(_) => Err(NoMemory),
        }
    }

    /// Lets the call of this number fail, counted from 1, reads and writes together; a write fails after
    /// `keep` bytes. It takes the place of an earlier plan for that call; a refusal leaves the store unchanged.
    pub fn fail_at(&mut self, call: u64, keep: usize) -> Result<(), NoMemory>
        ensures ok { OnOk result (self.new ≡ record self.old { plan = map.insert self.old.plan call keep }) }
        ensures err { OnErr result (self.new ≡ self.old) }
    {
        match plan_call(&mut self.plan, call, keep) {
            Ok(()) => Ok(()),
            Err(_) => Err(NoMemory),
        }
    }

    /// What the file of this name holds, and None exactly where there is none.
    pub fn file(&self, name: &str) -> Option<&[u8]>
        ensures { option_copied result ≡ map.get self.now.files name.now }
    {
        find(&self.files, name)
    }

    /// How many writes found no memory; it stays at 2^64 - 1.
    pub fn dry(&self) -> u64
        ensures { result ≡ self.now.dry }
    {
        self.dry
    }

    // Counts a call, and says whether it is to fail, and after how many bytes.
    fn next_call(&mut self) -> Option<usize>
        ensures counted { self.new ≡ record self.old { calls = one_more self.old.calls } }
        ensures planned { result ≡ next_plan self.old.plan self.old.calls }
        ensures unplanned { OnFalse (is_planned self.old.plan) (result ≡ None) }
    {
        self.calls = self.calls.saturating_add(1);
        plan_at(&self.plan, self.calls)
    }

    // Notes that the file couldn't be read.
    fn fail_read(&mut self, name: &str) -> StoreError
        ensures { FailsToRead self.old self.new name.now result }
    {
        let Ok(copy) = String::from_str(self.alloc, name) else {
            return StoreError::NoMemory;
        };
        match self.failed.push(copy) {
            Ok(()) => StoreError::Failed,
            Err(_) => StoreError::NoMemory,
        }
    }
}

impl Store for MemStore {
    ghost state = { store_state };

    fn read(&mut self, alloc: Global, name: &str, most: u64) -> Result<Vec<u8>, StoreError>
        ensures gives { ReadGives (store_state self.old).files name.now most result }
        ensures leaves { store_state self.new
            ≡ record (store_state self.old) { failed = failed_after self.old.failed name.now result } }
        ensures counted { self.new ≡ record self.old {
          failed = failed_after self.old.failed name.now result;
          calls = one_more self.old.calls;
        } }

        // A read fails only where it was to fail, or where there is no such file.
        ensures cause { IsErrOf result StoreError.Failed →
            (map.get self.old.files name.now ≡ None) ⊎ IsSome (next_plan self.old.plan self.old.calls) }
        ensures planned { IsSome (next_plan self.old.plan self.old.calls) → IsFailedRead result }
        ensures missing { OnFalse (store_state self.old).is_fallible
            (IsErrOf result StoreError.Failed → IsMissing (store_state self.old).files name.now) }
    {
        let planned = self.next_call();
        match find(&self.files, name) {
            Some(bytes) if planned.is_none() => copy_within(alloc, bytes, most),
            _ => Err(self.fail_read(name)),
        }
    }

    fn write(&mut self, name: &str, bytes: &[u8]) -> Result<(), Failed>
        ensures ok { OnOk result (store_state self.new
            ≡ record (store_state self.old) { files = with_file (store_state self.old).files name.now bytes.now }) }
        ensures wrote { OnOk result (self.new ≡ record self.old {
          files = map.insert self.old.files name.now bytes.now;
          calls = one_more self.old.calls;
        }) }
        ensures err { OnErr result (FailsToWrite (store_state self.old) (store_state self.new) name.now bytes.now) }

        // A write fails only where it was to fail, or where there is no memory.
        ensures cause { OnErr result (HasCause self.old self.new name.now bytes.now) }
        ensures planned { IsSome (next_plan self.old.plan self.old.calls) → IsErr result }
        ensures counted { OnErr result (IsCounted self.old self.new) }
    {
        let planned = self.next_call();
        let kept = match planned {
            Some(keep) => front(bytes, keep),
            None => bytes,
        };
        let added = self.add(name, kept);
        if added.is_err() {
            self.dry = self.dry.saturating_add(1);
        }
        if planned.is_none() && added.is_ok() {
            return Ok(());
        }
        self.faults = self.faults.saturating_add(1);
        Err(Failed)
    }
}

fn copy_within(alloc: Global, bytes: &[u8], most: u64) -> Result<Vec<u8>, StoreError>
    ensures { CopiesWithin bytes.now most result }
{
    if bytes.len() as u64 > most {
        return Err(StoreError::TooLong { most });
    }
    match bytes.to_vec(alloc) {
        Ok(copy) => Ok(copy),
        Err(_) => Err(StoreError::NoMemory),
    }
}
