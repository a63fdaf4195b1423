// A store of named files.
ghost use Rattle.std.specs.Prelude.{◌≡◌, OnOk, OnErr, IsErrOf};
ghost use Rattle.std.specs.Bool.{OnFalse};

use std::alloc::Global;

/// Why a read gave no bytes.
#[derive(Clone, Copy, Debug, PartialEq, Eq)]
pub enum StoreError {
    Failed,
    TooLong { most: u64 },
    NoMemory,
}

/// A write or a put failed.
#[derive(Clone, Copy, Debug, PartialEq, Eq)]
pub struct Failed;

/// There was no memory.
#[derive(Clone, Copy, Debug, PartialEq, Eq)]
pub struct NoMemory;

/// Named files that are read and written whole.
pub trait Store {
    ghost use Rattle.cs_io.specs.Stores.{StoreState, ReadGives, IsMissing, failed_after, with_file, FailsToWrite};

    /// The files, the names whose reading failed, how many writes failed and how many of them for want of memory,
    /// and whether a call may fail for another cause.
    ghost state: { Self → StoreState };

    /// The bytes of a file that has at most `most`. A name that isn't there can't be read.
    fn read(&mut self, alloc: Global, name: &str, most: u64) -> Result<Vec<u8>, StoreError>
        ensures gives { ReadGives (state self.old).files name.now most result }
        ensures leaves { state self.new ≡ record (state self.old) { failed = failed_after (state self.old).failed name.now result } }

        // Where no other failure may come, only a name that isn't there can't be read.
        ensures missing { OnFalse (state self.old).is_fallible (IsErrOf result StoreError.Failed → IsMissing (state self.old).files name.now) };

    /// Puts a file with these bytes in the place of what the name held.
    fn write(&mut self, name: &str, bytes: &[u8]) -> Result<(), Failed>
        ensures ok { OnOk result (state self.new ≡ record (state self.old) { files = with_file (state self.old).files name.now bytes.now }) }
        ensures err { OnErr result (FailsToWrite (state self.old) (state self.new) name.now bytes.now) };
}
