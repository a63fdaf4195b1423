// Why there is no stimulus.
use std::alloc::AllocError;
use thiserror::Error;

/// Why bytes are no stimulus, or streams can't be mixed.
#[derive(Clone, Copy, Debug, PartialEq, Eq, Error)]
pub enum StimError {
    /// The line, counted from 1, has another length than the width.
    #[error("another length")]
    Width { line: u64 },
    /// The line has a byte other than `0` and `1`, the first at this column; both are counted from 1.
    #[error("no bit")]
    Character { line: u64, column: u64 },
    /// The stream, counted from 0, has another number of rows than its turns.
    #[error("uneven streams")]
    Uneven { stream: u32 },
    /// Memory ran out.
    #[error("out of memory")]
    NoMemory,
}

impl From<AllocError> for StimError {
    ghost use Rattle.std.specs.Prelude.{◌≡◌};
    ghost use Rattle.cs_stream.specs.declared.error.StimError.TheVariants.{NoMemory};

    ghost from_gives = { λ _ e. e ≡ NoMemory };

    fn from(_: AllocError) -> Self {
        StimError::NoMemory
    }
}
