// Why nothing was read.
use crate::document::Place;
use cs_base::Text;
use std::alloc::AllocError;
use thiserror::Error;

/// Why bytes give no document.
#[derive(Debug, Drop, Error)]
pub enum DocError {
    /// The bytes are no JSON that `serde_json` reads.
    #[error("no JSON")]
    NotJson,
    /// They are JSON, and `at` is the first place that no document may have.
    #[error("bad shape")]
    BadShape { at: Place },
    /// Memory ran out.
    #[error("out of memory")]
    NoMemory,
}

// Why a value was not read; the path leads from that value to the first place that is refused.
#[derive(Drop)]
pub enum ReadError {
    NoMemory,
    Refused(Text),
}

impl From<AllocError> for ReadError {
    ghost use Rattle.std.specs.Prelude.{◌≡◌};
    ghost use Rattle.cs_json.specs.declared.error.ReadError.TheVariants.{NoMemory};

    ghost from_gives = { λ _ e. e ≡ NoMemory };

    fn from(_: AllocError) -> Self {
        ReadError::NoMemory
    }
}
