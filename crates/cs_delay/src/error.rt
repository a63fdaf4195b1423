// Why there are no delays.
use cs_base::Text;
use cs_json::Place;
use std::alloc::AllocError;
use thiserror::Error;

/// Why bytes give no delay table, or a table no delays for a machine.
#[derive(Debug, Drop, Error)]
pub enum DelayError {
    /// The bytes are no JSON that `serde_json` reads.
    #[error("no JSON")]
    NotJson,
    /// They are JSON, and `at` is the first place that no delay table may have.
    #[error("bad shape")]
    BadShape { at: Place },
    /// The shape is right, and this is the first type with a delay above 1,000,000, `default` being the fallback.
    #[error("too large")]
    TooLarge { kind: Text },
    /// This is the first type of a machine's vertices that lacks a delay.
    #[error("no delay")]
    NoDelay { kind: Text },
    /// Memory ran out.
    #[error("out of memory")]
    NoMemory,
}

impl From<AllocError> for DelayError {
    ghost use Rattle.std.specs.Prelude.{◌≡◌};
    ghost use Rattle.cs_delay.specs.declared.error.DelayError.TheVariants.{NoMemory};

    ghost from_gives = { λ _ e. e ≡ NoMemory };

    fn from(_: AllocError) -> Self {
        DelayError::NoMemory
    }
}
