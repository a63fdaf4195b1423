// Why a machine can't be slowed.
use cs_base::LimitFault;
use std::alloc::AllocError;
use thiserror::Error;

/// Why a machine can't be slowed.
#[derive(Clone, Copy, Debug, PartialEq, Eq, Error)]
pub enum SlowError {
    /// There would be more registers than a machine may have; the fault tells how many.
    #[error("too many registers")]
    Limit(LimitFault),
    /// Memory ran out.
    #[error("out of memory")]
    NoMemory,
}

impl From<AllocError> for SlowError {
    ghost use Rattle.std.specs.Prelude.{◌≡◌};
    ghost use Rattle.cs_slow.specs.declared.error.SlowError.TheVariants.{NoMemory};

    ghost from_gives = { λ _ e. e ≡ NoMemory };

    fn from(_: AllocError) -> Self {
        SlowError::NoMemory
    }
}
