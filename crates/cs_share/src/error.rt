// Why a machine can't be emitted.
use cs_base::LimitFault;
use std::alloc::AllocError;
use thiserror::Error;

/// Why a machine can't be emitted.
#[derive(Clone, Copy, Debug, PartialEq, Eq, Error)]
pub enum EmitError {
    /// There would be more registers on the edges than a machine may have; the fault tells how many.
    #[error("too large for a machine")]
    Limit(LimitFault),
    /// Memory ran out.
    #[error("out of memory")]
    NoMemory,
}

impl From<AllocError> for EmitError {
    ghost use Rattle.std.specs.Prelude.{◌≡◌};
    ghost use Rattle.cs_share.specs.declared.error.EmitError.TheVariants.{NoMemory};

    ghost from_gives = { λ _ e. e ≡ NoMemory };

    fn from(_: AllocError) -> Self {
        EmitError::NoMemory
    }
}
