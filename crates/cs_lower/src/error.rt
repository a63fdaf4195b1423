// Why a netlist can't be lowered.
use cs_base::LimitFault;
use std::alloc::AllocError;
use thiserror::Error;

/// Why a netlist can't be lowered.
#[derive(Clone, Copy, Debug, PartialEq, Eq, Error)]
pub enum LowerError {
    /// There would be more vertices, edges or registers than a machine may have; the fault tells how many.
    #[error("too large for a machine")]
    Limit(LimitFault),
    /// Memory ran out.
    #[error("out of memory")]
    NoMemory,
}

impl From<AllocError> for LowerError {
    ghost use Rattle.std.specs.Prelude.{◌≡◌};
    ghost use Rattle.cs_lower.specs.declared.error.LowerError.TheVariants.{NoMemory};

    ghost from_gives = { λ _ e. e ≡ NoMemory };

    fn from(_: AllocError) -> Self {
        LowerError::NoMemory
    }
}
