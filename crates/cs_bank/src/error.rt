// Why a machine can't be banked.
use cs_base::LimitFault;
use std::alloc::AllocError;
use thiserror::Error;

/// Why a machine can't be banked.
#[derive(Clone, Copy, Debug, PartialEq, Eq, Error)]
pub enum BankError {
    /// There would be more vertices, edges, registers or bits of memories than a machine may have; the fault tells how
    /// many.
    #[error("too large")]
    Limit(LimitFault),
    /// Memory ran out.
    #[error("out of memory")]
    NoMemory,
}

impl From<AllocError> for BankError {
    ghost use Rattle.std.specs.Prelude.{◌≡◌};
    ghost use Rattle.cs_bank.specs.declared.error.BankError.TheVariants.{NoMemory};

    ghost from_gives = { λ _ e. e ≡ NoMemory };

    fn from(_: AllocError) -> Self {
        BankError::NoMemory
    }
}
