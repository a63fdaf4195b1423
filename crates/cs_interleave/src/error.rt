// Why a netlist has no machine for several contexts.
use cs_bank::BankError;
use cs_base::LimitFault;
use cs_lower::LowerError;
use cs_slow::SlowError;
use thiserror::Error;

/// Why a netlist has no machine for several contexts.
#[derive(Clone, Copy, Debug, PartialEq, Eq, Error)]
pub enum InterleaveError {
    /// There would be more vertices, edges, registers or bits of memories than a machine may have, in the netlist's own
    /// machine, the slowed or the banked one; the fault tells how many.
    #[error("too large for a machine")]
    Limit(LimitFault),
    /// Memory ran out.
    #[error("out of memory")]
    NoMemory,
}

impl From<LowerError> for InterleaveError {
    ghost use Rattle.std.specs.Prelude.{◌≡◌};
    ghost use Rattle.cs_interleave.specs.InterleaveFaults.{of_lower};

    ghost from_gives = { λ error made. made ≡ of_lower error };

    fn from(error: LowerError) -> Self {
        match error {
            LowerError::Limit(fault) => InterleaveError::Limit(fault),
            LowerError::NoMemory => InterleaveError::NoMemory,
        }
    }
}

impl From<SlowError> for InterleaveError {
    ghost use Rattle.std.specs.Prelude.{◌≡◌};
    ghost use Rattle.cs_interleave.specs.InterleaveFaults.{of_slow};

    ghost from_gives = { λ error made. made ≡ of_slow error };

    fn from(error: SlowError) -> Self {
        match error {
            SlowError::Limit(fault) => InterleaveError::Limit(fault),
            SlowError::NoMemory => InterleaveError::NoMemory,
        }
    }
}

impl From<BankError> for InterleaveError {
    ghost use Rattle.std.specs.Prelude.{◌≡◌};
    ghost use Rattle.cs_interleave.specs.InterleaveFaults.{of_bank};

    ghost from_gives = { λ error made. made ≡ of_bank error };

    fn from(error: BankError) -> Self {
        match error {
            BankError::Limit(fault) => InterleaveError::Limit(fault),
            BankError::NoMemory => InterleaveError::NoMemory,
        }
    }
}
