// What propagation can answer in place of a setting.
use std::alloc::AllocError;

/// Why propagation stopped.
#[derive(Debug, Drop)]
pub enum Stop {
    /// A clause is falsified, or a variable is to be set both ways.
    Conflict,
    /// Memory ran out.
    NoMemory,
}

impl From<AllocError> for Stop {
    ghost use Rattle.std.specs.Prelude.{◌≡◌};
    ghost use Rattle.cs_rup.specs.declared.error.Stop.TheVariants.{NoMemory};

    ghost from_gives = { λ _ r. r ≡ NoMemory };

    fn from(_: AllocError) -> Self {
        Stop::NoMemory
    }
}
