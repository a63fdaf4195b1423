// What solving a system of difference constraints can answer in place of a solution.
use cs_base::Sequence;
use std::alloc::AllocError;

/// Why there is no solution.
#[derive(Debug, Drop)]
pub enum DiffError {
    /// The places of constraints that close a loop and have a sum below 0.
    Negative(Sequence<u32>),
    /// Memory ran out.
    NoMemory,
}

impl From<AllocError> for DiffError {
    ghost use Rattle.std.specs.Prelude.{◌≡◌};
    ghost use Rattle.cs_diff.specs.declared.error.DiffError.TheVariants.{NoMemory};

    ghost from_gives = { λ _ r. r ≡ NoMemory };

    fn from(_: AllocError) -> Self {
        DiffError::NoMemory
    }
}
