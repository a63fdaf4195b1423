// Why there is no paper.
use cs_json::Place;
use std::alloc::AllocError;
use thiserror::Error;

/// Why bytes give no paper.
#[derive(Debug, Drop, Error)]
pub enum CertError {
    /// The bytes are no JSON that `serde_json` reads.
    #[error("no JSON")]
    NotJson,
    /// They are JSON, and `at` is the first place that no paper may have.
    #[error("bad shape")]
    BadShape { at: Place },
    /// Memory ran out.
    #[error("out of memory")]
    NoMemory,
}

impl From<AllocError> for CertError {
    ghost use Rattle.std.specs.Prelude.{◌≡◌};
    ghost use Rattle.cs_cert.specs.declared.error.CertError.TheVariants.{NoMemory};

    ghost from_gives = { λ _ e. e ≡ NoMemory };

    fn from(_: AllocError) -> Self {
        CertError::NoMemory
    }
}
