// Why there are no images.
use cs_base::Text;
use cs_json::Place;
use std::alloc::AllocError;
use thiserror::Error;

/// Why bytes give no images for a netlist and a number of contexts.
#[derive(Debug, Drop, Error)]
pub enum ImageError {
    /// The bytes are no JSON that `serde_json` reads.
    #[error("no JSON")]
    NotJson,
    /// They are JSON, and `at` is the first place that no images file may have.
    #[error("bad shape")]
    BadShape { at: Place },
    /// The shape is right, and the first faulty name is that of no memory cell.
    #[error("no memory cell")]
    NoMemoryCell { name: Text },
    /// The first faulty name is that of a memory cell, and `found` texts are given for it, not one for each context.
    #[error("other count")]
    Count { name: Text, found: u64 },
    /// Memory ran out.
    #[error("out of memory")]
    NoMemory,
}

impl From<AllocError> for ImageError {
    ghost use Rattle.std.specs.Prelude.{◌≡◌};
    ghost use Rattle.cs_images.specs.declared.error.ImageError.TheVariants.{NoMemory};

    ghost from_gives = { λ _ e. e ≡ NoMemory };

    fn from(_: AllocError) -> Self {
        ImageError::NoMemory
    }
}
