// Memories of a machine.
ghost use Rattle.std.specs.Prelude.{◌≡◌, IfOk};

use cs_base::Sequence;
use std::alloc::{AllocError, Global};

/// A memory: `words` words of `width` bits, read and written at addresses of `abits` bits. A bounded run drops
/// writes at an address of `size` or above.
#[derive(Debug, Drop)]
pub struct Memory {
    pub size: u32,
    pub words: u32,
    pub abits: u32,
    pub width: u32,
    /// The bits of word 0, then of word 1 and on, each least significant first.
    pub start: Sequence<bool>,
}

impl Memory {
    /// Another memory of the same sizes and start. It errs only where memory runs out.
    pub fn copy(&self, alloc: Global) -> Result<Self, AllocError>
        ensures { IfOk result (λ memory. memory ≡ self.now) }
    {
        let start = Vec::from_slice(alloc, self.start.as_slice())?;
        Ok(Memory {
            size: self.size,
            words: self.words,
            abits: self.abits,
            width: self.width,
            start: Sequence::from_vec(start),
        })
    }
}
