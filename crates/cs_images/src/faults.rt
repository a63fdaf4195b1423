// Names that are no memory cell's, and numbers of images other than that of the contexts.
ghost use Rattle.std.specs.Prelude.{◌≡◌};
ghost use Rattle.std.specs.Option.{option_copied};
ghost use Rattle.cs_images.specs.Gives.{Tells};
ghost use Rattle.cs_images.specs.Names.{first_faulty, is_faulty};
ghost use Rattle.cs_images.specs.Said.{fault_of};

use crate::error::ImageError;
use crate::named::NamedImages;
use crate::names::Names;
use cs_base::{Contexts, Text};
use std::alloc::{AllocError, Global};

fn is_faulty(memories: &Names<'_>, contexts: Contexts, images: &NamedImages) -> bool
    ensures { result ≡ is_faulty memories.now contexts images.now }
{
    !memories.contains(images.name.as_str()) || images.texts.len() != contexts.get() as usize
}

/// The first name that is no memory cell's, or has another number of images than there are contexts.
pub(crate) fn first_faulty<'a>(
    memories: &Names<'_>,
    contexts: Contexts,
    images: &'a [NamedImages],
) -> Option<&'a NamedImages>
    ensures { option_copied result ≡ first_faulty memories.now contexts images.now }
{
    images
        .iter()
        .find(|named| is_faulty(memories, contexts, named))
}

/// What is wrong with a faulty name.
pub(crate) fn fault(alloc: Global, memories: &Names<'_>, images: &NamedImages) -> ImageError
    ensures { Tells result (fault_of memories.now images.now) }
{
    match Text::from_str(alloc, images.name.as_str()) {
        Ok(name) => if memories.contains(name.as_str()) {
            ImageError::Count {
                name,
                found: images.texts.len() as u64,
            }
        } else {
            ImageError::NoMemoryCell { name }
        },
        Err(AllocError) => ImageError::NoMemory,
    }
}
