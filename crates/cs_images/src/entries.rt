// The images of each memory.
ghost use Rattle.std.specs.Prelude.{◌≡◌, IfOk, bytes_eq, find, map};
ghost use Rattle.std.specs.Option.{option_copied};
ghost use Rattle.cs_images.specs.Images.{all_images, images_of};

use crate::bits::images;
use crate::named::NamedImages;
use crate::names::Names;
use cs_base::Sequence;
use cs_net::{Images, MemoryWords};
use std::alloc::{AllocError, Global};

// What stands under a name; `names` are those of `named`.
fn named_as<'a>(names: &Names<'_>, named: &'a [NamedImages], name: &str) -> Option<&'a NamedImages>
    requires { names.now ≡ map (λ n. n.name) named.now }
    ensures { option_copied result ≡ find (λ n. bytes_eq n.name name.now) named.now }
{
    match names.place(name) {
        Some(place) => named.get(place),
        None => None,
    }
}

// The images of a memory, if it is named.
fn images_of(
    alloc: Global,
    names: &Names<'_>,
    named: &[NamedImages],
    memory: &MemoryWords,
) -> Result<Option<Sequence<Sequence<bool>>>, AllocError>
    requires { names.now ≡ map (λ n. n.name) named.now }
    ensures { IfOk result (λ entry. entry ≡ images_of named.now memory.now) }
{
    let Some(found) = named_as(names, named, memory.name.as_str()) else {
        return Ok(None);
    };
    let images = images(alloc, &memory.words, found.texts.as_slice())?;
    Ok(Some(images))
}

fn entries(
    alloc: Global,
    names: &Names<'_>,
    named: &[NamedImages],
    memories: &[MemoryWords],
) -> Result<Sequence<Option<Sequence<Sequence<bool>>>>, AllocError>
    requires { names.now ≡ map (λ n. n.name) named.now }
    ensures { IfOk result (λ entries. entries ≡ map (images_of named.now) memories.now) }
{
    let mut entries = Sequence::new(alloc);
    for memory in memories {
        entries.push(images_of(alloc, names, named, memory)?)?;
    }
    Ok(entries)
}

/// The images of all memories, in their order.
pub(crate) fn all_images(
    alloc: Global,
    named: &[NamedImages],
    memories: &[MemoryWords],
) -> Result<Images, AllocError>
    ensures { IfOk result (λ images. images ≡ all_images named.now memories.now) }
{
    let names = Names::of_images(alloc, named)?;
    Ok(Images {
        of: entries(alloc, &names, named, memories)?,
    })
}
