// The bits of images.
ghost use Rattle.std.specs.Prelude.{◌≡◌, IfOk, map};
ghost use Rattle.cs_images.specs.Images.{image_bits};

use cs_base::Sequence;
use cs_json::Datum;
use cs_modules::{Words, digits_of, is_one};
use std::alloc::{AllocError, Global};

// The image of a text for these words: bit i is digit i.
fn image_bits(alloc: Global, words: &Words, text: &Datum) -> Result<Sequence<bool>, AllocError>
    ensures { IfOk result (λ bits. bits ≡ image_bits words.now text.now) }
{
    let digits = digits_of(alloc, text)?;
    let count = words.bits().len();
    let mut bits = Vec::with_capacity(alloc, count)?;
    for digit in 0..count {
        bits.push(is_one(digits.as_slice(), digit))?;
    }
    Ok(Sequence::from_vec(bits))
}

/// The images of the texts for these words.
pub(crate) fn images(
    alloc: Global,
    words: &Words,
    texts: &[Datum],
) -> Result<Sequence<Sequence<bool>>, AllocError>
    ensures { IfOk result (λ images. images ≡ map (image_bits words.now) texts.now) }
{
    let mut images = Sequence::new(alloc);
    for text in texts {
        images.push(image_bits(alloc, words, text)?)?;
    }
    Ok(images)
}
