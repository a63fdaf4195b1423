// What is read, as a line.
use cs_base::Sequence;
use cs_images::ImageError;
use cs_net::Images;
use std::alloc::{AllocError, Global};

/// Why there are no images.
pub fn refusal(alloc: Global, error: &ImageError) -> Result<String, AllocError> {
    match error {
        ImageError::NotJson => String::from_str(alloc, "not json"),
        ImageError::BadShape { at } => format!(in alloc; "bad shape at {}", at.path.as_str()),
        ImageError::NoMemoryCell { name } => format!(in alloc; "no memory {}", name.as_str()),
        ImageError::Count { name, found } => {
            format!(in alloc; "{} has {found} images", name.as_str())
        }
        ImageError::NoMemory => String::from_str(alloc, "no memory"),
    }
}

fn push_image(line: &mut String, image: &[bool]) -> Result<(), AllocError> {
    line.push_str(" ")?;
    for bit in image {
        line.push_str(if *bit { "1" } else { "0" })?;
    }
    Ok(())
}

fn push_entry(
    line: &mut String,
    entry: &Option<Sequence<Sequence<bool>>>,
) -> Result<(), AllocError> {
    match entry {
        Some(images) => for image in images.as_slice() {
            push_image(line, image.as_slice())?;
        },
        None => line.push_str(" -")?,
    }
    line.push_str(";")?;
    Ok(())
}

/// The images of each memory, the least significant bit first, or a dash.
pub fn images_line(alloc: Global, images: &Images) -> Result<String, AllocError> {
    let mut line = String::new(alloc);
    for entry in images.of.as_slice() {
        push_entry(&mut line, entry)?;
    }
    Ok(line)
}
