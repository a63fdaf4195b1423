// The images that memories start with.
ghost use Rattle.std.specs.Prelude.{◌≡◌, IfErr, IfOk};
ghost use Rattle.std.specs.Option.{option_copied};
ghost use Rattle.cs_images.specs.Said.{Says, images_in};
ghost use Rattle.cs_net.specs.Contexts.{AreImagesFor};
ghost use Rattle.cs_run.specs.Reasons.{StopsFor};
ghost use Rattle.cs_run.specs.Starts.{HasNoImages, SaysNoImages, images_by, images_fault};

use crate::stop::{Stop, stop_at};
use cs_base::Contexts;
use cs_images::{ImageError, read_images};
use cs_net::{Images, Netlist};
use cs_report::Fault;
use std::alloc::Global;

/// The images of a netlist for these contexts: those that the bytes of IMAGES say, where it is named, else none. Bytes
/// that say none end the command.
pub fn starts_by(
    alloc: Global,
    net: &Netlist,
    contexts: Contexts,
    images: Option<&[u8]>,
) -> Result<Images, Stop>
    ensures ok { IfOk result (λ starts. images_by net.now contexts (option_copied images.entry) ≡ Says starts) }
    ensures fits { IfOk result (AreImagesFor net.now contexts) }
    ensures err { IfErr result (StopsFor (HasNoImages contexts net.now (option_copied images.entry))) }
{
    match images {
        Some(bytes) => read_starts(alloc, net, contexts, bytes),
        None => Ok(Images::none(alloc, net)?),
    }
}

/// The images that bytes say; bytes that say none end the command.
pub fn read_starts(
    alloc: Global,
    net: &Netlist,
    contexts: Contexts,
    bytes: &[u8],
) -> Result<Images, Stop>
    ensures ok { IfOk result (λ starts. images_in net.now contexts bytes.now ≡ Says starts) }
    ensures fits { IfOk result (AreImagesFor net.now contexts) }
    ensures err { IfErr result (StopsFor (SaysNoImages contexts net.now bytes.now)) }
{
    match read_images(alloc, bytes, net, contexts) {
        Ok(images) => Ok(images),
        Err(error) => Err(stop_at(alloc, images_fault(error))),
    }
}

fn images_fault(error: ImageError) -> Fault
    ensures { result ≡ images_fault error }
{
    match error {
        ImageError::NotJson => Fault::ImagesNotJson,
        ImageError::BadShape { at } => Fault::ImagesShape(at),
        ImageError::NoMemoryCell { name } => Fault::ImagesName(name),
        ImageError::Count { name, found } => Fault::ImagesCount { name, found },
        ImageError::NoMemory => Fault::NoMemory,
    }
}
