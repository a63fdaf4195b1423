// Bytes to images.
ghost use Rattle.std.specs.Prelude.{◌≡◌, ◌⊎◌, IfOk, IsErrOf, Ok, List, ℕ};
ghost use Rattle.serde_json.specs.View.{view};
ghost use Rattle.cs_json.specs.declared.document.Place.{Place as PlaceValue};
ghost use Rattle.cs_net.specs.declared.images.Images.{Images as ImagesValue};
ghost use Rattle.cs_images.specs.Gives.{Answers};
ghost use Rattle.cs_net.specs.Contexts.{AreImagesFor};
ghost use Rattle.cs_images.specs.Names.{first_faulty, memory_names};
ghost use Rattle.cs_images.specs.Said.{HasOtherCount, NamesNoMemory, NoJson, RefusedAt, Says, checked, images_in, reading_of};
ghost use Rattle.cs_images.specs.Shape.{written};

use crate::entries::all_images;
use crate::error::ImageError;
use crate::faults::{fault, first_faulty};
use crate::named::NamedImages;
use crate::names::Names;
use crate::shape::written;
use cs_base::Contexts;
use cs_json::{Place, ReadError, json_value};
use cs_net::{Images, Netlist};
use serde_json::Value;
use std::alloc::Global;

// The images, where no name is faulty.
fn checked(
    alloc: Global,
    named: &[NamedImages],
    net: &Netlist,
    contexts: Contexts,
) -> Result<Images, ImageError>
    ensures { Answers result (checked net.now named.now (first_faulty (memory_names net.now.cells) contexts named.now)) }
{
    let names = Names::of_memory_cells(alloc, net.cells())?;
    match first_faulty(&names, contexts, named) {
        None => Ok(all_images(alloc, named, net.memories())?),
        Some(faulty) => Err(fault(alloc, &names, faulty)),
    }
}

fn shaped(
    alloc: Global,
    value: &Value,
    net: &Netlist,
    contexts: Contexts,
) -> Result<Images, ImageError>
    ensures { Answers result (reading_of net.now contexts (written (view value.now))) }
{
    match written(alloc, value) {
        Ok(named) => checked(alloc, named.as_slice(), net, contexts),
        Err(ReadError::NoMemory) => Err(ImageError::NoMemory),
        Err(ReadError::Refused(path)) => Err(ImageError::BadShape { at: Place { path } }),
    }
}

fn answer(
    alloc: Global,
    bytes: &[u8],
    net: &Netlist,
    contexts: Contexts,
) -> Result<Images, ImageError>
    ensures { Answers result (images_in net.now contexts bytes.now) }
{
    match json_value(alloc, bytes)? {
        Some(value) => shaped(alloc, &value, net, contexts),
        None => Err(ImageError::NotJson),
    }
}

/// Reads the images of a netlist's memories from the bytes of a file, one for each context of each memory that is named.
///
/// It errs where the bytes are no JSON that `serde_json` reads, at the first place that no images file may have, then
/// with the first name, in byte order, that is no memory cell's or has another number of texts than there are contexts,
/// and where memory runs out. The tree of values is walked once, in byte order of keys.
pub fn read_images(
    alloc: Global,
    bytes: &[u8],
    net: &Netlist,
    contexts: Contexts,
) -> Result<Images, ImageError>
    ensures ok { IfOk result (λ images. images_in net.now contexts bytes.now ≡ Says images) }
    ensures images_for { IfOk result (AreImagesFor net.now contexts) }
    ensures not_json { IsErrOf result ImageError.NotJson → images_in net.now contexts bytes.now ≡ NoJson }
    ensures bad_shape { (at : PlaceValue) → IsErrOf result (ImageError.BadShape at)
        → images_in net.now contexts bytes.now ≡ RefusedAt at }
    ensures no_memory_cell { (name : List ℕ) → IsErrOf result (ImageError.NoMemoryCell name)
        → images_in net.now contexts bytes.now ≡ NamesNoMemory name }
    ensures count { (name : List ℕ) (found : ℕ) → IsErrOf result (ImageError.Count name found)
        → images_in net.now contexts bytes.now ≡ HasOtherCount name found }

    // The other way, each answer comes unless memory ran out.
    ensures ok_comes { (images : ImagesValue) → images_in net.now contexts bytes.now ≡ Says images
        → (result ≡ Ok images) ⊎ IsErrOf result ImageError.NoMemory }
    ensures not_json_comes { images_in net.now contexts bytes.now ≡ NoJson
        → IsErrOf result ImageError.NotJson ⊎ IsErrOf result ImageError.NoMemory }
    ensures bad_shape_comes { (at : PlaceValue) → images_in net.now contexts bytes.now ≡ RefusedAt at
        → IsErrOf result (ImageError.BadShape at) ⊎ IsErrOf result ImageError.NoMemory }
    ensures no_memory_cell_comes { (name : List ℕ) → images_in net.now contexts bytes.now ≡ NamesNoMemory name
        → IsErrOf result (ImageError.NoMemoryCell name) ⊎ IsErrOf result ImageError.NoMemory }
    ensures count_comes { (name : List ℕ) (found : ℕ) → images_in net.now contexts bytes.now ≡ HasOtherCount name found
        → IsErrOf result (ImageError.Count name found) ⊎ IsErrOf result ImageError.NoMemory }
{
    answer(alloc, bytes, net, contexts)
}
