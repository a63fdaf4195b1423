// The walk over a JSON value: the named images that it is, or the first refused place.
ghost use Rattle.std.specs.Prelude.{◌≡◌, codes, map};
ghost use Rattle.serde_json.specs.View.{view, members_view};
ghost use Rattle.cs_json.specs.Gives.{Gives};
ghost use Rattle.cs_json.specs.Walk.{each_item, each_member, entries, required as required_at};
ghost use Rattle.cs_images.specs.Shape.{image, texts, named, all_named, known_version, version, written};

use crate::named::NamedImages;
use cs_base::{Sequence, Text};
use cs_json::members::{Members, object, required};
use cs_json::places::{at_item, at_key, refused_here};
use cs_json::{Datum, ReadError};
use serde_json::Value;
use std::alloc::Global;

// The text of an image.
fn image(alloc: Global, value: &Value) -> Result<Datum, ReadError>
    ensures { Gives result (image (view value.now)) }
{
    match value {
        Value::String(text) => Ok(Datum::Digits(Text::from_str(alloc, text.as_str())?)),
        _ => Err(refused_here(alloc)),
    }
}

fn each_image(alloc: Global, items: &[Value]) -> Result<Sequence<Datum>, ReadError>
    ensures { Gives result (each_item image 0 (map view items.now)) }
{
    let mut found = Sequence::new(alloc);
    for (i, item) in items.iter().enumerate() {
        found.push(at_item(alloc, i, image(alloc, item))?)?;
    }
    Ok(found)
}

fn texts(alloc: Global, value: &Value) -> Result<Sequence<Datum>, ReadError>
    ensures { Gives result (texts (view value.now)) }
{
    match value {
        Value::Array(items) => each_image(alloc, items.as_slice()),
        _ => Err(refused_here(alloc)),
    }
}

fn named(alloc: Global, name: &str, value: &Value) -> Result<NamedImages, ReadError>
    ensures { Gives result (named name.now (view value.now)) }
{
    let texts = texts(alloc, value)?;
    Ok(NamedImages {
        name: Text::from_str(alloc, name)?,
        texts,
    })
}

fn each_named(alloc: Global, map: &Members) -> Result<Sequence<NamedImages>, ReadError>
    ensures { Gives result (each_member named (entries (members_view map.now.entries))) }
{
    let mut found = Sequence::new(alloc);
    for (name, value) in map.iter() {
        found.push(at_key(alloc, name.as_str(), named(alloc, name.as_str(), value))?)?;
    }
    Ok(found)
}

fn all_named(alloc: Global, value: &Value) -> Result<Sequence<NamedImages>, ReadError>
    ensures { Gives result (all_named (view value.now)) }
{
    let members = object(alloc, value)?;
    each_named(alloc, members)
}

// The images under all names, which have to be there.
fn named_in(alloc: Global, members: &Members) -> Result<Sequence<NamedImages>, ReadError>
    ensures { Gives result (required_at all_named (codes "images") (members_view members.now.entries)) }
{
    let value = required(alloc, members, "images")?;
    at_key(alloc, "images", all_named(alloc, value))
}

fn known_version(number: u64) -> Option<u64>
    ensures { result ≡ known_version number }
{
    match number {
        1 => Some(1),
        _ => None,
    }
}

fn version(alloc: Global, value: &Value) -> Result<u64, ReadError>
    ensures { Gives result (version (view value.now)) }
{
    match value.as_u64().and_then(known_version) {
        Some(found) => Ok(found),
        None => Err(refused_here(alloc)),
    }
}

// The version, which has to be there.
fn version_in(alloc: Global, members: &Members) -> Result<u64, ReadError>
    ensures { Gives result (required_at version (codes "version") (members_view members.now.entries)) }
{
    let value = required(alloc, members, "version")?;
    at_key(alloc, "version", version(alloc, value))
}

/// The named images that a JSON value is, in byte order of the names.
#[tactic(auto, unfolding(crate::specs::Shape::written))]
pub(crate) fn written(alloc: Global, value: &Value) -> Result<Sequence<NamedImages>, ReadError>
    ensures { Gives result (written (view value.now)) }
{
    let members = object(alloc, value)?;
    let images = named_in(alloc, members)?;
    let _version = version_in(alloc, members)?;
    Ok(images)
}
