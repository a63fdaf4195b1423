// What stands in a list or under a key of a JSON value.
ghost use Rattle.std.specs.Prelude.{map};
ghost use Rattle.serde_json.specs.Data.{Data};
ghost use Rattle.serde_json.specs.View.{view, members_view};
ghost use Rattle.cs_json.specs.Gives.{Gives};
ghost use Rattle.cs_json.specs.Walk.{Read, each_item, required as required_at};
ghost use Rattle.cs_cert.specs.PaperShape.{items};

use cs_base::Sequence;
use cs_json::ReadError;
use cs_json::members::{Members, required};
use cs_json::places::{at_item, at_key, refused_here};
use serde_json::Value;
use std::alloc::Global;

pub(crate) trait Readable: Drop {
    // What is read of a value.
    ghost read_from: { Data → Read Self };

    fn read(alloc: Global, value: &Value) -> Result<Self, ReadError>
        ensures { Gives result (read_from (view value.now)) };
}

fn each<T: Readable>(alloc: Global, items: &[Value]) -> Result<Sequence<T>, ReadError>
    ensures { Gives result (each_item T.read_from 0 (map view items.now)) }
{
    let mut found = Sequence::new(alloc);
    for (i, item) in items.iter().enumerate() {
        found.push(at_item(alloc, i, T::read(alloc, item))?)?;
    }
    Ok(found)
}

/// A list of things of a kind.
pub(crate) fn listed<T: Readable>(alloc: Global, value: &Value) -> Result<Sequence<T>, ReadError>
    ensures { Gives result (items T.read_from (view value.now)) }
{
    match value {
        Value::Array(items) => each(alloc, items.as_slice()),
        _ => Err(refused_here(alloc)),
    }
}

/// The thing at a key, which has to be there.
pub(crate) fn read_at<T: Readable>(
    alloc: Global,
    members: &Members,
    key: &str,
) -> Result<T, ReadError>
    ensures { Gives result (required_at T.read_from key.now (members_view members.now.entries)) }
{
    let value = required(alloc, members, key)?;
    at_key(alloc, key, T::read(alloc, value))
}

/// The list at a key, which has to be there.
pub(crate) fn listed_at<T: Readable>(
    alloc: Global,
    members: &Members,
    key: &str,
) -> Result<Sequence<T>, ReadError>
    ensures { Gives result
        (required_at (items T.read_from) key.now (members_view members.now.entries)) }
{
    let value = required(alloc, members, key)?;
    at_key(alloc, key, listed(alloc, value))
}
