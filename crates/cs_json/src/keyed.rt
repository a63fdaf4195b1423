// What stands in an object under a name of its own: ports, cells, pins, netnames and modules.
ghost use Rattle.std.specs.Prelude.{List, ℕ};
ghost use Rattle.serde_json.specs.Data.{Data};
ghost use Rattle.serde_json.specs.View.{view, members_view};
ghost use Rattle.cs_json.specs.Gives.{Gives, members_at};
ghost use Rattle.cs_json.specs.Walk.{Read, each_member, entries};

use crate::error::ReadError;
use crate::members::Members;
use crate::places::at_key;
use cs_base::Sequence;
use serde_json::Value;
use std::alloc::Global;

pub(crate) trait Keyed: Drop {
    // What is read of a name and a value.
    ghost read_from: { List ℕ → Data → Read Self };

    fn read(alloc: Global, name: &str, value: &Value) -> Result<Self, ReadError>
        ensures { Gives result (read_from name.now (view value.now)) };
}

fn each<T: Keyed>(alloc: Global, map: &Members) -> Result<Sequence<T>, ReadError>
    ensures { Gives result
        (each_member T.read_from (entries (members_view map.now.entries))) }
{
    let mut found = Sequence::new(alloc);
    for (name, value) in map.iter() {
        found.push(at_key(alloc, name.as_str(), T::read(alloc, name.as_str(), value))?)?;
    }
    Ok(found)
}

/// All members of an object that may be missing, in byte order of their names.
pub(crate) fn each_at<T: Keyed>(
    alloc: Global,
    map: Option<&Members>,
) -> Result<Sequence<T>, ReadError>
    ensures { Gives result (each_member T.read_from (entries (members_at map.entry))) }
{
    match map {
        Some(map) => each(alloc, map),
        None => Ok(Sequence::new(alloc)),
    }
}
