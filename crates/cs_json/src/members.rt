// Looking into an object.
ghost use Rattle.std.specs.Prelude.{◌≡◌, Ok, Some, None, option_map, MatchResult};
ghost use Rattle.serde_json.specs.Find.{get_member};
ghost use Rattle.serde_json.specs.View.{view, members_view};
ghost use Rattle.cs_json.specs.Gives.{Fails, members_at};
ghost use Rattle.cs_json.specs.Shape.{says};
ghost use Rattle.cs_json.specs.Walk.{found, members, optional, under, to_key};

use crate::error::ReadError;
use crate::places::{refused_at, refused_here};
use serde_json::{Map, Value};
use std::alloc::Global;

/// The members of an object, in byte order of their keys.
pub type Members = Map<String, Value>;

/// The member at a key.
pub fn member<'v>(map: &'v Members, key: &str) -> Option<&'v Value>
    ensures { option_map (λ v. view v.now) result
        ≡ get_member key.now (members_view map.now.entries) }
{
    map.get(key)
}

/// Whether a member is this text.
pub fn says(map: &Members, key: &str, word: &str) -> bool
    ensures { result ≡ says word.now key.now (members_view map.now.entries) }
{
    match member(map, key) {
        Some(Value::String(text)) => text.as_str() == word,
        _ => false,
    }
}

/// The members of a value, which has to be an object.
pub fn object(alloc: Global, value: &Value) -> Result<&Members, ReadError>
    ensures { MatchResult result
        (λ m. members (view value.now) ≡ Ok (members_view m.now.entries))
        (λ e. Fails e (members (view value.now))) }
{
    match value {
        Value::Object(map) => Ok(map),
        _ => Err(refused_here(alloc)),
    }
}

/// The member at a key, which has to be there: where it is missing, its own place is refused.
pub fn required<'v>(alloc: Global, map: &'v Members, key: &str) -> Result<&'v Value, ReadError>
    ensures { MatchResult result
        (λ v. get_member key.now (members_view map.now.entries) ≡ Some (view v.now))
        (λ e. Fails e (under (to_key key.now)
        (found (get_member key.now (members_view map.now.entries))))) }
{
    match member(map, key) {
        Some(value) => Ok(value),
        None => Err(refused_at(alloc, key)),
    }
}

/// The object at a key, if it is there; the member there has to be an object.
pub fn optional<'v>(
    alloc: Global,
    map: &'v Members,
    key: &str,
) -> Result<Option<&'v Members>, ReadError>
    ensures { MatchResult result
        (λ o. optional key.now (members_view map.now.entries) ≡ Ok (members_at o))
        (λ e. Fails e (optional key.now (members_view map.now.entries))) }
{
    match member(map, key) {
        Some(Value::Object(found)) => Ok(Some(found)),
        Some(_) => Err(refused_at(alloc, key)),
        None => Ok(None),
    }
}
