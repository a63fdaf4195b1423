// Paths to a refused place (RFC 6901: `~0` stands for `~`, and `~1` for `/`).
ghost use Rattle.std.specs.Prelude.{◌≡◌, ◌++◌, OnOk, IfOk, string_bytes};
ghost use Rattle.cs_json.specs.Walk.{escaped_char, to_item, to_key, Read, under};
ghost use Rattle.cs_json.specs.Gives.{Gives, RefusesHere, RefusesAt};

use crate::error::ReadError;
use cs_base::Text;
use std::alloc::{AllocError, Global};

/// The value itself is refused.
pub fn refused_here(alloc: Global) -> ReadError
    ensures { RefusesHere result }
{
    ReadError::Refused(Text::from_string(String::new(alloc)))
}

fn push_escaped(path: &mut String, c: char) -> Result<(), AllocError>
    ensures { OnOk result (string_bytes path.new ≡ string_bytes path.old ++ escaped_char c) }
{
    match c {
        '~' => path.push_str("~0"),
        '/' => path.push_str("~1"),
        _ => path.push(c),
    }
}

fn step_to(alloc: Global, key: &str) -> Result<String, AllocError>
    ensures { IfOk result (λ path. string_bytes path ≡ to_key key.now) }
{
    let mut path = String::from_str(alloc, "/")?;
    for c in key.chars() {
        push_escaped(&mut path, c)?;
    }
    Ok(path)
}

fn joined(alloc: Global, key: &str, rest: &Text) -> Result<Text, AllocError>
    ensures { IfOk result (λ path. path ≡ to_key key.now ++ rest.now) }
{
    let mut path = step_to(alloc, key)?;
    path.push_str(rest.as_str())?;
    Ok(Text::from_string(path))
}

/// The member at a key is refused.
pub fn refused_at(alloc: Global, key: &str) -> ReadError
    ensures { RefusesAt (to_key key.now) result }
{
    match step_to(alloc, key) {
        Ok(path) => ReadError::Refused(Text::from_string(path)),
        Err(_) => ReadError::NoMemory,
    }
}

/// What was read of the member at a key, told from the object on.
pub fn at_key<T>(alloc: Global, key: &str, read: Result<T, ReadError>) -> Result<T, ReadError>
    ensures { (value : Read T) → Gives read value → Gives result (under (to_key key.now) value) }
{
    match read {
        Ok(found) => Ok(found),
        Err(ReadError::NoMemory) => Err(ReadError::NoMemory),
        Err(ReadError::Refused(rest)) => match joined(alloc, key, &rest) {
            Ok(path) => Err(ReadError::Refused(path)),
            Err(_) => Err(ReadError::NoMemory),
        },
    }
}

fn joined_item(alloc: Global, i: usize, rest: &Text) -> Result<Text, AllocError>
    ensures { IfOk result (λ path. path ≡ to_item i ++ rest.now) }
{
    let mut path = format!(in alloc; "/{i}")?;
    path.push_str(rest.as_str())?;
    Ok(Text::from_string(path))
}

/// What was read of the item at a place, told from the list on.
pub fn at_item<T>(alloc: Global, i: usize, read: Result<T, ReadError>) -> Result<T, ReadError>
    ensures { (value : Read T) → Gives read value → Gives result (under (to_item i) value) }
{
    match read {
        Ok(found) => Ok(found),
        Err(ReadError::NoMemory) => Err(ReadError::NoMemory),
        Err(ReadError::Refused(rest)) => match joined_item(alloc, i, &rest) {
            Ok(path) => Err(ReadError::Refused(path)),
            Err(_) => Err(ReadError::NoMemory),
        },
    }
}
