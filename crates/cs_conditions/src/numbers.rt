// Numbers of bits: which a list has twice, and the least of them.
ghost use Rattle.std.specs.Prelude.{◌≡◌, IfOk, min, unwrap_or};
ghost use Rattle.cs_conditions.specs.Conditions.{duplicates, least};

use indexmap::IndexSet;
use std::alloc::{AllocError, Global};

fn lesser(found: Option<u32>, number: u32) -> u32
    ensures { result ≡ min number (unwrap_or found number) }
{
    match found {
        Some(other) => number.min(other),
        None => number,
    }
}

/// The least number that stands twice.
pub(crate) fn least_duplicate(alloc: Global, numbers: &[u32]) -> Result<Option<u32>, AllocError>
    ensures { IfOk result (λ found. found ≡ least (duplicates numbers.now)) }
{
    let mut seen = IndexSet::new(alloc);
    let mut least = None;
    for number in numbers {
        if !seen.insert(*number)? {
            least = Some(lesser(least, *number));
        }
    }
    Ok(least)
}

/// The least of some numbers.
pub(crate) fn least_of(numbers: &[u32]) -> Option<u32>
    ensures { result ≡ least numbers.now }
{
    let mut found = None;
    for number in numbers {
        found = Some(lesser(found, *number));
    }
    found
}
