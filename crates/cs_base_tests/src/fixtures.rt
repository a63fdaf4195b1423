// Values that are kept, and assertions of the rows of tables.
ghost use Rattle.std.specs.Prelude.{◌≡◌};

use std::alloc::Global;
use std::process::Abort;

/// A value that is never freed: a test ends with its process.
pub fn keep<'a, T: Drop + 'a>(rt: &impl Abort, alloc: Global, value: T) -> &'a T
    ensures { result.now ≡ value }
{
    let kept: Result<_, _> = Box::new(alloc, value);
    Box::leak(kept.expect(rt, "memory"))
}

/// Asserts what a row says; a failure tells its text.
pub fn assert_row(rt: &impl Abort, holds: bool, text: &str) {
    assert!(rt; holds, "{text}");
}

/// Asserts what a row says; a failure tells its number.
pub fn assert_at(rt: &impl Abort, holds: bool, place: usize) {
    assert!(rt; holds, "at {place}");
}
