// What the fakes in memory share: files and plans as lists, the newest entry first.
ghost use Rattle.std.specs.Prelude.{◌≡◌, ◌++◌, [], ◌∷◌, OnOk, OnErr, take};
ghost use Rattle.std.specs.Option.{option_copied};
ghost use Rattle.std.specs.FinMap as map;

use std::alloc::{AllocError, Global};

/// A file in memory.
#[derive(Drop)]
pub(crate) struct NamedFile {
    pub(crate) name: String,
    pub(crate) bytes: Vec<u8>,
}

ghost use Rattle.cs_io.specs.Memory.{files_of, plan_of};

pub(crate) fn find<'a>(files: &'a [NamedFile], name: &str) -> Option<&'a [u8]>
    ensures { option_copied result ≡ map.get (files_of files.now) name.now }
{
    for held in files {
        if name == held.name.as_str() {
            return Some(&held.bytes);
        }
    }
    None
}

// Puts a file before the others, which hides an older one of its name.
pub(crate) fn insert_file(
    alloc: Global,
    files: &mut Vec<NamedFile>,
    name: &str,
    bytes: &[u8],
) -> Result<(), AllocError>
    ensures ok { OnOk result (files_of files.new.items ≡ map.insert (files_of files.old.items) name.now bytes.now) }
    ensures err { OnErr result (files.new.items ≡ files.old.items) }
{
    let held = NamedFile {
        name: String::from_str(alloc, name)?,
        bytes: bytes.to_vec(alloc)?,
    };
    files.insert(0, held)?;
    Ok(())
}

// How many bytes a call leaves behind that is to fail.
pub(crate) fn plan_at(plan: &[(u64, usize)], call: u64) -> Option<usize>
    ensures { result ≡ map.get (plan_of plan.now) call }
{
    for &(number, keep) in plan {
        if number == call {
            return Some(keep);
        }
    }
    None
}

pub(crate) fn plan_call(
    plan: &mut Vec<(u64, usize)>,
    call: u64,
    keep: usize,
) -> Result<(), AllocError>
    ensures ok { OnOk result (plan_of plan.new.items ≡ map.insert (plan_of plan.old.items) call keep) }
    ensures err { OnErr result (plan.new.items ≡ plan.old.items) }
{
    plan.insert(0, (call, keep))?;
    Ok(())
}

// The first `keep` bytes, or all where there are fewer.
pub(crate) fn front(bytes: &[u8], keep: usize) -> &[u8]
    ensures { result.now ≡ take keep bytes.now }
{
    if keep < bytes.len() {
        &bytes[..keep]
    } else {
        bytes
    }
}
