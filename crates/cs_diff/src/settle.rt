// The labelling method (Bellman, Ford, Moore): passes over the constraints, in turn from the front
// and from the back (Yen), until all are kept, with a search for a loop among the parents whenever
// the passes since the last one cost as much as a search.
ghost use Rattle.std.specs.Prelude.{◌≡◌, ℕ, None, OnOk, IfErr, length};
ghost use Rattle.cs_diff.specs.Labels.{at, AreInRange, AreStarts, AreSettled, ExplainsBy};

use crate::climb::{any_loop, loop_above};
use crate::error::DiffError;
use crate::reading::Reading;
use crate::relax::{Outcome, pass};
use crate::system::System;
use std::alloc::Global;

/// Passes until a pass changes nothing, or a loop shows. No vertex has a parent yet.
fn settle_from(
    alloc: Global,
    sys: &System,
    reading: Reading,
    labels: &mut [Option<i64>],
    parents: &mut [Option<u32>],
) -> Result<(), DiffError>
    requires labels_len { length labels.old ≡ sys.now.vertices }
    requires parents_len { length parents.old ≡ sys.now.vertices }
    requires starts { AreStarts sys.now.vertices labels.old }
    requires fresh { (v : ℕ) → at parents.old v ≡ None }
    ensures ok { OnOk result (AreSettled reading sys.now.constraints labels.old labels.new) }
    ensures range { OnOk result (AreInRange sys.now.vertices labels.new) }
    ensures err { IfErr result (ExplainsBy reading sys.now.constraints) }
{
    let mut unsearched = 0u32;
    let mut back = false;
    loop {
        match pass(sys, reading, back, labels, parents) {
            Outcome::Kept => return Ok(()),
            Outcome::TooLow(vertex) => {
                let places = loop_above(alloc, sys, reading, parents, vertex)?;
                return Err(DiffError::Negative(places));
            }
            Outcome::Lowered => back = !back,
        }
        unsearched = unsearched.saturating_add(sys.len());
        if unsearched >= sys.vertices {
            unsearched = 0;
            if let Some(places) = any_loop(alloc, sys, reading, parents)? {
                return Err(DiffError::Negative(places));
            }
        }
    }
}

/// Lowers the labels until they keep all constraints, or finds a loop that leaves no solution.
pub fn settle(
    alloc: Global,
    sys: &System,
    reading: Reading,
    labels: &mut [Option<i64>],
) -> Result<(), DiffError>
    requires len { length labels.old ≡ sys.now.vertices }
    requires starts { AreStarts sys.now.vertices labels.old }
    ensures ok { OnOk result (AreSettled reading sys.now.constraints labels.old labels.new) }
    ensures range { OnOk result (AreInRange sys.now.vertices labels.new) }
    ensures err { IfErr result (ExplainsBy reading sys.now.constraints) }
{
    let mut parents = vec![in alloc; None; sys.vertices as usize]?;
    settle_from(alloc, sys, reading, labels, parents.as_mut_slice())
}
