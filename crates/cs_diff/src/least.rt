// Least values over all solutions with a root at 0: the greatest labels of the negated values.
ghost use Rattle.std.specs.Prelude.{◌≡◌, ◌<◌, ◌-◌, ◌^◌, ◌≤ℤ◌, ◌+ℤ◌, pos, neg_ℤ, None, OnOk, IfOk, IfErr, length, map, replicate, slice_set};
ghost use Rattle.std.specs.Option.{option_map, ForSome};
ghost use Rattle.cs_diff.specs.Floors.{AreFloors};
ghost use Rattle.cs_diff.specs.Labels.{AreInRange, AreStarts, AreSettled};
ghost use Rattle.cs_diff.specs.Steps.{root_label};
ghost use Rattle.cs_diff.specs.Systems.{HasSolution, Explains};

use crate::bounds::solve;
use crate::error::DiffError;
use crate::reading::Reading;
use crate::settle::settle;
use crate::steps::steps_of;
use crate::system::System;
use crate::types::Floors;
use cs_base::Sequence;
use std::alloc::{AllocError, Global};

/// Refuses a system without a solution.
fn check_solvable(alloc: Global, sys: &System) -> Result<(), DiffError>
    ensures solvable { OnOk result (HasSolution sys.now) }
    ensures err { IfErr result (Explains sys.now) }
{
    let caps = vec![in alloc; 0; sys.vertices as usize]?;
    let _solution = solve(alloc, sys, caps.as_slice())?;
    Ok(())
}

/// Settles the labels of the negated values, where no loop can show.
fn settle_lower(alloc: Global, sys: &System, labels: &mut [Option<i64>]) -> Result<(), DiffError>
    requires solvable { HasSolution sys.now }
    requires len { length labels.old ≡ sys.now.vertices }
    requires starts { AreStarts sys.now.vertices labels.old }
    ensures ok { OnOk result (AreSettled Reading.Lower sys.now.constraints labels.old labels.new) }
    ensures range { OnOk result (AreInRange sys.now.vertices labels.new) }
    ensures err { IfErr result (Explains sys.now) }
{
    match settle(alloc, sys, Reading::Lower, labels) {
        Err(DiffError::Negative(_)) => unreachable!(),
        settled => settled,
    }
}

/// The negated value; it fits.
fn negative(value: i64) -> i64
    requires { pos 0 ≤ℤ (value +ℤ pos (2 ^ 63 - 1)) }
    ensures { result ≡ neg_ℤ value }
{
    -value
}

/// The least value that the label of a negated value tells.
fn negated(label: Option<i64>) -> Option<i64>
    requires { ForSome label (λ z. pos 0 ≤ℤ (z +ℤ pos (2 ^ 63 - 1))) }
    ensures { result ≡ option_map neg_ℤ label }
{
    match label {
        Some(label) => Some(negative(label)),
        None => None,
    }
}

/// The least values that the labels tell.
fn least_of(
    alloc: Global,
    sys: &System,
    labels: &[Option<i64>],
) -> Result<Sequence<Option<i64>>, AllocError>
    requires { AreInRange sys.now.vertices labels.now }
    ensures { IfOk result (λ least. least ≡ map (option_map neg_ℤ) labels.now) }
{
    // There are fewer than 2^32 vertices, so a negated label fits 64 bits.
    let _vertices = sys.vertices;
    let mut least = Sequence::new(alloc);
    for label in labels {
        least.push(negated(*label))?;
    }
    Ok(least)
}

/// The floors, given labels that are all missing.
fn floors_from(
    alloc: Global,
    sys: &System,
    root: u32,
    labels: &mut [Option<i64>],
) -> Result<Floors, DiffError>
    requires within { root < sys.now.vertices }
    requires solvable { HasSolution sys.now }
    requires fresh { labels.old ≡ replicate sys.now.vertices None }
    ensures floors { IfOk result (AreFloors sys.now root) }
    ensures err { IfErr result (Explains sys.now) }
{
    labels[root as usize] = Some(0);
    settle_lower(alloc, sys, labels)?;
    let least = least_of(alloc, sys, labels)?;
    let steps = steps_of(alloc, sys, root, labels)?;
    Ok(Floors { least, steps })
}

/// The least value of each vertex over all solutions with the root at 0, with steps that show it,
/// or constraints that close a loop with a sum below 0 exactly where the system has no solution.
/// The time is that of `solve`, of as many passes again, and of as many to find the steps.
pub fn floors(alloc: Global, sys: &System, root: u32) -> Result<Floors, DiffError>
    requires { root < sys.now.vertices }
    ensures floors { IfOk result (AreFloors sys.now root) }
    ensures solvable { OnOk result (HasSolution sys.now) }
    ensures err { IfErr result (Explains sys.now) }
{
    check_solvable(alloc, sys)?;
    let mut labels = vec![in alloc; None; sys.vertices as usize]?;
    floors_from(alloc, sys, root, labels.as_mut_slice())
}
