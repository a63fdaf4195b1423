// The greatest solution under caps (Cormen et al., 24.4, and Leiserson and Saxe).
ghost use Rattle.std.specs.Prelude.{◌≡◌, ℤ, pos, Some, OnOk, IfOk, IfErr, map, length};
ghost use Rattle.std.specs.List.{All};
ghost use Rattle.std.specs.Option.{unwrap_or};
ghost use Rattle.cs_diff.specs.Labels.{AreStarts, AreSettled};
ghost use Rattle.cs_base.specs.Ranges.{IsSmall};
ghost use Rattle.cs_diff.specs.Systems.{HasSolution, IsGreatest, Explains, value_of};

use crate::error::DiffError;
use crate::reading::Reading;
use crate::settle::settle;
use crate::system::System;
use std::alloc::{AllocError, Global};

/// The labels to begin with: the caps.
fn labels_of(alloc: Global, caps: &[i64]) -> Result<Vec<Option<i64>>, AllocError>
    ensures { IfOk result (λ labels. labels.items ≡ map (λ cap. Some cap) caps.now) }
{
    caps.iter().map(|cap| Some(*cap)).collect(alloc)
}

/// The values that labels tell; no label is missing.
fn values_of(alloc: Global, labels: &[Option<i64>]) -> Result<Vec<i64>, AllocError>
    ensures { IfOk result (λ values. values.items ≡ map (λ label. unwrap_or label (pos 0)) labels.now) }
{
    labels.iter().map(|label| label.unwrap_or(0)).collect(alloc)
}

/// Settles the labels and tells them as values.
fn solve_from(
    alloc: Global,
    sys: &System,
    labels: &mut [Option<i64>],
) -> Result<Vec<i64>, DiffError>
    requires len { length labels.old ≡ sys.now.vertices }
    requires starts { AreStarts sys.now.vertices labels.old }
    ensures settled { OnOk result (AreSettled Reading.Upper sys.now.constraints labels.old labels.new) }
    ensures values { IfOk result (λ values. values.items
        ≡ map (λ label. unwrap_or label (pos 0)) labels.new) }
    ensures err { IfErr result (Explains sys.now) }
{
    settle(alloc, sys, Reading::Upper, labels)?;
    Ok(values_of(alloc, labels)?)
}

/// The greatest solution that is nowhere above the caps, by vertex, or constraints that close a
/// loop with a sum below 0 exactly where there is no solution. There is one cap for each vertex,
/// between -2^31 and 2^31. The time is that of as many passes over the constraints as a shortest
/// path has constraints, and of a search among the vertices for each pass.
pub fn solve(alloc: Global, sys: &System, caps: &[i64]) -> Result<Vec<i64>, DiffError>
    requires count { length caps.now ≡ sys.now.vertices }
    requires range { All IsSmall caps.now }
    ensures count { IfOk result (λ values. length values.items ≡ sys.now.vertices) }
    ensures greatest { IfOk result (λ values.
        IsGreatest sys.now (value_of caps.now) (value_of values.items)) }
    ensures solvable { OnOk result (HasSolution sys.now) }
    ensures err { IfErr result (Explains sys.now) }
{
    let mut labels = labels_of(alloc, caps)?;
    solve_from(alloc, sys, labels.as_mut_slice())
}
