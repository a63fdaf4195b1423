// Relaxation of constraints (Cormen et al., RELAX): a label falls to what the constraint allows.
ghost use Rattle.std.specs.Prelude.{◌≡◌, ◌<◌, ◌*◌, ◌≤ℤ◌, ℤ, ◌^◌, ◌↔◌, ◌+ℤ◌, ◌<ℤ◌, pos, ℕ, Some, IsTrue, length, slice_get};
ghost use Rattle.std.specs.Bool.{OnTrue, OnFalse};
ghost use Rattle.std.specs.Option.{option_map};
ghost use Rattle.cs_diff.specs.Ranges.{IsAmong};
ghost use Rattle.cs_diff.specs.declared.system.Constraint.{Constraint};
ghost use Rattle.cs_diff.specs.Labels.{tail, at, Keeps, KeepAll, IsLowered, AreInRange, Tells};

use crate::reading::Reading;
use crate::system::{Constraint, System};

/// What a relaxation, or a pass of them, did to the labels.
#[derive(Clone, Copy, Debug, PartialEq, Eq)]
pub enum Outcome {
    /// Nothing: what was relaxed is kept.
    Kept,
    /// Some labels fell, and all are in their range.
    Lowered,
    /// The label of this vertex fell below the range, so its parents close a loop.
    TooLow(u32),
}

/// Whether a label is below all that a path without a repeated vertex gives.
fn is_too_low(sys: &System, label: i64) -> bool
    ensures { IsTrue result ↔ ((label +ℤ pos (2 ^ 31 * sys.now.vertices)) <ℤ pos 0) }
{
    let reach = u64::from(sys.vertices) * (1 << 31);
    label < -(reach as i64)
}

/// What the constraint allows its head, by the label of its tail.
pub fn allowed(
    sys: &System,
    reading: Reading,
    constraint: Constraint,
    labels: &[Option<i64>],
) -> Option<i64>
    requires among { IsAmong sys.now.vertices constraint }
    requires len { length labels.now ≡ sys.now.vertices }
    requires range { AreInRange sys.now.vertices labels.now }
    ensures { result
        ≡ option_map (λ z. z +ℤ constraint.most) (at labels.now (tail reading constraint)) }
{
    // There are fewer than 2^32 vertices, so a label and a constraint fit 64 bits together.
    let _vertices = sys.vertices;
    let label = labels[constraint.tail(reading) as usize]?;
    Some(label + constraint.most)
}

/// Whether a label is missing or above the bound.
fn is_violated(label: Option<i64>, bound: i64) -> bool
    ensures yes { OnTrue result ((y : ℤ) → label ≡ Some y → bound <ℤ y) }
    ensures no { OnFalse result ((y : ℤ) × (label ≡ Some y) × (y ≤ℤ bound)) }
{
    match label {
        Some(label) => bound < label,
        None => true,
    }
}

/// Lowers the label of the constraint's head to what the label of its tail allows, where it is
/// above.
pub fn relax(
    sys: &System,
    reading: Reading,
    place: u32,
    labels: &mut [Option<i64>],
    parents: &mut [Option<u32>],
) -> Outcome
    requires place_in { place < length sys.now.constraints }
    requires labels_len { length labels.old ≡ sys.now.vertices }
    requires parents_len { length parents.old ≡ sys.now.vertices }
    requires range { AreInRange sys.now.vertices labels.old }
    ensures lowered { IsLowered reading sys.now.constraints
        labels.old parents.old labels.new parents.new }
    ensures outcome { let keeps = (c : Constraint) → slice_get sys.now.constraints place ≡ Some c
        → Keeps reading labels.old c in
        Tells sys.now.vertices keeps labels.old labels.new result }
{
    let constraint = sys.at(place);
    let head = constraint.head(reading);
    let Some(bound) = allowed(sys, reading, constraint, labels) else {
        return Outcome::Kept;
    };
    if !is_violated(labels[head as usize], bound) {
        return Outcome::Kept;
    }
    labels[head as usize] = Some(bound);
    parents[head as usize] = Some(place);
    if is_too_low(sys, bound) {
        Outcome::TooLow(head)
    } else {
        Outcome::Lowered
    }
}

/// Relaxes every constraint once, from the front or from the back, and stops where a label falls
/// too low.
pub fn pass(
    sys: &System,
    reading: Reading,
    back: bool,
    labels: &mut [Option<i64>],
    parents: &mut [Option<u32>],
) -> Outcome
    requires labels_len { length labels.old ≡ sys.now.vertices }
    requires parents_len { length parents.old ≡ sys.now.vertices }
    requires range { AreInRange sys.now.vertices labels.old }
    ensures lowered { IsLowered reading sys.now.constraints
        labels.old parents.old labels.new parents.new }
    ensures outcome { let keeps = KeepAll reading sys.now.constraints labels.old in
        Tells sys.now.vertices keeps labels.old labels.new result }
{
    let mut changed = false;
    for turn in 0..sys.len() {
        match relax(sys, reading, sys.turn(back, turn), labels, parents) {
            Outcome::Kept => {}
            Outcome::Lowered => changed = true,
            Outcome::TooLow(vertex) => return Outcome::TooLow(vertex),
        }
    }
    if changed {
        Outcome::Lowered
    } else {
        Outcome::Kept
    }
}
