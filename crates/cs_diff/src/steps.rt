// Steps that show least values: tight constraints, each from a vertex that is reached to one that
// is not yet.
ghost use Rattle.std.specs.Prelude.{◌≡◌, ◌<◌, pos, neg_ℤ, [], true, slice_set, Some, IfOk, OnOk, length};
ghost use Rattle.std.specs.Bool.{OnTrue, OnFalse};
ghost use Rattle.std.specs.Option.{option_map};
ghost use Rattle.cs_diff.specs.Floors.{Shows, root_alone};
ghost use Rattle.cs_diff.specs.Ranges.{IsAmong};
ghost use Rattle.cs_diff.specs.Labels.{at, AreInRange, AreReached};
ghost use Rattle.cs_diff.specs.Steps.{IsStep, HasTaken, NoStep, IsExtended, HasStepped, root_label};

use crate::reading::Reading;
use crate::relax::allowed;
use crate::system::{Constraint, System};
use cs_base::Sequence;
use std::alloc::{AllocError, Global};

/// Whether the constraint leads from a reached vertex to one that is not, by their labels exactly.
fn is_step(sys: &System, labels: &[Option<i64>], reached: &[bool], constraint: Constraint) -> bool
    requires among { IsAmong sys.now.vertices constraint }
    requires labels_len { length labels.now ≡ sys.now.vertices }
    requires reached_len { length reached.now ≡ sys.now.vertices }
    requires range { AreInRange sys.now.vertices labels.now }
    ensures yes { OnTrue result (IsStep labels.now reached.now constraint) }
    ensures no { OnFalse result (¬ (IsStep labels.now reached.now constraint)) }
{
    if !reached[constraint.from as usize] || reached[constraint.to as usize] {
        return false;
    }
    match allowed(sys, Reading::Lower, constraint, labels) {
        Some(bound) => labels[constraint.to as usize] == Some(bound),
        None => false,
    }
}

/// Takes the constraint of this place where it is a step, and tells whether it is.
fn take_step(
    sys: &System,
    labels: &[Option<i64>],
    place: u32,
    reached: &mut [bool],
    steps: &mut Sequence<u32>,
) -> Result<bool, AllocError>
    requires place_in { place < length sys.now.constraints }
    requires labels_len { length labels.now ≡ sys.now.vertices }
    requires reached_len { length reached.old ≡ sys.now.vertices }
    requires range { AreInRange sys.now.vertices labels.now }
    ensures { IfOk result (HasTaken sys.now labels.now place
        reached.old steps.old reached.new steps.new) }
{
    let constraint = sys.at(place);
    if !is_step(sys, labels, reached, constraint) {
        return Ok(false);
    }
    steps.push(place)?;
    reached[constraint.to as usize] = true;
    Ok(true)
}

/// Takes the steps among all constraints once, from the front or from the back, and tells whether
/// there was one.
fn step_pass(
    sys: &System,
    back: bool,
    labels: &[Option<i64>],
    reached: &mut [bool],
    steps: &mut Sequence<u32>,
) -> Result<bool, AllocError>
    requires labels_len { length labels.now ≡ sys.now.vertices }
    requires reached_len { length reached.old ≡ sys.now.vertices }
    requires range { AreInRange sys.now.vertices labels.now }
    ensures extended { OnOk result (IsExtended sys.now labels.now
        reached.old steps.old reached.new steps.new) }
    ensures stepped { IfOk result (HasStepped sys.now labels.now reached.old reached.new) }
{
    let mut stepped = false;
    for turn in 0..sys.len() {
        if take_step(sys, labels, sys.turn(back, turn), reached, steps)? {
            stepped = true;
        }
    }
    Ok(stepped)
}

/// Takes steps from the root until there is none. There are at most as many passes as the labels
/// took to settle.
fn steps_from(
    alloc: Global,
    sys: &System,
    root: u32,
    labels: &[Option<i64>],
    reached: &mut [bool],
) -> Result<Sequence<u32>, AllocError>
    requires within { root < sys.now.vertices }
    requires labels_len { length labels.now ≡ sys.now.vertices }
    requires reached_len { length reached.old ≡ sys.now.vertices }
    requires range { AreInRange sys.now.vertices labels.now }
    ensures extended { IfOk result (λ steps. IsExtended sys.now labels.now
        (slice_set reached.old root true) [] reached.new steps) }
    ensures done { OnOk result (NoStep sys.now labels.now reached.new) }
{
    let mut steps = Sequence::new(alloc);
    reached[root as usize] = true;
    let mut back = false;
    loop {
        if !step_pass(sys, back, labels, reached, &mut steps)? {
            return Ok(steps);
        }
        back = !back;
    }
}

/// Steps from the root that show each label, which came from the root's by tight constraints.
pub fn steps_of(
    alloc: Global,
    sys: &System,
    root: u32,
    labels: &[Option<i64>],
) -> Result<Sequence<u32>, AllocError>
    requires within { root < sys.now.vertices }
    requires len { length labels.now ≡ sys.now.vertices }
    requires range { AreInRange sys.now.vertices labels.now }
    requires root { at labels.now root ≡ Some (pos 0) }
    requires reached { AreReached Reading.Lower sys.now.constraints
        (root_label sys.now.vertices root) labels.now }
    ensures { IfOk result (λ steps.
        Shows sys.now (root_alone root) steps (λ v. option_map neg_ℤ (at labels.now v))) }
{
    let mut reached = vec![in alloc; false; sys.vertices as usize]?;
    steps_from(alloc, sys, root, labels, reached.as_mut_slice())
}
