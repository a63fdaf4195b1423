// Lower bounds of lags.
ghost use Rattle.std.specs.Prelude.{◌≡◌, ◌<◌, ◌≤◌, ◌+◌, ◌*◌, ◌^◌, ◌↔◌, ◌≤ℤ◌, ◌+ℤ◌, ◌-ℤ◌, ℕ, ℤ, pos, negsuc, IfSome, IfNone, IsTrue, List, Some, None, is_none, length, count_by, slice_get, slice_set};
ghost use Rattle.std.specs.Bool.{OnTrue, OnFalse};
ghost use Rattle.cs_graph.specs.Lags.{IsLegal, lag_at};
ghost use Rattle.cs_graph.specs.Period.{IsPeriodWithin};
ghost use Rattle.cs_cert.specs.Floors.{AreBoundBy, AreNear, IsBoundBy, LowerBounds, pinned_bounds};

use crate::reach::{Reach, reach_of};
use crate::step::Step;
use cs_base::{Mode, VertexId};
use cs_graph::{Delays, Machine};

/// A bound less a cost.
fn lowered(known: i128, cost: i128) -> i128
    requires low { pos 0 ≤ℤ (known +ℤ pos (2 ^ 112)) }
    requires high { known ≤ℤ pos (2 ^ 112) }
    requires least { negsuc 0 ≤ℤ cost }
    requires most { cost ≤ℤ pos (2 ^ 98) }
    ensures { result ≡ known -ℤ cost }
{
    known - cost
}

/// The known bound of a vertex.
fn bound_at(least: &[Option<i128>], v: VertexId) -> Option<i128>
    ensures known { IfSome result (λ z. slice_get least.now v ≡ Some (Some z)) }
    ensures unknown { IfNone result ((z : ℤ) → slice_get least.now v ≡ Some (Some z) → ⊥) }
{
    match least.get(v.get() as usize) {
        Some(bound) => *bound,
        None => None,
    }
}

/// Whether it is a vertex whose bound isn't known.
fn is_open(least: &[Option<i128>], v: VertexId) -> bool
    ensures { IsTrue result ↔ (slice_get least.now v ≡ Some None) }
{
    matches!(least.get(v.get() as usize), Some(None))
}

/// Takes a step, and tells whether it is valid and leads from a known bound to one that isn't.
fn take_step(
    machine: &Machine,
    delays: &Delays,
    mode: Mode,
    bound: u64,
    step: &Step,
    least: &mut [Option<i128>],
) -> bool
    requires near { AreNear (2 ^ 112) least.old }
    ensures taken { OnTrue result (IsBoundBy machine.now delays.now mode bound step.now least.old least.new) }
    ensures refused { OnFalse result ((new : LowerBounds)
        → IsBoundBy machine.now delays.now mode bound step.now least.old new → ⊥) }
    ensures near { OnTrue result ((far : ℕ) → AreNear far least.old → AreNear (far + 2 ^ 98) least.new) }
    ensures fewer { OnTrue result (count_by is_none least.new + 1 ≡ count_by is_none least.old) }
{
    let Some(reach) = reach_of(machine, delays, mode, bound, step) else {
        return false;
    };
    let Some(known) = bound_at(least, reach.from) else {
        return false;
    };
    if !is_open(least, reach.to) {
        return false;
    }
    least[reach.to.get() as usize] = Some(lowered(known, reach.cost));
    true
}

/// Takes the steps in turn, up to the first that can't be taken, and tells whether all were.
fn take_steps(
    machine: &Machine,
    delays: &Delays,
    mode: Mode,
    bound: u64,
    steps: &[Step],
    least: &mut [Option<i128>],
) -> bool
    requires near { AreNear 0 least.old }
    requires few { count_by is_none least.old ≤ 4096 }
    ensures taken { OnTrue result (AreBoundBy machine.now delays.now mode bound steps.now least.old least.new) }
    ensures refused { OnFalse result ((new : LowerBounds)
        → AreBoundBy machine.now delays.now mode bound steps.now least.old new → ⊥) }
{
    for step in steps {
        if !take_step(machine, delays, mode, bound, step, least) {
            return false;
        }
    }
    true
}

/// What is known of a vertex without a step.
fn pinned_bound(machine: &Machine, v: VertexId) -> Option<i128>
    requires { v < length machine.now.vertices }
    ensures { slice_get (pinned_bounds machine.now) v ≡ Some result }
{
    if machine.is_pinned(v) { Some(0) } else { None }
}

/// Writes 0 for each vertex that no lag moves, and nothing for the others.
fn write_pinned(machine: &Machine, least: &mut [Option<i128>])
    requires { length least.old ≡ length machine.now.vertices }
    ensures { least.new ≡ pinned_bounds machine.now }
{
    for v in 0..machine.vertex_count() {
        let known = pinned_bound(machine, VertexId::new(v));
        least[v as usize] = known;
    }
}

/// Whether the steps are valid for the bound and each leads from a vertex whose lower bound is known to one whose isn't,
/// which then is that of the first less what the step costs; 0 is known of each vertex that no lag moves. The bounds are
/// written to `least`, one for each vertex. Where the answer is true, all legal lags of that mode with a period at most
/// the bound are at least these. It takes no memory.
pub fn check_floors(
    machine: &Machine,
    delays: &Delays,
    mode: Mode,
    bound: u64,
    steps: &[Step],
    least: &mut [Option<i128>],
) -> bool
    requires { length least.old ≡ length machine.now.vertices }
    ensures shown { OnTrue result (AreBoundBy machine.now delays.now mode bound steps.now (pinned_bounds machine.now) least.new) }
    ensures refused { OnFalse result ((new : LowerBounds)
        → AreBoundBy machine.now delays.now mode bound steps.now (pinned_bounds machine.now) new → ⊥) }
    ensures sound { OnTrue result ((lags : List ℤ) → IsLegal machine.now mode lags
        → IsPeriodWithin machine.now delays.now lags bound
        → (v : ℕ) (z : ℤ) → slice_get least.new v ≡ Some (Some z) → z ≤ℤ lag_at lags v) }
{
    machine.keeps();
    write_pinned(machine, least);
    take_steps(machine, delays, mode, bound, steps, least)
}
