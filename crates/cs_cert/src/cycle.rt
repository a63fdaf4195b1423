// Cycles of steps.
ghost use Rattle.std.specs.Prelude.{◌≡◌, ◌<◌, ◌≤◌, ◌^◌, ◌↔◌, ◌<ℤ◌, ◌≤ℤ◌, ◌+ℤ◌, ℕ, ℤ, pos, negsuc, IfSome, IfNone, IsTrue, List, length};
ghost use Rattle.cs_graph.specs.Lags.{IsLegal};
ghost use Rattle.cs_graph.specs.Period.{IsPeriodWithin};
ghost use Rattle.cs_cert.specs.Steps.{IsValidCycle, Lead, total_cost};

use crate::reach::reach_of;
use crate::step::{Cycle, Step};
use cs_base::{Mode, VertexId};
use cs_graph::{Delays, Machine};

// Once the costs are above this, the steps that are left can't bring them below 0, since each costs at least -1.
const HIGHEST: i128 = 1 << 64;

/// The costs with one more.
fn with_cost(costs: i128, cost: i128) -> i128
    requires low { pos 0 ≤ℤ (costs +ℤ pos (2 ^ 64)) }
    requires high { costs ≤ℤ pos (2 ^ 64) }
    requires least { negsuc 0 ≤ℤ cost }
    requires most { cost ≤ℤ pos (2 ^ 98) }
    ensures { result ≡ costs +ℤ cost }
{
    costs + cost
}

/// Whether steps, each valid for the bound, lead on from a vertex to a last one and cost less than nothing.
fn leads_below(
    machine: &Machine,
    delays: &Delays,
    mode: Mode,
    bound: u64,
    vertex: VertexId,
    steps: &[Step],
) -> bool
    ensures { IsTrue result ↔ (Lead machine.now delays.now mode bound vertex steps.now vertex
        × (total_cost machine.now steps.now <ℤ pos 0)) }
{
    let mut at = vertex;
    let mut costs = 0i128;
    for step in steps {
        if costs > HIGHEST {
            return false;
        }
        let Some(reach) = reach_of(machine, delays, mode, bound, step) else {
            return false;
        };
        if reach.from.get() != at.get() {
            return false;
        }
        at = reach.to;
        costs = with_cost(costs, reach.cost);
    }
    at.get() == vertex.get() && costs < 0
}

/// Whether steps are a valid cycle for the bound: at least one, each valid, each beginning where the one before it ended
/// and the first where the last one ends, with costs whose sum is below 0. Then no legal lags of that mode have a period
/// at most the bound. It takes no memory.
pub fn check_cycle(
    machine: &Machine,
    delays: &Delays,
    mode: Mode,
    bound: u64,
    cycle: &Cycle,
) -> bool
    ensures exact { IsTrue result ↔ IsValidCycle machine.now delays.now mode bound cycle.now.steps }
    ensures sound { IsTrue result → (lags : List ℤ) → IsLegal machine.now mode lags
        → IsPeriodWithin machine.now delays.now lags bound → ⊥ }
{
    let steps = cycle.steps.as_slice();
    let Some(first) = steps.first() else {
        return false;
    };
    match reach_of(machine, delays, mode, bound, first) {
        Some(reach) => leads_below(machine, delays, mode, bound, reach.from, steps),
        None => false,
    }
}
