// Where a step leads.
ghost use Rattle.std.specs.Prelude.{◌≡◌, ◌⊎◌, ◌≤◌, ◌^◌, ◌↔◌, ◌≤ℤ◌, ℕ, pos, negsuc, IfSome, IfNone, IsTrue, length};
ghost use Rattle.cs_base.specs.declared.contexts.Mode.TheVariants.{Any, Forward as ForwardMode};
ghost use Rattle.cs_cert.specs.declared.step.Step.TheVariants.{EdgeStep, PathStep, PinStep};
ghost use Rattle.cs_cert.specs.Steps.{Goes, IsPinned, IsValid, cost};

use crate::path::{delay_of_vertex, path_end};
use crate::step::Step;
use cs_base::{EdgeId, Mode, VertexId};
use cs_graph::{Delays, Machine};

/// Where a step begins and ends, and what it costs.
#[derive(Clone, Copy)]
pub(crate) struct Reach {
    pub(crate) from: VertexId,
    pub(crate) to: VertexId,
    pub(crate) cost: i128,
}

/// The reach of an edge.
fn along_edge(machine: &Machine, e: EdgeId) -> Option<Reach>
    ensures goes { IfSome result (λ r. (u v : ℕ) → Goes machine.now (EdgeStep e) u v ↔ ((r.from ≡ u) × (r.to ≡ v))) }
    ensures cost { IfSome result (λ r. r.cost ≡ cost machine.now (EdgeStep e)) }
    ensures range { IfSome result (λ r. (pos 0 ≤ℤ r.cost) × (r.cost ≤ℤ pos (2 ^ 32))) }
    ensures none { IfNone result ((u v : ℕ) → Goes machine.now (EdgeStep e) u v → Unit {0} → ⊥) }
{
    if !e.is_below(machine.edge_count()) {
        return None;
    }
    let edge = machine.edge(e);
    Some(Reach {
        from: edge.from,
        to: edge.to,
        cost: i128::from(edge.weight),
    })
}

/// The reach of a path that has a greater delay than the bound.
fn along_path(
    machine: &Machine,
    delays: &Delays,
    bound: u64,
    from: VertexId,
    edges: &[EdgeId],
) -> Option<Reach>
    ensures goes { IfSome result (λ r. (u v : ℕ) → Goes machine.now (PathStep from edges.now) u v ↔ ((r.from ≡ u) × (r.to ≡ v))) }
    ensures valid { IfSome result (λ r. IsValid machine.now delays.now Any bound (PathStep from edges.now)) }
    ensures cost { IfSome result (λ r. r.cost ≡ cost machine.now (PathStep from edges.now)) }
    ensures range { IfSome result (λ r. (negsuc 0 ≤ℤ r.cost) × (r.cost ≤ℤ pos (2 ^ 98))) }
    ensures none { IfNone result ((u v : ℕ) → Goes machine.now (PathStep from edges.now) u v
        → IsValid machine.now delays.now Any bound (PathStep from edges.now) → ⊥) }
{
    if !from.is_below(machine.vertex_count()) {
        return None;
    }
    let end = path_end(machine, delays, from, edges)?;
    if u128::from(delay_of_vertex(delays, from)) + end.delay <= u128::from(bound) {
        return None;
    }
    Some(Reach {
        from,
        to: end.vertex,
        cost: end.weight as i128 - 1,
    })
}

/// Whether it is a vertex that no lag moves.
fn is_pinned(machine: &Machine, v: VertexId) -> bool
    ensures { IsTrue result ↔ IsPinned machine.now v }
{
    v.is_below(machine.vertex_count()) && machine.is_pinned(v)
}

/// The reach of a step between pins.
fn between_pins(machine: &Machine, mode: Mode, from: VertexId, to: VertexId) -> Option<Reach>
    ensures ends { IfSome result (λ r. r ≡ record { from = from; to = to; cost = pos 0 }) }
    ensures valid { IfSome result (λ r. IsPinned machine.now to × ((mode ≡ ForwardMode) ⊎ IsPinned machine.now from)) }
    ensures none { IfNone result (IsPinned machine.now to → (mode ≡ ForwardMode) ⊎ IsPinned machine.now from → ⊥) }
{
    if !is_pinned(machine, to) || mode != Mode::Forward && !is_pinned(machine, from) {
        return None;
    }
    Some(Reach { from, to, cost: 0 })
}

/// The reach of a step that is valid for the bound, and None exactly where it is not.
pub(crate) fn reach_of(
    machine: &Machine,
    delays: &Delays,
    mode: Mode,
    bound: u64,
    step: &Step,
) -> Option<Reach>
    ensures goes { IfSome result (λ r. (u v : ℕ) → Goes machine.now step.now u v ↔ ((r.from ≡ u) × (r.to ≡ v))) }
    ensures valid { IfSome result (λ r. IsValid machine.now delays.now mode bound step.now) }
    ensures cost { IfSome result (λ r. r.cost ≡ cost machine.now step.now) }
    ensures range { IfSome result (λ r. (negsuc 0 ≤ℤ r.cost) × (r.cost ≤ℤ pos (2 ^ 98))) }
    ensures none { IfNone result ((u v : ℕ) → Goes machine.now step.now u v
        → IsValid machine.now delays.now mode bound step.now → ⊥) }
{
    match step {
        Step::EdgeStep { edge } => along_edge(machine, *edge),
        Step::PathStep { from, edges } => along_path(
            machine,
            delays,
            bound,
            *from,
            edges.as_slice(),
        ),
        Step::PinStep { from, to } => between_pins(machine, mode, *from, *to),
    }
}
