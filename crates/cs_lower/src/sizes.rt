// How large the machine of a netlist would be, counted before it is built.
ghost use Rattle.std.specs.Prelude.{◌≡◌, ◌++◌, ◌-◌, ◌<◌, ◌^◌, ℕ, Some, length, map, min};
ghost use Rattle.std.specs.List.{sum_by};
ghost use Rattle.cs_graph.specs.Draft.{driven, edge_count, registers, weight};
ghost use Rattle.cs_lower.specs.Lowered.{constants, pieces_of, source_of, vertex_of};
ghost use Rattle.cs_lower.specs.LowerFaults.{lower_fault};
ghost use Rattle.cs_lower.specs.Sizes.{edges_to};

use crate::plan::Plan;
use crate::reaches::Reach;
use crate::taps::{End, Piece, Tap};
use cs_base::{Counted, LimitFault};
use cs_graph::{MOST_EDGES, MOST_VERTICES, MOST_WEIGHT};
use cs_net::above_limit;

// ---- edges

// How many edges a pin makes.
fn edges_to(reach: Reach) -> u64
    ensures { result ≡ edges_to reach.end reach.registers }
{
    match reach.end {
        End::Vertex { .. } => 1,
        End::Constant(_) => u64::from(reach.registers != 0),
    }
}

// How many edges lead to these pins, or the greatest number of 64 bits.
fn edges_into(plan: &Plan, pins: &[Tap]) -> u64
    ensures { result ≡ min (sum_by driven (map (λ t. Some (source_of plan.now t)) pins.now)) (2 ^ 64 - 1) }
{
    let mut count = 0u64;
    for tap in pins {
        count = count.saturating_add(edges_to(plan.reach(*tap)));
    }
    count
}

// How many edges lead to the pins of these vertices, or the greatest number of 64 bits.
fn edge_count(plan: &Plan, pieces: &[Piece]) -> u64
    ensures { result ≡ min (edge_count (map (vertex_of plan.now) pieces.now)) (2 ^ 64 - 1) }
{
    let mut count = 0u64;
    for piece in pieces {
        count = count.saturating_add(edges_into(plan, piece.pins.as_slice()));
    }
    count
}

// ---- registers

// How many registers these pins pass, or the greatest number of 64 bits.
fn registers_into(plan: &Plan, pins: &[Tap]) -> u64
    ensures { result ≡ min (sum_by registers (map (λ t. Some (source_of plan.now t)) pins.now)) (2 ^ 64 - 1) }
{
    let mut count = 0u64;
    for tap in pins {
        count = count.saturating_add(plan.reach(*tap).registers as u64);
    }
    count
}

// How many registers the pins of these vertices pass, or the greatest number of 64 bits.
fn weight(plan: &Plan, pieces: &[Piece]) -> u64
    ensures { result ≡ min (weight (map (vertex_of plan.now) pieces.now)) (2 ^ 64 - 1) }
{
    let mut count = 0u64;
    for piece in pieces {
        count = count.saturating_add(registers_into(plan, piece.pins.as_slice()));
    }
    count
}

// ---- all counts

/// The first of vertices, edges and registers that are too many for a machine. It takes no memory.
pub(crate) fn lower_fault(plan: &Plan, pieces: &[Piece]) -> Option<LimitFault>
    requires { pieces.now ≡ pieces_of plan.now ++ constants plan.now }
    ensures { result ≡ lower_fault plan.now }
{
    if let Some(fault) = above_limit(Counted::Vertices, pieces.len() as u64, MOST_VERTICES as u64) {
        return Some(fault);
    }
    if let Some(fault) = above_limit(
        Counted::Edges,
        edge_count(plan, pieces),
        u64::from(MOST_EDGES),
    ) {
        return Some(fault);
    }
    above_limit(Counted::Weight, weight(plan, pieces), MOST_WEIGHT)
}
