// The row of one vertex u: W(u, v) and D(u, v) for each vertex v (Leiserson and Saxe). The vertices are settled in
// the order of their registers, and among those with as many in the machine's order; every edge that attains leads
// to a later one in this order, so one search finds the least registers and the greatest delays together (Dijkstra).
ghost use Rattle.std.specs.Prelude.{◌≡◌, ◌+◌, ◌*◌, ◌<◌, ◌≤◌, ◌^◌, ℕ, List, IfOk, None, OnOk, false, length, replicate, slice_get, Some};
ghost use Rattle.cs_graph.specs.Period.{AreDelaysOf};
ghost use Rattle.cs_paths.specs.Guides.{IsGuide, place_of};
ghost use Rattle.cs_paths.specs.Reaches.{known_at};
ghost use Rattle.cs_paths.specs.Rows.{IsRowOf};
ghost use Rattle.cs_paths.specs.Searches.{along, Settles, SettlesOne};
ghost use Rattle.cs_paths.specs.Waitings.{Waits, position};

use crate::guide::Guide;
use crate::improvement::improve;
use crate::reach::Reach;
use crate::waiting::Waiting;
use cs_base::{Sequence, VertexId};
use cs_graph::{Delays, Edge, Machine};
use std::alloc::{AllocError, Global};

/// The registers and the delay of a path that goes along an edge more.
fn along(delays: &Delays, edge: &Edge, from: (u32, u32)) -> (u32, u32)
    requires vertex { edge.now.to < length delays.now.per_pin }
    requires pin { (ds : List ℕ) → slice_get delays.now.per_pin edge.now.to ≡ Some ds → edge.now.pin < length ds }
    requires weight { from.0 + edge.now.weight < 2 ^ 32 }
    requires delay { from.1 + 1000000 < 2 ^ 32 }
    ensures { result ≡ along delays.now edge.now from }
{
    let pins = delays.of_pins(edge.to);
    (from.0 + edge.weight, from.1 + pins[edge.pin as usize])
}

/// Relaxes the edges that leave v, of which so many registers and this delay are known.
fn relax_from(
    machine: &Machine,
    delays: &Delays,
    guide: &Guide,
    v: VertexId,
    from: (u32, u32),
    row: &mut [Reach],
    waiting: &mut Waiting,
) -> Result<(), AllocError>
    requires guide { IsGuide machine.now guide.now }
    requires delays { AreDelaysOf machine.now delays.now }
    requires vertex { v < length machine.now.vertices }
    requires row { length row.old ≡ length machine.now.vertices }
    requires weight { from.0 ≤ 4096 * 65536 }
    requires delay { from.1 ≤ 4096 * 1000000 }
    requires level { waiting.old.level ≡ from.0 }
    requires next { waiting.old.next ≡ place_of guide.now v + 1 }
    ensures count { length row.new ≡ length row.old }
    ensures settles { OnOk result (Settles machine.now delays.now guide.now v from row.old waiting.old row.new waiting.new) }
    ensures position { OnOk result (position waiting.new ≡ position waiting.old) }
{
    machine.keeps();
    let edges = guide.leaving(v);
    for turn in 0..edges.len() {
        let edge = machine.edge(edges[turn]);
        let new = along(delays, edge, from);
        improve(row, waiting, edge.to, guide.place(edge.to), new)?;
    }
    Ok(())
}

/// Settles v where it waits with so many registers, and tells the delay that is known of it.
fn settle(row: &[Reach], settled: &mut [bool], v: VertexId, weight: u32) -> Option<u32>
    requires row { v < length row.now }
    requires flags { v < length settled.old }
    ensures count { length settled.new ≡ length settled.old }
    ensures settles { SettlesOne row.now v weight result settled.old settled.new }
{
    let index = v.get() as usize;
    let (known, delay) = row[index].get()?;
    if settled[index] || known != weight {
        return None;
    }
    settled[index] = true;
    Some(delay)
}

/// Searches from u: afterwards the row is that of u, and nothing waits.
fn search(
    machine: &Machine,
    delays: &Delays,
    guide: &Guide,
    u: VertexId,
    row: &mut [Reach],
    settled: &mut [bool],
    waiting: &mut Waiting,
) -> Result<(), AllocError>
    requires guide { IsGuide machine.now guide.now }
    requires delays { AreDelaysOf machine.now delays.now }
    requires vertex { u < length machine.now.vertices }
    requires count { length row.old ≡ length machine.now.vertices }
    requires blank { (v : ℕ) → known_at row.old v ≡ None }
    requires flags { settled.old ≡ replicate (length machine.now.vertices) false }
    requires idle { (k : ℕ × ℕ) → Waits waiting.old k → ⊥ }
    ensures count { length row.new ≡ length row.old }
    ensures flags { length settled.new ≡ length settled.old }
    ensures row { OnOk result (IsRowOf machine.now delays.now u row.new) }
    ensures idle { OnOk result ((k : ℕ × ℕ) → Waits waiting.new k → ⊥) }
{
    machine.keeps();
    row[u.get() as usize] = Reach::some(0, delays.of_vertex(u));
    waiting.restart();
    waiting.push(0, guide.place(u))?;
    while let Some((weight, place)) = waiting.pop() {
        let v = guide.vertex(place);
        if let Some(delay) = settle(row, settled, v, weight) {
            relax_from(machine, delays, guide, v, (weight, delay), row, waiting)?;
        }
    }
    Ok(())
}

/// The row of u, by a queue in which nothing waits before and after.
pub(crate) fn row_of(
    alloc: Global,
    machine: &Machine,
    delays: &Delays,
    guide: &Guide,
    u: VertexId,
    waiting: &mut Waiting,
) -> Result<Sequence<Reach>, AllocError>
    requires guide { IsGuide machine.now guide.now }
    requires delays { AreDelaysOf machine.now delays.now }
    requires vertex { u < length machine.now.vertices }
    requires idle { (k : ℕ × ℕ) → Waits waiting.old k → ⊥ }
    ensures row { IfOk result (λ row. IsRowOf machine.now delays.now u row) }
    ensures idle { OnOk result ((k : ℕ × ℕ) → Waits waiting.new k → ⊥) }
{
    machine.keeps();
    let count = machine.vertex_count() as usize;
    let mut row = vec![in alloc; Reach::none(); count]?;
    let mut settled = vec![in alloc; false; count]?;
    search(machine, delays, guide, u, &mut row, &mut settled, waiting)?;
    Ok(Sequence::from_vec(row))
}
