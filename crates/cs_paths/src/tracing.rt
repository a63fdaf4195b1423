// Rows, and the paths that attain them.
ghost use Rattle.std.specs.Prelude.{◌≡◌, ◌<◌, ℕ, IfNone, IfOk, IfSome, List, Some, length, reverse, slice_get};
ghost use Rattle.std.specs.Bool.{OnTrue, OnFalse};
ghost use Rattle.cs_graph.specs.Period.{AreDelaysOf};
ghost use Rattle.cs_graph.specs.declared.delays.Delays.{Delays as DelayValues};
ghost use Rattle.cs_graph.specs.declared.graph.Graph.{Graph};
ghost use Rattle.cs_paths.specs.Reaches.{known_at, HasReach};
ghost use Rattle.cs_paths.specs.Rows.{AreRowsOf, IsBestPath, IsPairAt, IsPathAt, IsRowOf, IsSquare, pair_at};
ghost use Rattle.cs_paths.specs.Traces.{Attains, IsLastEdge};

use crate::reach::Reach;
use cs_base::{EdgeId, Sequence, VertexId};
use cs_graph::{Delays, Feed, Machine};
use std::alloc::{AllocError, Global};
use std::marker::Model;

/// The path matrices W and D of a machine (Leiserson and Saxe): for all vertices u and v the least registers of a
/// path from u to v, and the greatest delay in picoseconds, or whatever unit the delays have, of the paths with so
/// many registers. The path of u alone counts. Eight bytes are kept of each pair.
#[derive(Drop)]
pub struct Rows {
    rows: Vec<Sequence<Reach>>,
}

impl Model for Rows {
    ghost use Rattle.std.specs.Prelude.{List};
    ghost use Rattle.cs_paths.specs.declared.reach.Reach.{Reach};
    ghost use Rattle.cs_paths.specs.Rows.{IsSquare};

    ghost Value = { List (List Reach) };

    ghost view = { λ rows. rows.rows.items };

    ghost invariant = { λ rows. IsSquare rows.rows.items };
}

/// Whether what is known of the beginning of an edge is, along it, so many registers and this delay.
fn attains(machine: &Machine, delays: &Delays, row: &[Reach], e: EdgeId, at: (u32, u32)) -> bool
    requires delays { AreDelaysOf machine.now delays.now }
    requires row { length row.now ≡ length machine.now.vertices }
    requires edge { e < length machine.now.edges }
    ensures yes { OnTrue result (Attains machine.now delays.now row.now at e) }
    ensures no { OnFalse result (Attains machine.now delays.now row.now at e → ⊥) }
{
    machine.keeps();
    let edge = machine.edge(e);
    let Some((weight, delay)) = row[edge.from.get() as usize].get() else {
        return false;
    };
    let pin_delay = delays.of_pins(edge.to)[edge.pin as usize];
    u64::from(weight) + u64::from(edge.weight) == u64::from(at.0)
        && u64::from(delay) + u64::from(pin_delay) == u64::from(at.1)
}

/// The first edge to v by which so many registers and this delay are attained, if there is one.
fn last_edge(
    machine: &Machine,
    delays: &Delays,
    row: &[Reach],
    v: VertexId,
    at: (u32, u32),
) -> Option<EdgeId>
    requires delays { AreDelaysOf machine.now delays.now }
    requires row { length row.now ≡ length machine.now.vertices }
    requires vertex { v < length machine.now.vertices }
    ensures some { IfSome result (IsLastEdge machine.now delays.now row.now v at) }
    ensures none { IfNone result ((e : ℕ) → IsLastEdge machine.now delays.now row.now v at e → ⊥) }
{
    machine.keeps();
    let pins = machine.vertex(v).pins.as_slice();
    for pin in 0..pins.len() {
        if let Feed::Edge(e) = pins[pin] {
            if attains(machine, delays, row, e, at) {
                return Some(e);
            }
        }
    }
    None
}

/// The last edge of a path from u to v that attains W(u, v) and D(u, v), unless v is u.
fn edge_before(
    machine: &Machine,
    delays: &Delays,
    row: &[Reach],
    u: VertexId,
    v: VertexId,
) -> Option<EdgeId>
    requires delays { AreDelaysOf machine.now delays.now }
    requires row { IsRowOf machine.now delays.now u row.now }
    requires vertex { v < length machine.now.vertices }
    requires reached { HasReach row.now v }
    ensures some { IfSome result (λ e. (at : ℕ × ℕ) → known_at row.now v ≡ Some at
        → IsLastEdge machine.now delays.now row.now v at e) }
    ensures none { IfNone result (u ≡ v) }
{
    machine.keeps();
    if u.get() == v.get() {
        return None;
    }
    let at = row[v.get() as usize].get()?;
    last_edge(machine, delays, row, v, at)
}

/// The edges of a path from u to v that attains W(u, v) and D(u, v), the last one first.
fn edges_back(
    alloc: Global,
    machine: &Machine,
    delays: &Delays,
    row: &[Reach],
    u: VertexId,
    v: VertexId,
) -> Result<Vec<EdgeId>, AllocError>
    requires delays { AreDelaysOf machine.now delays.now }
    requires row { IsRowOf machine.now delays.now u row.now }
    requires from { u < length machine.now.vertices }
    requires to { v < length machine.now.vertices }
    requires reached { HasReach row.now v }
    ensures { IfOk result (λ edges. IsBestPath machine.now delays.now u v (reverse edges.items)) }
{
    machine.keeps();
    let mut edges = Vec::new(alloc);
    let mut at = v;
    while let Some(e) = edge_before(machine, delays, row, u, at) {
        edges.push(e)?;
        at = machine.edge(e).from;
    }
    Ok(edges)
}

impl Rows {
    /// Rows from their list.
    pub(crate) fn from_list(rows: Vec<Sequence<Reach>>) -> Rows
        requires { IsSquare rows.items }
        ensures { result ≡ rows.items }
    {
        Rows { rows }
    }

    /// W(u, v) and D(u, v), in registers and in the unit of the delays; none exactly where no path leads from u to
    /// v. It takes no memory.
    pub fn at(&self, u: VertexId, v: VertexId) -> Option<(u32, u32)>
        requires from { u < length self.now }
        requires to { v < length self.now }
        ensures kept { result ≡ pair_at self.now u v }
        ensures pair { (g : Graph) (delays : DelayValues) → AreRowsOf g delays self.now
            → IsPairAt g delays u v result }
    {
        let row = &self.rows[u.get() as usize];
        row.as_slice()[v.get() as usize].get()
    }

    /// A path from u to v that attains both, as its edges in order; none exactly where no path leads from u to v.
    /// The machine and the delays are those of the rows. It errs only for want of memory.
    pub fn path(
        &self,
        alloc: Global,
        machine: &Machine,
        delays: &Delays,
        u: VertexId,
        v: VertexId,
    ) -> Result<Option<Sequence<EdgeId>>, AllocError>
        requires delays { AreDelaysOf machine.now delays.now }
        requires rows { AreRowsOf machine.now delays.now self.now }
        requires from { u < length machine.now.vertices }
        requires to { v < length machine.now.vertices }
        ensures { IfOk result (λ path. IsPathAt machine.now delays.now u v path) }
    {
        let row = self.rows[u.get() as usize].as_slice();
        if row[v.get() as usize].get().is_none() {
            return Ok(None);
        }
        let mut edges = edges_back(alloc, machine, delays, row, u, v)?;
        edges.reverse();
        Ok(Some(Sequence::from_vec(edges)))
    }
}

fn crosses_threads<T: Send + Sync>(_: &T) {}

// Rows go from thread to thread.
fn rows_cross_threads(rows: &Rows) {
    crosses_threads(rows);
}
