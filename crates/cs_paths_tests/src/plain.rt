// The plain loop over three vertices (Floyd and Warshall), against the rows of drawn machines.
ghost use Rattle.cs_graph.specs.Period.{AreDelaysOf};
ghost use Rattle.cs_paths.specs.Rows.{AreRowsOf};

use crate::building::{delays, keep, rows_of};
use crate::drawing::drawn;
use cs_base::{EdgeId, VertexId};
use cs_graph::{Delays, Machine};
use cs_paths::types::Rows;
use std::alloc::Global;
use std::process::Abort;
use std::thread::Threads;

// The registers and the delay of a path, where there is one.
type Found = Option<(u32, u32)>;

// All pairs of so many vertices.
#[derive(Drop)]
struct Table {
    count: usize,
    pairs: Vec<Found>,
}

impl Table {
    fn at(&self, u: usize, v: usize) -> Found {
        let index = u.saturating_mul(self.count).saturating_add(v);
        self.pairs.get(index).copied().flatten()
    }

    // Keeps a path where it has fewer registers than what is kept, or as many and a greater delay.
    fn offer(&mut self, u: usize, v: usize, new: (u32, u32)) {
        let index = u.saturating_mul(self.count).saturating_add(v);
        let Some(pair) = self.pairs.get_mut(index) else {
            return;
        };
        let better = match pair {
            None => true,
            Some((weight, delay)) => new.0 < *weight || (new.0 == *weight && *delay < new.1),
        };
        if better {
            *pair = Some(new);
        }
    }
}

// The delay of a vertex, and of a pin of it.
fn delay_of(rt: &impl Abort, machine: &Machine, delays: &Delays, v: VertexId) -> u32
    requires { AreDelaysOf machine.now delays.now }
{
    assert!(rt; v.get() < machine.vertex_count());
    delays.of_vertex(v)
}

fn pin_delay_of(rt: &impl Abort, machine: &Machine, delays: &Delays, v: VertexId, pin: u32) -> u32
    requires { AreDelaysOf machine.now delays.now }
{
    assert!(rt; v.get() < machine.vertex_count());
    let pins = delays.of_pins(v);
    pins.get(pin as usize).copied().unwrap_or(0)
}

// The vertices alone, and the edges.
fn offer_edges(rt: &impl Abort, machine: &Machine, delays: &Delays, table: &mut Table)
    requires { AreDelaysOf machine.now delays.now }
{
    for v in 0..machine.vertex_count() {
        let own = delay_of(rt, machine, delays, VertexId::new(v));
        table.offer(v as usize, v as usize, (0, own));
    }
    for e in 0..machine.edge_count() {
        let edge = machine.edge(EdgeId::new(e));
        let own = delay_of(rt, machine, delays, edge.from);
        let pin = pin_delay_of(rt, machine, delays, edge.to, edge.pin);
        let new = (edge.weight, own.saturating_add(pin));
        table.offer(edge.from.get() as usize, edge.to.get() as usize, new);
    }
}

// The paths from u over k, to all vertices.
fn offer_over(table: &mut Table, u: usize, k: usize, own: u32) {
    let Some(first) = table.at(u, k) else {
        return;
    };
    for v in 0..table.count {
        if let Some(second) = table.at(k, v) {
            let delay = first.1.saturating_add(second.1).saturating_sub(own);
            table.offer(u, v, (first.0.saturating_add(second.0), delay));
        }
    }
}

fn plain_table(rt: &impl Abort, alloc: Global, machine: &Machine, delays: &Delays) -> Table
    requires { AreDelaysOf machine.now delays.now }
{
    let count = machine.vertex_count() as usize;
    let pairs = vec![in alloc; None; count.saturating_mul(count)].expect(rt, "pairs");
    let mut table = Table { count, pairs };
    offer_edges(rt, machine, delays, &mut table);
    for k in 0..machine.vertex_count() {
        let own = delay_of(rt, machine, delays, VertexId::new(k));
        for u in 0..count {
            offer_over(&mut table, u, k as usize, own);
        }
    }
    table
}

// The registers and the delay of edges that lead from u to v; none where they don't.
fn sum_of(
    rt: &impl Abort,
    machine: &Machine,
    delays: &Delays,
    ends: (VertexId, VertexId),
    edges: &[EdgeId],
) -> Found
    requires { AreDelaysOf machine.now delays.now }
{
    let (mut at, v) = ends;
    let mut sum = (0u32, delay_of(rt, machine, delays, at));
    for e in edges {
        assert!(rt; e.get() < machine.edge_count());
        let edge = machine.edge(*e);
        if edge.from.get() != at.get() {
            return None;
        }
        let pin = pin_delay_of(rt, machine, delays, edge.to, edge.pin);
        sum = (sum.0.saturating_add(edge.weight), sum.1.saturating_add(pin));
        at = edge.to;
    }
    if at.get() == v.get() { Some(sum) } else { None }
}

// Whether the rows have what the table has of a pair, and a path that attains it.
fn is_pair(
    rt: &impl Abort,
    alloc: Global,
    machine: &Machine,
    delays: &Delays,
    rows: &Rows,
    ends: (VertexId, VertexId),
    wanted: Found,
) -> bool
    requires delays { AreDelaysOf machine.now delays.now }
    requires rows { AreRowsOf machine.now delays.now rows.now }
{
    let (u, v) = ends;
    assert!(rt; u.get() < machine.vertex_count() && v.get() < machine.vertex_count());
    if rows.at(u, v) != wanted {
        return false;
    }
    match rows.path(alloc, machine, delays, u, v).expect(rt, "memory") {
        None => wanted.is_none(),
        Some(edges) => sum_of(rt, machine, delays, ends, edges.as_slice()) == wanted,
    }
}

const TABLE: &str =
    r#"{"version":2,"delays":{"$_NOT_":2,"$_XOR_":{"A":5,"B":1},"$_MUX_":{"A":3,"B":7,"S":4}},"default":6}"#;

fn assert_pair(rt: &impl Abort, holds: bool, seed: u32, u: u32, v: u32) {
    assert!(rt; holds, "seed {seed}, {u} to {v}");
}

// Every pair of the machine of a seed.
fn check<R: Threads + Sync + Abort>(rt: &R, alloc: Global, seed: u32) {
    let machine = drawn(rt, alloc, seed, 40);
    let delays = delays(rt, alloc, machine, TABLE);
    let rows = rows_of(rt, alloc, machine, delays);
    let table = keep(rt, alloc, plain_table(rt, alloc, machine, delays));
    for u in 0..machine.vertex_count() {
        for v in 0..machine.vertex_count() {
            let ends = (VertexId::new(u), VertexId::new(v));
            let wanted = table.at(u as usize, v as usize);
            let holds = is_pair(rt, alloc, machine, delays, rows, ends, wanted);
            assert_pair(rt, holds, seed, u, v);
        }
    }
}

#[test]
fn rows_against_the_plain_loop(rt: HostRuntime) {
    for seed in 1..21 {
        check(&rt, rt.alloc(), seed);
    }
}
