// Pieces of rows run at once, and a search doesn't take the time of the plain loop.
ghost use Rattle.cs_paths.specs.Rows.{AreRowsOf};

use crate::building::{add, delays, feed, keep, rows_of};
use cs_base::VertexId;
use cs_cells::Kind;
use cs_graph::{Delays, Machine, MachineBuilder, VertexKind};
use cs_paths::types::Rows;
use cs_paths::{RowGate, rows};
use std::alloc::Global;
use std::process::Abort;
use std::sync::atomic::{AtomicU64, Ordering};

const TURNS: u64 = 1_000_000_000;

// Holds the piece that begins with vertex 0 until another has begun.
#[derive(Drop)]
struct HoldsFirst {
    others: AtomicU64,
    met: AtomicU64,
}

impl RowGate for HoldsFirst {
    fn at_row(&self, row: VertexId) {
        if row.get() > 0 {
            self.others.store(1, Ordering::SeqCst);
            return;
        }
        for _ in 0..TURNS {
            if self.others.load(Ordering::SeqCst) > 0 {
                self.met.store(1, Ordering::SeqCst);
                return;
            }
        }
    }

    fn at_context(&self, _context: u32) {}
}

// So many buffers in a ring: each reads the one before it, and the first the last one through a register.
fn ring(rt: &impl Abort, alloc: Global, count: u32) -> &'static Machine {
    assert!(rt; 0 < count && count < 4096);
    let mut builder = MachineBuilder::new(alloc).expect(rt, "a builder");
    for _ in 0..count {
        add(rt, alloc, &mut builder, VertexKind::Gate(Kind::Buf));
    }
    feed(rt, alloc, &mut builder, (1, 0, count, 1));
    for v in 1..count {
        feed(rt, alloc, &mut builder, (v + 1, 0, v, 0));
    }
    keep(rt, alloc, builder.finish(alloc).expect(rt, "a machine"))
}

const ONE: &str = r#"{"version":1,"delays":{"$_BUF_":1}}"#;

// W and D of a pair.
fn pair(
    rt: &impl Abort,
    machine: &Machine,
    delays: &Delays,
    rows: &Rows,
    u: u32,
    v: u32,
) -> Option<(u32, u32)>
    requires { AreRowsOf machine.now delays.now rows.now }
{
    let _ = delays;
    assert!(rt; u < machine.vertex_count() && v < machine.vertex_count());
    rows.at(VertexId::new(u), VertexId::new(v))
}

#[test]
fn pieces_run_at_once(rt: HostRuntime) {
    let alloc = rt.alloc();
    let machine = ring(&rt, alloc, 200);
    let delays = delays(&rt, alloc, machine, ONE);
    let gate = HoldsFirst {
        others: AtomicU64::new(0),
        met: AtomicU64::new(0),
    };
    let rows = rows(&rt, alloc, machine, delays, &gate).expect(&rt, "rows");
    let rows = keep(&rt, alloc, rows);
    assert!(rt; pair(&rt, machine, delays, rows, 1, 200) == Some((0, 200)));
    assert!(rt; gate.met.load(Ordering::SeqCst) == 1);
}

// Vertices of a ring of 4000, and W and D of them.
const PAIRS: &[(u32, u32, (u32, u32))] = &[
    (1, 4000, (0, 4000)),
    (2, 1, (1, 4000)),
    (4000, 1, (1, 2)),
    (7, 7, (0, 1)),
];

#[test]
fn long_ring(rt: HostRuntime) {
    let alloc = rt.alloc();
    let machine = ring(&rt, alloc, 4000);
    let delays = delays(&rt, alloc, machine, ONE);
    let rows = rows_of(&rt, alloc, machine, delays);
    for (row, (u, v, wanted)) in PAIRS.iter().enumerate() {
        let found = pair(&rt, machine, delays, rows, *u, *v);
        assert!(rt; found == Some(*wanted), "row {row}");
    }
}
