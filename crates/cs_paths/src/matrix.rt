// The rows of all vertices, in pieces by threads.
ghost use Rattle.std.specs.Prelude.{◌≡◌, ◌+◌, ◌-◌, ◌<◌, ◌≤◌, ◌^◌, length, IfOk};
ghost use Rattle.std.specs.Result.{ForOk};
ghost use Rattle.std.specs.Thread.{IsSync};
ghost use Rattle.cs_graph.specs.Period.{AreDelaysOf};
ghost use Rattle.cs_paths.specs.Guides.{IsGuide};
ghost use Rattle.cs_paths.specs.Rows.{AreRowsFrom, AreRowsOf};

use crate::gate::RowGate;
use crate::guide::Guide;
use crate::reach::Reach;
use crate::row::row_of;
use crate::tracing::Rows;
use crate::waiting::Waiting;
use cs_base::{Sequence, VertexId};
use cs_graph::{Delays, Machine};
use std::alloc::{AllocError, Global};
use std::thread::{Threads, join};

/// The most rows of a piece, which one thread computes.
const PIECE: u32 = 64;

/// The path matrices W and D of a machine with these delays, one for each vertex and for each pin. The rows are
/// computed in pieces by threads, and the gate is told of the first row of each piece before its work. It errs only
/// for want of memory.
pub fn rows<R: Threads + Sync, G: RowGate>(
    rt: &R,
    alloc: Global,
    machine: &Machine,
    delays: &Delays,
    gate: &G,
) -> Result<Rows, AllocError>
    requires { AreDelaysOf machine.now delays.now }
    ensures { IfOk result (λ rows. AreRowsOf machine.now delays.now rows) }
{
    let guide = Guide::new(alloc, machine)?;
    let count = machine.vertex_count();
    let list = rows_between(rt, alloc, machine, delays, &guide, 0, count, gate)?;
    Ok(Rows::from_list(list))
}

/// The rows of so many vertices from one on.
#[cycle(halving)]
fn rows_between<R: Threads + Sync, G: RowGate>(
    rt: &R,
    alloc: Global,
    machine: &Machine,
    delays: &Delays,
    guide: &Guide,
    first: u32,
    count: u32,
    gate: &G,
) -> Result<Vec<Sequence<Reach>>, AllocError>
    requires guide { IsGuide machine.now guide.now }
    requires delays { AreDelaysOf machine.now delays.now }
    requires among { first + count ≤ length machine.now.vertices }
    ensures { IfOk result (λ rows. AreRowsFrom machine.now delays.now first count rows.items) }
{
    machine.keeps();
    if count <= PIECE {
        gate.at_row(VertexId::new(first));
        return piece(alloc, machine, delays, guide, first, count);
    }
    let half = count / 2;
    let middle = first + half;
    let others = count - half;
    let (left, right) = join(
        rt,
        || -> Result<Vec<Sequence<Reach>>, AllocError>
            requires { IsSync R.row × IsGuide machine.now guide.now × AreDelaysOf machine.now delays.now
                × (first + half ≤ length machine.now.vertices) }
            ensures { IfOk result (λ rows. AreRowsFrom machine.entry.now delays.entry.now first half rows.items) }
        { rows_between(rt, alloc, machine, delays, guide, first, half, gate) },
        || -> Result<Vec<Sequence<Reach>>, AllocError>
            requires { IsSync R.row × IsGuide machine.now guide.now × AreDelaysOf machine.now delays.now
                × (middle + others ≤ length machine.now.vertices) }
            ensures { IfOk result (λ rows. AreRowsFrom machine.entry.now delays.entry.now middle others rows.items) }
        { rows_between(rt, alloc, machine, delays, guide, middle, others, gate) },
    );
    joined(machine, delays, first, half, count, left, right)
}

/// The rows of two stretches that follow each other. Each row stays where it was made.
fn joined(
    machine: &Machine,
    delays: &Delays,
    first: u32,
    half: u32,
    count: u32,
    left: Result<Vec<Sequence<Reach>>, AllocError>,
    right: Result<Vec<Sequence<Reach>>, AllocError>,
) -> Result<Vec<Sequence<Reach>>, AllocError>
    requires half { half ≤ count }
    requires left { ForOk left (λ rows. AreRowsFrom machine.now delays.now first half rows.items) }
    requires right { ForOk right (λ rows. AreRowsFrom machine.now delays.now (first + half) (count - half) rows.items) }
    ensures { IfOk result (λ rows. AreRowsFrom machine.now delays.now first count rows.items) }
{
    let mut rows = left?;
    let mut others = right?;
    rows.append(&mut others)?;
    Ok(rows)
}

/// One piece, on this thread.
fn piece(
    alloc: Global,
    machine: &Machine,
    delays: &Delays,
    guide: &Guide,
    first: u32,
    count: u32,
) -> Result<Vec<Sequence<Reach>>, AllocError>
    requires guide { IsGuide machine.now guide.now }
    requires delays { AreDelaysOf machine.now delays.now }
    requires among { first + count ≤ length machine.now.vertices }
    ensures { IfOk result (λ rows. AreRowsFrom machine.now delays.now first count rows.items) }
{
    machine.keeps();
    let mut rows = Vec::new(alloc);
    let mut waiting = Waiting::new(alloc);
    for u in first..first + count {
        let row = row_of(
            alloc,
            machine,
            delays,
            guide,
            VertexId::new(u),
            &mut waiting,
        )?;
        rows.push(row)?;
    }
    Ok(rows)
}
