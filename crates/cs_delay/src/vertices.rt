// The delays of all vertices and of their pins.
ghost use Rattle.std.specs.Prelude.{◌≡◌, IfOk, length, replicate};
ghost use Rattle.cs_graph.specs.Period.{AreDelaysOf};
ghost use Rattle.cs_graph.specs.declared.vertex.VertexKind.TheVariants.{Gate};
ghost use Rattle.cs_delay.specs.Assigned.{AreAssigned, greatest, needed_delays, pin_delays, vertex_delay};

use crate::missing::{ADDRESS, MEMORY};
use crate::pins::delay_of;
use crate::table::DelayTable;
use cs_base::{Sequence, VertexId};
use cs_cells::Kind;
use cs_graph::{Delays, Machine, Vertex, VertexKind};
use std::alloc::{AllocError, Global};

fn gate_delays(alloc: Global, table: &DelayTable, gate: Kind) -> Result<Sequence<u32>, AllocError>
    ensures { IfOk result (λ delays. delays ≡ needed_delays table.now (Gate gate)) }
{
    let mut delays = Sequence::new(alloc);
    for pin in 0..gate.pin_count() {
        let delay = delay_of(table, gate.name(), gate.pin_name(pin));
        delays.push(delay.unwrap_or(0))?;
    }
    Ok(delays)
}

fn greatest(delays: &[u32]) -> u32
    ensures { result ≡ greatest delays.now }
{
    delays.iter().fold(0, |most, delay| most.max(*delay))
}

// The same delay at a vertex and at each of its pins.
fn same_delays(
    alloc: Global,
    delay: u32,
    vertex: &Vertex,
) -> Result<(u32, Sequence<u32>), AllocError>
    ensures vertex { IfOk result (λ found. found.0 ≡ delay) }
    ensures pins { IfOk result (λ found. found.1 ≡ replicate (length vertex.now.pins) delay) }
{
    let delays = vec![in alloc; delay; vertex.pins.len()]?;
    Ok((delay, Sequence::from_vec(delays)))
}

// The delay of a vertex, and those of its pins.
fn vertex_delays(
    alloc: Global,
    table: &DelayTable,
    vertex: &Vertex,
) -> Result<(u32, Sequence<u32>), AllocError>
    ensures vertex { IfOk result (λ found. found.0 ≡ vertex_delay table.now vertex.now.kind) }
    ensures pins { IfOk result (λ found. found.1 ≡ pin_delays table.now vertex.now) }
{
    match vertex.kind {
        VertexKind::Gate(gate) => {
            let delays = gate_delays(alloc, table, gate)?;
            Ok((greatest(delays.as_slice()), delays))
        }
        VertexKind::Read { .. } => {
            let delay = delay_of(table, MEMORY, ADDRESS).unwrap_or(0);
            same_delays(alloc, delay, vertex)
        }
        VertexKind::Host
        | VertexKind::Input
        | VertexKind::Output
        | VertexKind::Constant(_)
        | VertexKind::Write { .. } => same_delays(alloc, 0, vertex),
    }
}

/// The delays that a table gives a machine, 0 where it gives none.
pub(crate) fn delays_of(
    alloc: Global,
    table: &DelayTable,
    machine: &Machine,
) -> Result<Delays, AllocError>
    ensures assigned { IfOk result (λ delays. AreAssigned table.now machine.now delays) }
    ensures fits { IfOk result (λ delays. AreDelaysOf machine.now delays) }
{
    machine.keeps();
    let mut per_vertex = Sequence::new(alloc);
    let mut per_pin = Sequence::new(alloc);
    for v in 0..machine.vertex_count() {
        let (delay, pins) = vertex_delays(alloc, table, machine.vertex(VertexId::new(v)))?;
        per_vertex.push(delay)?;
        per_pin.push(pins)?;
    }
    Ok(Delays {
        per_vertex,
        per_pin,
    })
}
