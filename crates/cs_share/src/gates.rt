// The gates of the written netlist.
ghost use Rattle.std.specs.Prelude.{◌≡◌, ◌++◌, [], ◌∷◌, IfOk, OnOk, Some, filter_map, get_or};
ghost use Rattle.std.specs.List.{enumerate_from};
ghost use Rattle.cs_graph.specs.declared.vertex.VertexKind.TheVariants.{Gate};
ghost use Rattle.cs_share.specs.Planned.{planned_gate, planned_gate_by};

use crate::numbers::number_at;
use crate::signals::feed_signals;
use cs_base::{BitId, Sequence, Signal, Text, VertexId};
use cs_cells::Kind;
use cs_circuit::GatePart;
use cs_graph::{Machine, Vertex, VertexKind};
use std::alloc::{AllocError, Global};

/// What the gates of a netlist are made of: for each vertex the name of the cell that it comes from and the number of its
/// first output, and what the end of each edge reads.
#[derive(Clone, Copy)]
pub(crate) struct GateTables<'a> {
    pub origins: &'a [Text],
    pub numbers: &'a [u32],
    pub signals: &'a [Signal],
}

// The origin at a place, which is empty past the end.
fn origin_at(alloc: Global, origins: &[Text], place: usize) -> Result<Text, AllocError>
    ensures { IfOk result (λ origin. origin ≡ get_or origins.now place []) }
{
    match origins.get(place) {
        Some(origin) => origin.copy(alloc),
        None => Text::from_str(alloc, ""),
    }
}

// The gate that vertex v is.
fn gate_part(
    alloc: Global,
    tables: &GateTables,
    v: usize,
    vertex: &Vertex,
    kind: Kind,
) -> Result<GatePart, AllocError>
    ensures { IfOk result (λ part. planned_gate_by tables.now.origins.now tables.now.numbers.now tables.now.signals.now
        v vertex.now (Gate kind) ≡ Some part) }
{
    Ok(GatePart {
        number: v,
        origin: origin_at(alloc, tables.origins, v)?,
        kind,
        pins: feed_signals(alloc, tables.signals, vertex)?,
        output: BitId::new(number_at(tables.numbers, v)),
    })
}

// Pushes the gate that vertex v is, if it is one.
fn push_gate(
    alloc: Global,
    gates: &mut Sequence<GatePart>,
    tables: &GateTables,
    v: usize,
    vertex: &Vertex,
) -> Result<(), AllocError>
    ensures { OnOk result (gates.new ≡ gates.old
        ++ filter_map (planned_gate tables.now.origins.now tables.now.numbers.now tables.now.signals.now) ((v, vertex.now) ∷ [])) }
{
    match vertex.kind {
        VertexKind::Gate(kind) => gates.push(gate_part(alloc, tables, v, vertex, kind)?),
        VertexKind::Host => Ok(()),
        VertexKind::Input => Ok(()),
        VertexKind::Output => Ok(()),
        VertexKind::Constant(_) => Ok(()),
        VertexKind::Read { .. } => Ok(()),
        VertexKind::Write { .. } => Ok(()),
    }
}

/// The gates, in order of their vertices.
pub(crate) fn gate_parts(
    alloc: Global,
    machine: &Machine,
    tables: &GateTables,
) -> Result<Sequence<GatePart>, AllocError>
    ensures { IfOk result (λ gates. gates
        ≡ filter_map (planned_gate tables.now.origins.now tables.now.numbers.now tables.now.signals.now)
        (enumerate_from 0 machine.now.vertices)) }
{
    let mut gates = Sequence::new(alloc);
    for v in 0..machine.vertex_count() {
        push_gate(
            alloc,
            &mut gates,
            tables,
            v as usize,
            machine.vertex(VertexId::new(v)),
        )?;
    }
    Ok(gates)
}
