// The first type that lacks a delay.
ghost use Rattle.std.specs.Prelude.{◌≡◌, option_map};
ghost use Rattle.cs_graph.specs.declared.vertex.VertexKind.TheVariants.{Gate};
ghost use Rattle.cs_delay.specs.Assigned.{earlier, lacking, lacks_delay, missing};

use crate::pins::delay_of;
use crate::table::DelayTable;
use cs_base::VertexId;
use cs_cells::Kind;
use cs_graph::{Machine, VertexKind};

/// The type of memories and the pin whose delay every address pin of a Read has.
pub(crate) const MEMORY: &str = "$mem_v2";

pub(crate) const ADDRESS: &str = "RD_ADDR";

fn gate_lacks_delay(table: &DelayTable, gate: Kind) -> bool
    ensures { result ≡ lacks_delay table.now (Gate gate) }
{
    let mut lacks = false;
    for pin in 0..gate.pin_count() {
        lacks |= delay_of(table, gate.name(), gate.pin_name(pin)).is_none();
    }
    lacks
}

fn lacking(table: &DelayTable, kind: VertexKind) -> Option<&'static str>
    ensures { option_map (λ name. name.now) result ≡ lacking table.now kind }
{
    match kind {
        VertexKind::Gate(gate) => if gate_lacks_delay(table, gate) {
            Some(gate.name())
        } else {
            None
        },
        VertexKind::Read { .. } => if delay_of(table, MEMORY, ADDRESS).is_none() {
            Some(MEMORY)
        } else {
            None
        },
        VertexKind::Host
        | VertexKind::Input
        | VertexKind::Output
        | VertexKind::Constant(_)
        | VertexKind::Write { .. } => None,
    }
}

fn earlier(a: Option<&'static str>, b: Option<&'static str>) -> Option<&'static str>
    ensures { option_map (λ name. name.now) result
        ≡ earlier (option_map (λ name. name.now) a.entry) (option_map (λ name. name.now) b.entry) }
{
    match (a, b) {
        (None, _) => b,
        (Some(_), None) => a,
        (Some(first), Some(second)) => if second < first { b } else { a },
    }
}

/// The earliest type of a machine's vertices, in byte order, that lacks a delay.
pub(crate) fn missing(table: &DelayTable, machine: &Machine) -> Option<&'static str>
    ensures { option_map (λ name. name.now) result ≡ missing table.now machine.now }
{
    let mut first = None;
    let mut v = machine.vertex_count();
    while 0 < v {
        v -= 1;
        let vertex = machine.vertex(VertexId::new(v));
        first = earlier(lacking(table, vertex.kind), first);
    }
    first
}
