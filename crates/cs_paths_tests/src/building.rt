// Machines by rows of tables, delays by texts of tables, and the rows of both.
ghost use Rattle.std.specs.Prelude.{◌≡◌};
ghost use Rattle.cs_graph.specs.Period.{AreDelaysOf};
ghost use Rattle.cs_paths.specs.Rows.{AreRowsOf};

use cs_base::{Sequence, VertexId};
use cs_delay::{assign, read_delays};
use cs_graph::{Delays, Machine, MachineBuilder, VertexKind};
use cs_paths::types::Rows;
use cs_paths::{NoGate, rows};
use std::alloc::Global;
use std::process::Abort;
use std::thread::Threads;

/// A value that is never freed: a test ends with its process.
pub fn keep<'a, T: Drop + 'a>(rt: &impl Abort, alloc: Global, value: T) -> &'a T
    ensures { result.now ≡ value }
{
    let kept: Result<_, _> = Box::new(alloc, value);
    Box::leak(kept.expect(rt, "memory"))
}

/// A vertex and the number of its pin, the vertex whose output 0 feeds it, and how many registers lie between them.
pub type Wire = (u32, u32, u32, usize);

/// Takes an input, an output or a gate.
pub fn add(rt: &impl Abort, alloc: Global, builder: &mut MachineBuilder, kind: VertexKind) {
    builder.keeps();
    let added = match kind {
        VertexKind::Input => builder.add_vertex(alloc, VertexKind::Input),
        VertexKind::Output => builder.add_vertex(alloc, VertexKind::Output),
        VertexKind::Gate(gate) => builder.add_vertex(alloc, VertexKind::Gate(gate)),
        _ => panic!(rt; "no input, output or gate"),
    };
    let _ = added.expect(rt, "a vertex");
}

/// Feeds an open pin through registers that start with 0.
pub fn feed(rt: &impl Abort, alloc: Global, builder: &mut MachineBuilder, wire: Wire) {
    let (to, pin, from, registers) = wire;
    let to = VertexId::new(to);
    let from = VertexId::new(from);
    assert!(rt; builder.is_open(to, pin) && builder.has_output(from, 0));
    let contents = vec![in alloc; false; registers].expect(rt, "contents");
    let fed = builder.feed(to, pin, from, 0, Sequence::from_vec(contents));
    let () = fed.expect(rt, "a wire");
}

/// The machine of these vertices, behind the Host, and wires.
pub fn machine(
    rt: &impl Abort,
    alloc: Global,
    kinds: &[VertexKind],
    wires: &[Wire],
) -> &'static Machine {
    let mut builder = MachineBuilder::new(alloc).expect(rt, "a builder");
    for kind in kinds {
        add(rt, alloc, &mut builder, *kind);
    }
    for wire in wires {
        feed(rt, alloc, &mut builder, *wire);
    }
    keep(rt, alloc, builder.finish(alloc).expect(rt, "a machine"))
}

/// The delays that the text of a table gives a machine.
pub fn delays(rt: &impl Abort, alloc: Global, machine: &Machine, text: &str) -> &'static Delays
    ensures { AreDelaysOf machine.now result.now }
{
    let table = read_delays(alloc, text.as_bytes()).expect(rt, "a table");
    let delays = assign(alloc, keep(rt, alloc, table), machine).expect(rt, "delays");
    keep(rt, alloc, delays)
}

/// The rows of a machine with these delays.
pub fn rows_of<R: Threads + Sync + Abort>(
    rt: &R,
    alloc: Global,
    machine: &Machine,
    delays: &Delays,
) -> &'static Rows
    requires { AreDelaysOf machine.now delays.now }
    ensures { AreRowsOf machine.now delays.now result.now }
{
    let rows = rows(rt, alloc, machine, delays, &NoGate).expect(rt, "rows");
    keep(rt, alloc, rows)
}
