// Builders that are filled by rows of tables, and values that are kept.
use cs_base::{Sequence, VertexId};
use cs_graph::{BuildError, Machine, MachineBuilder, VertexKind};
use std::alloc::Global;
use std::process::Abort;

/// A value that is never freed: a test ends with its process.
pub fn keep<'a, T: Drop + 'a>(rt: &impl Abort, alloc: Global, value: T) -> &'a T {
    let kept: Result<_, _> = Box::new(alloc, value);
    Box::leak(kept.expect(rt, "memory"))
}

/// Asserts what a row of a table says.
pub fn assert_row(rt: &impl Abort, holds: bool, row: usize) {
    assert!(rt; holds, "row {row}");
}

/// A vertex and the number of its pin, the vertex whose output 0 feeds it, and the contents of the registers
/// between them.
pub type Wire<'a> = (u32, u32, u32, &'a [bool]);

/// Takes an input, an output or a gate.
pub fn add(rt: &impl Abort, alloc: Global, builder: &mut MachineBuilder, kind: VertexKind) {
    builder.keeps();
    let added = match kind {
        VertexKind::Input => builder.add_vertex(alloc, VertexKind::Input),
        VertexKind::Output => builder.add_vertex(alloc, VertexKind::Output),
        VertexKind::Gate(gate) => builder.add_vertex(alloc, VertexKind::Gate(gate)),
        _ => panic!(rt; "no input, output or gate"),
    };
    let _ = added.expect(rt, "a vertex");
}

/// Feeds an open pin.
pub fn feed(
    rt: &impl Abort,
    alloc: Global,
    builder: &mut MachineBuilder,
    wire: Wire<'_>,
) -> Result<(), BuildError> {
    let (to, pin, from, contents) = wire;
    let to = VertexId::new(to);
    let from = VertexId::new(from);
    assert!(rt; builder.is_open(to, pin) && builder.has_output(from, 0));
    let contents = contents.to_vec(alloc).expect(rt, "contents");
    builder.feed(to, pin, from, 0, Sequence::from_vec(contents))
}

fn with_vertices(rt: &impl Abort, alloc: Global, kinds: &[VertexKind]) -> MachineBuilder {
    let mut builder = MachineBuilder::new(alloc).expect(rt, "a builder");
    for kind in kinds {
        add(rt, alloc, &mut builder, *kind);
    }
    builder
}

/// What comes of these vertices, behind the Host, and wires.
pub fn built(
    rt: &impl Abort,
    alloc: Global,
    kinds: &[VertexKind],
    wires: &[Wire<'_>],
) -> Result<Machine, BuildError> {
    let mut builder = with_vertices(rt, alloc, kinds);
    for wire in wires {
        feed(rt, alloc, &mut builder, *wire).expect(rt, "a wire");
    }
    builder.finish(alloc)
}

/// The machine of these vertices, behind the Host, and wires.
pub fn machine(
    rt: &impl Abort,
    alloc: Global,
    kinds: &[VertexKind],
    wires: &[Wire<'_>],
) -> &'static Machine {
    let machine = built(rt, alloc, kinds, wires).expect(rt, "a machine");
    keep(rt, alloc, machine)
}
