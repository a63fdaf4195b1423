// What the pins of a machine read, as sources, and pins of new vertices.
ghost use Rattle.std.specs.Prelude.{◌≡◌, ◌+◌, ◌<◌, ◌^◌, ◌++◌, ◌∷◌, [], IfOk, OnOk, Some, map, slice_get};
ghost use Rattle.std.specs.List.{range_with_len};
ghost use Rattle.cs_bank.specs.ContextBits.{gate, wire};
ghost use Rattle.cs_bank.specs.Wired.{edge_source, feed_source};

use cs_base::{Sequence, VertexId};
use cs_cells::Kind;
use cs_graph::{Driver, Edge, Feed, Machine, OpenPins, OpenVertex, Source, VertexKind};
use std::alloc::{AllocError, Global};

// ---- sources

// Where an edge comes from, and its contents.
fn edge_source(alloc: Global, edge: &Edge) -> Result<Source, AllocError>
    ensures { IfOk result (λ source. Some source ≡ edge_source (Some edge.now)) }
{
    let contents = Vec::from_slice(alloc, edge.contents.as_slice())?;
    Ok(Source::Driven(Driver {
        from: edge.from,
        output: edge.output,
        contents: Sequence::from_vec(contents),
    }))
}

/// The source of a pin.
pub(crate) fn source(alloc: Global, machine: &Machine, feed: Feed) -> Result<Source, AllocError>
    ensures { IfOk result (λ source. Some source ≡ feed_source machine.now.edges feed) }
{
    match feed {
        Feed::Tied(value) => Ok(Source::Tied(value)),
        Feed::Edge(e) => if e.get() < machine.edge_count() {
            edge_source(alloc, machine.edge(e))
        } else {
            Ok(Source::Tied(false))
        },
    }
}

/// What a pin reads from output 0 of a vertex without a register; it takes no memory.
pub(crate) fn wire(alloc: Global, v: VertexId) -> Source
    ensures { Some result ≡ wire v }
{
    Source::Driven(Driver {
        from: v,
        output: 0,
        contents: Sequence::new(alloc),
    })
}

// ---- pins

/// Pushes the sources of pins.
pub(crate) fn push_sources(
    alloc: Global,
    machine: &Machine,
    feeds: &[Feed],
    pins: &mut Vec<Option<Source>>,
) -> Result<(), AllocError>
    ensures { OnOk result (pins.new.items ≡ pins.old.items ++ map (feed_source machine.now.edges) feeds.now) }
{
    for feed in feeds {
        let source = source(alloc, machine, *feed)?;
        pins.push(Some(source))?;
    }
    Ok(())
}

/// Pushes pins that read so many vertices from `first` on.
pub(crate) fn push_wires(
    alloc: Global,
    first: u32,
    count: u32,
    pins: &mut Vec<Option<Source>>,
) -> Result<(), AllocError>
    requires { first + count < 2 ^ 32 }
    ensures { OnOk result (pins.new.items ≡ pins.old.items ++ map wire (range_with_len first count)) }
{
    for place in 0..count {
        pins.push(Some(wire(alloc, VertexId::new(first + place))))?;
    }
    Ok(())
}

// ---- gates

/// Pushes a gate with one pin.
pub(crate) fn push_gate(
    alloc: Global,
    vertices: &mut Vec<OpenVertex>,
    kind: Kind,
    pin: Source,
) -> Result<(), AllocError>
    ensures { OnOk result (vertices.new.items ≡ vertices.old.items ++ gate kind (Some pin ∷ []) ∷ []) }
{
    let pins = Vec::from_array(alloc, [Some(pin)])?;
    vertices.push(OpenVertex {
        kind: VertexKind::Gate(kind),
        pins: OpenPins::from_vec(pins),
    })?;
    Ok(())
}

/// Pushes a gate with two pins.
pub(crate) fn push_gate_of_two(
    alloc: Global,
    vertices: &mut Vec<OpenVertex>,
    kind: Kind,
    first: Source,
    second: Source,
) -> Result<(), AllocError>
    ensures { OnOk result (vertices.new.items
        ≡ vertices.old.items ++ gate kind (Some first ∷ Some second ∷ []) ∷ []) }
{
    let pins = Vec::from_array(alloc, [Some(first), Some(second)])?;
    vertices.push(OpenVertex {
        kind: VertexKind::Gate(kind),
        pins: OpenPins::from_vec(pins),
    })?;
    Ok(())
}
