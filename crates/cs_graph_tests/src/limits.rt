// What is one too many for a machine.
use crate::building::{add, feed, keep};
use cs_base::{Counted, LimitFault};
use cs_cells::Kind;
use cs_graph::{BuildError, MachineBuilder, VertexKind};

pub fn is_limit(refused: &Option<BuildError>, what: Counted, found: u64, most: u64) -> bool {
    match refused {
        Some(BuildError::Limit(fault)) => *fault == LimitFault { what, found, most },
        _ => false,
    }
}

#[test]
fn one_vertex_too_many(rt: HostRuntime) {
    let alloc = rt.alloc();
    let mut builder = MachineBuilder::new(alloc).expect(&rt, "a builder");
    for _ in 0..4_095 {
        add(&rt, alloc, &mut builder, VertexKind::Input);
    }
    builder.keeps();
    let refused = builder.add_vertex(alloc, VertexKind::Input).err();
    assert!(rt; is_limit(keep(&rt, alloc, refused), Counted::Vertices, 4_097, 4_096));
}

// Multiplexers of 20 pins each, from vertex 2 on, which the input 1 feeds.
#[test]
fn one_edge_too_many(rt: HostRuntime) {
    let alloc = rt.alloc();
    let mut builder = MachineBuilder::new(alloc).expect(&rt, "a builder");
    add(&rt, alloc, &mut builder, VertexKind::Input);
    for edge in 0..32_768 {
        if edge % 20 == 0 {
            add(&rt, alloc, &mut builder, VertexKind::Gate(Kind::Mux16));
        }
        let wire = (2 + edge / 20, edge % 20, 1, [].as_slice());
        feed(&rt, alloc, &mut builder, wire).expect(&rt, "an edge");
    }
    let refused = feed(&rt, alloc, &mut builder, (1_640, 8, 1, &[])).err();
    assert!(rt; is_limit(keep(&rt, alloc, refused), Counted::Edges, 32_769, 32_768));
}

#[test]
fn one_register_too_many(rt: HostRuntime) {
    let alloc = rt.alloc();
    let mut builder = MachineBuilder::new(alloc).expect(&rt, "a builder");
    add(&rt, alloc, &mut builder, VertexKind::Gate(Kind::Not));
    let contents = vec![in alloc; false; 65_537].expect(&rt, "contents");
    let refused = feed(&rt, alloc, &mut builder, (1, 0, 1, contents.as_slice())).err();
    assert!(rt; is_limit(keep(&rt, alloc, refused), Counted::Weight, 65_537, 65_536));
    feed(&rt, alloc, &mut builder, (1, 0, 1, &contents[1..])).expect(&rt, "an edge");
    keep(&rt, alloc, builder.finish(alloc).expect(&rt, "a machine"));
}
