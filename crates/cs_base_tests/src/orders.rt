// Graphs by the sources of each vertex, and the orders or the loops that they have.
use crate::fixtures::assert_at;
use cs_order::{Arrangement, Dependencies, arrange};
use std::alloc::Global;
use std::process::Abort;

#[test]
fn rows_of_sources(rt: HostRuntime) {
    let mut graph = Dependencies::new(rt.alloc());
    assert!(rt; graph.is_empty());
    graph.add_vertex(&[4, 0]).expect(&rt, "a vertex");
    graph.push_vertex().expect(&rt, "a vertex");
    graph.push_source(3).expect(&rt, "a source");
    assert!(rt; graph.len() == 2);
    assert!(rt; graph.sources(0) == [4, 0].as_slice() && graph.sources(1) == [3].as_slice());
}

type Rows = &'static [&'static [usize]];

fn arranged(rt: &impl Abort, alloc: Global, rows: Rows) -> Arrangement {
    let mut graph = Dependencies::new(alloc);
    for sources in rows {
        assert!(rt; graph.len() < 10);
        graph.add_vertex(sources).expect(rt, "a vertex");
    }
    arrange(alloc, &graph).expect(rt, "an answer")
}

// Whether it is one of these orders.
fn is_order(found: Arrangement, orders: Rows) -> bool {
    match found {
        Arrangement::Order(order) => orders.iter().any(|wanted| *wanted == order.as_slice()),
        Arrangement::Loop(_) => false,
    }
}

// Whether it is one of these loops, told with the least vertex first.
fn is_loop(found: Arrangement, loops: Rows) -> bool {
    match found {
        Arrangement::Order(_) => false,
        Arrangement::Loop(mut vertices) => {
            vertices.sort_unstable();
            loops.iter().any(|wanted| *wanted == vertices.as_slice())
        }
    }
}

const WITH_ORDERS: &[(Rows, Rows)] = &[
    (&[], &[&[]]),
    (&[&[]], &[&[0]]),
    (&[&[], &[0], &[1], &[2]], &[&[0, 1, 2, 3]]),
    (&[&[1], &[2], &[3], &[]], &[&[3, 2, 1, 0]]),
    (&[&[1, 1], &[]], &[&[1, 0]]),
    (&[&[7], &[0, 2]], &[&[0, 1]]),
    (&[&[1, 2], &[3], &[3], &[]], &[&[3, 1, 2, 0], &[3, 2, 1, 0]]),
];

// A tail that leads to a loop is no part of it.
const WITH_LOOPS: &[(Rows, Rows)] = &[
    (&[&[0]], &[&[0]]),
    (&[&[1], &[0], &[3], &[2]], &[&[0, 1], &[2, 3]]),
    (&[&[1], &[2], &[3], &[4], &[2]], &[&[2, 3, 4]]),
];

#[test]
fn graphs_with_orders(rt: HostRuntime) {
    for (row, (rows, orders)) in WITH_ORDERS.iter().enumerate() {
        assert_at(&rt, is_order(arranged(&rt, rt.alloc(), rows), orders), row);
    }
}

#[test]
fn graphs_with_loops(rt: HostRuntime) {
    for (row, (rows, loops)) in WITH_LOOPS.iter().enumerate() {
        assert_at(&rt, is_loop(arranged(&rt, rt.alloc(), rows), loops), row);
    }
}
