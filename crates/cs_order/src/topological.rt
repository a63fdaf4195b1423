// Topological order.
ghost use Rattle.std.specs.Prelude.{IfOk};
ghost use Rattle.cs_order.specs.Arrangements.{IfOrder, IfLoop, HasOrder, HasLoop};
ghost use Rattle.cs_order.specs.Graphs.{IsOrder, IsLoop};

use crate::dependencies::Dependencies;
use crate::search::Search;
use std::alloc::{AllocError, Global};

/// What can be told of a graph.
#[derive(Debug, Drop)]
pub enum Arrangement {
    /// Each vertex once, after all that it depends on.
    Order(Vec<usize>),
    /// Vertices, none twice, each of which depends on the next, and the last on the first.
    Loop(Vec<usize>),
}

/// An order in which each vertex stands after all that it depends on, or a loop, exactly where there is
/// no such order. The time is linear in vertices and sources.
pub fn arrange(alloc: Global, graph: &Dependencies) -> Result<Arrangement, AllocError>
    ensures order { IfOk result (λ a. IfOrder a (IsOrder graph.now)) }
    ensures no_loop { IfOk result (λ a. IfOrder a (λ _. ¬ (HasLoop graph.now))) }
    ensures loop_found { IfOk result (λ a. IfLoop a (IsLoop graph.now)) }
    ensures no_order { IfOk result (λ a. IfLoop a (λ _. ¬ (HasOrder graph.now))) }
{
    let mut search = Search::new(alloc, graph)?;
    for root in 0..graph.len() {
        if let Some(start) = search.visit(graph, root)? {
            return Ok(Arrangement::Loop(search.path_from(alloc, start)?));
        }
    }
    Ok(Arrangement::Order(search.order))
}
