// The machine of vertices that are whole: each pin has its source, and no loop lacks a register.
ghost use Rattle.std.specs.Prelude.{◌≡◌, ◌^◌, ◌<◌, ◌≤◌, length, IfOk};
ghost use Rattle.cs_graph.specs.Draft.{AreFed, IsDraft, built};
ghost use Rattle.cs_graph.specs.Invariant.{HasOrder};
ghost use Rattle.cs_graph.specs.declared.order.OrderError.TheVariants.{NoMemory};

use crate::machine::Machine;
use crate::memory::Memory;
use crate::numbering::number;
use crate::order::{OrderError, order_under};
use crate::source::OpenVertex;
use cs_base::Sequence;
use std::alloc::{AllocError, Global};

/// The machine of these vertices and memories, its edges numbered by vertex, then by pin: what a builder makes that is
/// given them one by one. It errs only where memory runs out.
pub fn assemble(
    alloc: Global,
    vertices: Sequence<OpenVertex>,
    memories: Sequence<Memory>,
) -> Result<Machine, AllocError>
    requires draft { IsDraft (record { vertices = vertices; memories = memories }) }
    requires fed { AreFed vertices }
    requires order { HasOrder (built (record { vertices = vertices; memories = memories })) }
    ensures { IfOk result (λ machine. machine ≡ built (record { vertices = vertices; memories = memories })) }
{
    let graph = number(alloc, vertices.into_vec(), memories)?;
    match order_under(alloc, &graph, &[]) {
        Ok(order) => Ok(Machine::from_parts(graph, order)),
        Err(OrderError::Loop(_)) => unreachable!(),
        Err(OrderError::NoMemory) => Err(AllocError),
    }
}
