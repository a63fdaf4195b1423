// The number of the running context, in vertices that count the clocks.
ghost use Rattle.std.specs.Prelude.{◌≡◌, ◌<◌, ◌≤◌, ◌^◌, ◌++◌, IfOk, OnOk, ◌∷◌, []};
ghost use Rattle.cs_bank.specs.ContextBits.{context_bit, context_bits, context_vertices, counter_contents, digit};

use crate::sources::push_gate;
use cs_base::{Contexts, Sequence, VertexId};
use cs_cells::Kind;
use cs_graph::{Driver, OpenVertex, Source};
use std::alloc::{AllocError, Global};

/// How many bits number a context.
#[tactic(auto, using(crate::proofs::Counters::enough_bits, crate::proofs::Counters::least_bits))]
pub(crate) fn context_bits(contexts: Contexts) -> u32
    ensures is { result ≡ context_bits contexts }
    ensures few { result ≤ 4 }
{
    let _count = contexts.get();
    contexts.bits()
}

// Binary digit j of a number.
fn digit(number: u32, j: u32) -> bool
    ensures { result ≡ digit j number }
{
    let mut rest = number;
    for _ in 0..j {
        rest /= 2;
    }
    rest % 2 == 1
}

// What bit j of the running context's number was at the clocks -1, -2 and on.
fn counter_contents(alloc: Global, contexts: Contexts, j: u32) -> Result<Sequence<bool>, AllocError>
    ensures { IfOk result (λ contents. contents ≡ counter_contents contexts j) }
{
    let count = contexts.get();
    let mut contents = Sequence::new(alloc);
    for clock in 0..count {
        contents.push(digit(count - 1 - clock, j))?;
    }
    Ok(contents)
}

// Pushes context bit j, as vertex v: a buffer that reads itself through a register for each context.
fn push_context_bit(
    alloc: Global,
    vertices: &mut Vec<OpenVertex>,
    contexts: Contexts,
    v: u32,
    j: u32,
) -> Result<(), AllocError>
    ensures { OnOk result (vertices.new.items ≡ vertices.old.items ++ context_bit contexts v j ∷ []) }
{
    let contents = counter_contents(alloc, contexts, j)?;
    let itself = Source::Driven(Driver {
        from: VertexId::new(v),
        output: 0,
        contents,
    });
    push_gate(alloc, vertices, Kind::Buf, itself)
}

/// Pushes the context bits, the first of them as vertex `first`.
pub(crate) fn push_context_bits(
    alloc: Global,
    vertices: &mut Vec<OpenVertex>,
    contexts: Contexts,
    first: u32,
) -> Result<(), AllocError>
    requires { first ≤ 4096 }
    ensures { OnOk result (vertices.new.items ≡ vertices.old.items ++ context_vertices contexts first) }
{
    for j in 0..context_bits(contexts) {
        push_context_bit(alloc, vertices, contexts, first + j, j)?;
    }
    Ok(())
}
