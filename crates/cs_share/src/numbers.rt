// The numbers of what vertices drive.
ghost use Rattle.std.specs.Prelude.{◌≡◌, ◌+◌, ◌<◌, ◌≤◌, ◌^◌, IfOk, get_or, if◌then◌else◌, map};
ghost use Rattle.cs_graph.specs.Kinds.{is_input};
ghost use Rattle.cs_graph.specs.Invariant.{HasMemory};
ghost use Rattle.cs_share.specs.Planned.{number_by, vertex_numbers};
ghost use Rattle.cs_share.specs.Ports.{data_numbers, first_number};
ghost use Rattle.cs_share.specs.Shared.{all_logic_bits, first_register, logic_bits};
ghost use Rattle.cs_share.specs.declared.types.Names.{Names as NamesValue};

use cs_base::{Sequence, VertexId};
use cs_graph::{Machine, VertexKind};
use std::alloc::{AllocError, Global};

/// The number of each vertex's first output, and that of the first register.
#[derive(Drop)]
pub(crate) struct Numbers {
    pub vertices: Sequence<u32>,
    pub first_register: u32,
}

/// The number at a place, and 0 past the end.
pub(crate) fn number_at(numbers: &[u32], place: usize) -> u32
    ensures { result ≡ get_or numbers.now place 0 }
{
    numbers.get(place).copied().unwrap_or(0)
}

// The number of a vertex's first output, where so many Inputs stand before it and the next gate or Read has this number.
fn number_by(inputs: &[u32], before: usize, next: u32, kind: VertexKind) -> u32
    ensures { result ≡ number_by inputs.now before next kind }
{
    match kind {
        VertexKind::Input => number_at(inputs, before),
        VertexKind::Gate(_) => next,
        VertexKind::Read { .. } => next,
        VertexKind::Host => 0,
        VertexKind::Output => 0,
        VertexKind::Constant(_) => 0,
        VertexKind::Write { .. } => 0,
    }
}

// How many bits a vertex drives that are numbered with it.
fn logic_bits(machine: &Machine, kind: VertexKind) -> u32
    requires { HasMemory machine.now.memories kind }
    ensures { result ≡ logic_bits machine.now.memories kind }
{
    match kind {
        VertexKind::Gate(_) => 1,
        VertexKind::Read { memory, .. } => machine.memory(memory).width,
        VertexKind::Host => 0,
        VertexKind::Input => 0,
        VertexKind::Output => 0,
        VertexKind::Constant(_) => 0,
        VertexKind::Write { .. } => 0,
    }
}

fn input_count(kind: VertexKind) -> usize
    ensures { result ≡ if is_input kind then 1 else 0 }
{
    match kind {
        VertexKind::Input => 1,
        _ => 0,
    }
}

/// The numbers of the vertices' outputs, where the data inputs have these numbers and the first gate or Read this one.
pub(crate) fn vertex_numbers(
    alloc: Global,
    machine: &Machine,
    inputs: &[u32],
    first: u32,
) -> Result<Numbers, AllocError>
    requires few { first + all_logic_bits machine.now.memories machine.now.vertices < 2 ^ 32 }
    ensures vertices { IfOk result (λ numbers. (names : NamesValue) → inputs.now ≡ data_numbers names
        → first ≡ first_number names → numbers.vertices ≡ vertex_numbers machine.now names) }
    ensures register { IfOk result (λ numbers. numbers.first_register
        ≡ first + all_logic_bits machine.now.memories machine.now.vertices) }
{
    machine.keeps();
    let mut vertices = Sequence::new(alloc);
    let mut before = 0;
    let mut next = first;
    for v in 0..machine.vertex_count() {
        let vertex = machine.vertex(VertexId::new(v));
        vertices.push(number_by(inputs, before, next, vertex.kind))?;
        before += input_count(vertex.kind);
        next += logic_bits(machine, vertex.kind);
    }
    Ok(Numbers {
        vertices,
        first_register: next,
    })
}
