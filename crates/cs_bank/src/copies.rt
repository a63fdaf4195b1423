// A machine as it is, once more.
ghost use Rattle.std.specs.Prelude.{◌≡◌, IfOk, IfErr, None, map};
ghost use Rattle.cs_graph.specs.Faults.{TellsLimit};
ghost use Rattle.cs_graph.specs.OtherContents.{FitsEdges};

use cs_base::{EdgeId, Sequence};
use cs_graph::{BuildError, Contents, Machine};
use std::alloc::{AllocError, Global};

// What the edges of a machine hold.
fn contents(alloc: Global, machine: &Machine) -> Result<Contents, AllocError>
    ensures { IfOk result (λ contents. contents ≡ record { of = map (λ d. d.contents) machine.now.edges }) }
{
    let mut of = Sequence::new(alloc);
    for e in 0..machine.edge_count() {
        let held = machine.edge(EdgeId::new(e)).contents.as_slice();
        of.push(Sequence::from_vec(Vec::from_slice(alloc, held)?))?;
    }
    Ok(Contents { of })
}

// Contents that fit and are within the limit are refused for want of memory alone.
fn memory_alone(error: BuildError) -> AllocError
    requires { TellsLimit None error }
{
    match error {
        BuildError::NoMemory => AllocError,
        BuildError::Limit(_) | BuildError::Open { .. } | BuildError::Loop { .. } => {
            unreachable!()
        }
    }
}

/// The same machine again. It errs only where memory runs out.
pub(crate) fn copy_of(alloc: Global, machine: &Machine) -> Result<Machine, AllocError>
    ensures { IfOk result (λ copy. copy ≡ machine.now) }
{
    machine.keeps();
    let contents = contents(alloc, machine)?;
    match machine.with_contents(alloc, contents) {
        Ok(copy) => Ok(copy),
        Err(error) => Err(memory_alone(error)),
    }
}
