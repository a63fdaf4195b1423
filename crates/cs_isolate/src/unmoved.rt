// The document of a machine in which no register moves.
ghost use Rattle.std.specs.Prelude.{◌≡◌, None, IfOk};
ghost use Rattle.cs_isolate.specs.Still.{own_contents, still_lags};
ghost use Rattle.cs_share.specs.EmitFaults.{TellsEmitFault};
ghost use Rattle.cs_share.specs.Emission.{IsEmission};
ghost use Rattle.cs_share.specs.Names.{AreNamesFor};

use cs_base::{EdgeId, Sequence};
use cs_graph::{Contents, Machine};
use cs_json::Document;
use cs_share::{EmitError, Names, emit};
use std::alloc::{AllocError, Global};

/// The document of a machine as it stands.
pub(crate) fn still_document(
    alloc: Global,
    machine: &Machine,
    names: &Names,
) -> Result<Document, AllocError>
    requires { AreNamesFor machine.now names.now }
    ensures { IfOk result (λ document. IsEmission machine.now names.now document) }
{
    machine.keeps();
    let lags = still_lags(alloc, machine)?;
    let contents = own_contents(alloc, machine)?;
    match emit(alloc, machine, lags.as_slice(), &contents, names) {
        Ok(document) => Ok(document),
        Err(error) => Err(memory_alone(error)),
    }
}

/// Registers within the limit are refused for want of memory alone.
fn memory_alone(error: EmitError) -> AllocError
    requires { TellsEmitFault None error }
{
    match error {
        EmitError::NoMemory => AllocError,
        EmitError::Limit(_) => unreachable!(),
    }
}

/// The lag 0 for each vertex.
fn still_lags(alloc: Global, machine: &Machine) -> Result<Vec<i64>, AllocError>
    ensures { IfOk result (λ lags. lags.items ≡ still_lags machine.now) }
{
    let mut lags = Vec::new(alloc);
    lags.resize(machine.vertex_count() as usize, 0)?;
    Ok(lags)
}

/// What the edges hold.
fn own_contents(alloc: Global, machine: &Machine) -> Result<Contents, AllocError>
    ensures { IfOk result (λ contents. contents ≡ own_contents machine.now) }
{
    let mut lists = Sequence::new(alloc);
    for e in 0..machine.edge_count() {
        lists.push(copied(alloc, machine.edge(EdgeId::new(e)).contents.as_slice())?)?;
    }
    Ok(Contents { of: lists })
}

fn copied(alloc: Global, contents: &[bool]) -> Result<Sequence<bool>, AllocError>
    ensures { IfOk result (λ copy. copy ≡ contents.now) }
{
    let mut copy = Vec::new(alloc);
    copy.extend_from_slice(contents)?;
    Ok(Sequence::from_vec(copy))
}
