// Slowing: the contents of every edge, each as many times as there are contexts, on the same edges.
ghost use Rattle.std.specs.Prelude.{◌≡◌, ◌≤◌, Err, IfErr, IfOk, None, OnOk, Some};
ghost use Rattle.cs_base.specs.declared.limit.LimitFault.{LimitFault as LimitFaultValue};
ghost use Rattle.cs_graph.specs.Faults.{TellsLimit};
ghost use Rattle.cs_graph.specs.OtherContents.{FitsEdges};
ghost use Rattle.cs_graph.specs.Slow.{repeated, slow, slow_contents};
ghost use Rattle.cs_slow.specs.Alone.{AnswersEachAlone};
ghost use Rattle.cs_slow.specs.SlowFaults.{TellsSlowFault, register_count, slow_fault};
ghost use Rattle.cs_slow.specs.declared.error.SlowError.TheVariants.{Limit, NoMemory};

use crate::error::SlowError;
use cs_base::{Contexts, Counted, EdgeId, LimitFault, Sequence};
use cs_graph::{BuildError, Contents, MOST_WEIGHT, Machine};
use std::alloc::{AllocError, Global};

/// The machine with every register as many times in series as there are contexts, each with the register's start:
/// every weight that many times as great, and content j what content j / contexts was. Vertices, edges and memories
/// keep their numbers. `Limit` comes exactly where these are more registers than a machine may have, before memory is
/// taken, and tells how many they are.
pub fn slow(alloc: Global, machine: &Machine, contexts: Contexts) -> Result<Machine, SlowError>
    ensures ok { IfOk result (λ slowed. slowed ≡ slow contexts machine.now) }
    ensures within { OnOk result (slow_fault contexts machine.now ≡ None) }
    ensures cause { IfErr result (TellsSlowFault (slow_fault contexts machine.now)) }
    ensures limit_comes { (fault : LimitFaultValue) → slow_fault contexts machine.now ≡ Some fault
        → result ≡ Err (Limit fault) }
    ensures alone { IfOk result (λ slowed. AnswersEachAlone contexts machine.now slowed) }
{
    machine.keeps();
    if let Some(fault) = slow_fault(machine, contexts) {
        return Err(SlowError::Limit(fault));
    }
    let contents = slow_contents(alloc, machine, contexts)?;
    match machine.with_contents(alloc, contents) {
        Ok(slowed) => Ok(slowed),
        Err(error) => Err(memory_alone(error)),
    }
}

/// The fault of more registers than a machine may have, if they would be so many.
fn slow_fault(machine: &Machine, contexts: Contexts) -> Option<LimitFault>
    ensures { result ≡ slow_fault contexts machine.now }
{
    machine.keeps();
    let registers = register_count(machine) * contexts.get() as u64;
    if registers > MOST_WEIGHT {
        Some(LimitFault {
            what: Counted::Weight,
            found: registers,
            most: MOST_WEIGHT,
        })
    } else {
        None
    }
}

/// How many registers there are.
fn register_count(machine: &Machine) -> u64
    ensures { result ≡ register_count machine.now }
{
    let mut count = 0u64;
    for e in 0..machine.edge_count() {
        count += machine.edge(EdgeId::new(e)).weight as u64;
    }
    count
}

/// Each content so many times.
fn repeated(alloc: Global, contents: &[bool], times: usize) -> Result<Sequence<bool>, AllocError>
    requires { times ≤ 16 }
    ensures { IfOk result (λ copies. copies ≡ repeated times contents.now) }
{
    let mut copies = Vec::new(alloc);
    for &content in contents {
        copies.resize(copies.len() + times, content)?;
    }
    Ok(Sequence::from_vec(copies))
}

/// What the edges of the slowed machine hold.
fn slow_contents(
    alloc: Global,
    machine: &Machine,
    contexts: Contexts,
) -> Result<Contents, AllocError>
    ensures ok { IfOk result (λ contents. contents ≡ slow_contents contexts machine.now) }
    ensures fits { IfOk result (λ contents. FitsEdges machine.now contents) }
{
    machine.keeps();
    let times = contexts.get() as usize;
    let mut lists = Sequence::new(alloc);
    for e in 0..machine.edge_count() {
        let contents = machine.edge(EdgeId::new(e)).contents.as_slice();
        lists.push(repeated(alloc, contents, times)?)?;
    }
    Ok(Contents { of: lists })
}

/// Contents that fit and are within the limit are refused for want of memory alone.
fn memory_alone(error: BuildError) -> SlowError
    requires { TellsLimit None error }
    ensures { result ≡ NoMemory }
{
    match error {
        BuildError::NoMemory => SlowError::NoMemory,
        BuildError::Limit(_) | BuildError::Open { .. } | BuildError::Loop { .. } => {
            unreachable!()
        }
    }
}
