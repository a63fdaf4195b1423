// Banking: one memory in place of those of all contexts.
ghost use Rattle.std.specs.Prelude.{◌≡◌, Err, IfErr, IfOk, None, OnOk, Some};
ghost use Rattle.cs_base.specs.declared.limit.LimitFault.{LimitFault as LimitFaultValue};
ghost use Rattle.cs_graph.specs.declared.graph.Graph.{Graph};
ghost use Rattle.cs_graph.specs.Invariant.{IsMachine};
ghost use Rattle.cs_graph.specs.Slow.{slow};
ghost use Rattle.cs_bank.specs.Alone.{AnswersEachAlone};
ghost use Rattle.cs_bank.specs.Bank.{CanBank, bank, banked};
ghost use Rattle.cs_bank.specs.BankErrors.{TellsBankFault};
ghost use Rattle.cs_bank.specs.BankFaults.{bank_fault, draft_fault};
ghost use Rattle.cs_bank.specs.Wired.{wired};
ghost use Rattle.cs_bank.specs.declared.error.BankError.TheVariants.{Limit};
ghost use Rattle.cs_graph.specs.Draft.{built};

use crate::copies::copy_of;
use crate::error::BankError;
use crate::faults::draft_fault;
use crate::memories::banked_memories;
use crate::vertices::banked_vertices;
use cs_base::{Contexts, LimitFault, Sequence};
use cs_graph::{Machine, assemble};
use cs_net::Images;
use std::alloc::{AllocError, Global};

// The fault of a machine that would be too large, if it has memories.
fn bank_fault(machine: &Machine, contexts: Contexts, images: &Images) -> Option<LimitFault>
    requires { CanBank contexts images.now.of machine.now }
    ensures { result ≡ bank_fault contexts images.now.of machine.now }
{
    if machine.memory_count() == 0 {
        return None;
    }
    draft_fault(machine, contexts)
}

// The banked machine, where nothing of it is too many.
fn banked(
    alloc: Global,
    machine: &Machine,
    contexts: Contexts,
    images: &Images,
) -> Result<Machine, AllocError>
    requires can { CanBank contexts images.now.of machine.now }
    requires few { draft_fault (banked contexts images.now.of (wired machine.now)) ≡ None }
    ensures { IfOk result (λ made. made ≡ built (banked contexts images.now.of (wired machine.now))) }
{
    machine.keeps();
    let _count = contexts.get();
    let vertices = banked_vertices(alloc, machine, contexts)?;
    let memories = banked_memories(alloc, machine, contexts, images)?;
    assemble(alloc, Sequence::from_vec(vertices), memories)
}

// The machine as it is where it has no memories, else banked.
fn banked_or_copy(
    alloc: Global,
    machine: &Machine,
    contexts: Contexts,
    images: &Images,
) -> Result<Machine, AllocError>
    requires can { CanBank contexts images.now.of machine.now }
    requires few { bank_fault contexts images.now.of machine.now ≡ None }
    ensures { IfOk result (λ made. made ≡ bank contexts images.now.of machine.now) }
{
    if machine.memory_count() == 0 {
        copy_of(alloc, machine)
    } else {
        banked(alloc, machine, contexts, images)
    }
}

/// The machine with one memory in place of those of all contexts, where it has memories: each memory has its words as
/// many times as there are contexts, bank k for context k; each read and write port has the number of the running
/// context above its address; and a write port of a memory with fewer words than addresses has a guard, by which writes
/// from its size on are dropped. The vertices that were there keep their numbers; behind them come the context bits,
/// then the guards, memory by memory and port by port. Bank k of a memory that the images name starts with image k, and
/// with 0 in the words that it doesn't reach; every other bank starts as the memory. `Limit` comes exactly where there
/// would be more vertices, edges, registers or bits of memories than a machine may have, tells the first of these and
/// how many they would be, and comes before memory is taken.
pub fn bank(
    alloc: Global,
    machine: &Machine,
    contexts: Contexts,
    images: &Images,
) -> Result<Machine, BankError>
    requires { CanBank contexts images.now.of machine.now }
    ensures ok { IfOk result (λ banked. banked ≡ bank contexts images.now.of machine.now) }
    ensures within { OnOk result (bank_fault contexts images.now.of machine.now ≡ None) }
    ensures cause { IfErr result (TellsBankFault (bank_fault contexts images.now.of machine.now)) }
    ensures limit_comes { (fault : LimitFaultValue) → bank_fault contexts images.now.of machine.now ≡ Some fault
        → result ≡ Err (Limit fault) }
    ensures alone { IfOk result (λ banked. (g : Graph) → IsMachine g → machine.now ≡ slow contexts g
        → AnswersEachAlone contexts images.now.of g banked) }
{
    if let Some(fault) = bank_fault(machine, contexts, images) {
        return Err(BankError::Limit(fault));
    }
    Ok(banked_or_copy(alloc, machine, contexts, images)?)
}
