// From the machine of a netlist to that of several contexts.
ghost use Rattle.std.specs.Prelude.{◌≡◌, IfErr, IfOk, None, OnOk};
ghost use Rattle.cs_interleave.specs.InterleaveFaults.{TellsInterleaveFault, contexts_fault};
ghost use Rattle.cs_interleave.specs.Interleaved.{interleaved};
ghost use Rattle.cs_lower.specs.Lowered.{lowered};
ghost use Rattle.cs_net.specs.Contexts.{AreImagesFor};

use crate::error::InterleaveError;
use cs_bank::bank;
use cs_base::Contexts;
use cs_graph::Machine;
use cs_net::{Images, Netlist};
use cs_slow::slow;
use std::alloc::Global;

/// The machine of a netlist, slowed and banked for contexts whose memories start with these images.
pub(crate) fn for_contexts(
    alloc: Global,
    net: &Netlist,
    machine: &Machine,
    contexts: Contexts,
    images: &Images,
) -> Result<Machine, InterleaveError>
    requires machine { machine.now ≡ lowered net.now }
    requires images { AreImagesFor net.now contexts images.now }
    ensures ok { IfOk result (λ made. made ≡ interleaved net.now images.now contexts) }
    ensures within { OnOk result (contexts_fault contexts images.now.of (lowered net.now) ≡ None) }
    ensures cause { IfErr result (TellsInterleaveFault (contexts_fault contexts images.now.of (lowered net.now))) }
{
    net.keeps();
    let slowed = slow(alloc, machine, contexts)?;
    match bank(alloc, &slowed, contexts, images) {
        Ok(banked) => Ok(banked),
        Err(error) => Err(InterleaveError::from(error)),
    }
}
