// From an accepted netlist to the machine of several contexts.
ghost use Rattle.std.specs.Prelude.{◌≡◌, IfErr, IfOk, None, OnOk};
ghost use Rattle.cs_interleave.specs.InterleaveFaults.{TellsInterleaveFault, interleave_fault};
ghost use Rattle.cs_interleave.specs.Interleaved.{interleaved};
ghost use Rattle.cs_interleave.specs.Isolation.{IsolatesContexts};
ghost use Rattle.cs_lower.specs.Lowered.{origins};
ghost use Rattle.cs_net.specs.Contexts.{AreImagesFor};

use crate::contexts::for_contexts;
use crate::error::InterleaveError;
use crate::laws::contexts_are_isolated;
use cs_base::{Contexts, Sequence, Text};
use cs_graph::Machine;
use cs_lower::lower;
use cs_net::{Images, Netlist};
use std::alloc::Global;

/// The machine of a netlist for several contexts, and for each vertex of the netlist's own machine the name of the gate
/// cell that it is, which is empty for every other vertex; the vertices behind these are new.
#[derive(Drop)]
pub struct Interleaved {
    pub machine: Machine,
    pub origins: Sequence<Text>,
}

/// The machine of a netlist, slowed and banked for contexts whose memories start with these images, and the origins of
/// its vertices. `Limit` comes exactly where the netlist's machine would be too large, else the slowed one, else the
/// banked one, and tells the first count of that machine that is above its limit.
pub fn interleave(
    alloc: Global,
    net: &Netlist,
    contexts: Contexts,
    images: &Images,
) -> Result<Interleaved, InterleaveError>
    requires { AreImagesFor net.now contexts images.now }
    ensures machine { IfOk result (λ made. made.machine ≡ interleaved net.now images.now contexts) }
    ensures origins { IfOk result (λ made. made.origins ≡ origins net.now) }
    ensures within { OnOk result (interleave_fault net.now images.now contexts ≡ None) }
    ensures cause { IfErr result (TellsInterleaveFault (interleave_fault net.now images.now contexts)) }
    ensures isolates { IfOk result (λ made. IsolatesContexts net.now images.now contexts made.machine) }
{
    contexts_are_isolated(net);
    let lowered = lower(alloc, net)?;
    let machine = for_contexts(alloc, net, &lowered.machine, contexts, images)?;
    Ok(Interleaved {
        machine,
        origins: lowered.origins,
    })
}
