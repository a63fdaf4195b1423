// From an accepted netlist to the document of its netlist for several contexts.
ghost use Rattle.std.specs.Prelude.{◌≡◌, IfErr, IfOk, None, OnOk};
ghost use Rattle.cs_interleave.specs.InterleaveFaults.{TellsInterleaveFault, interleave_fault};
ghost use Rattle.cs_isolate.specs.Isolating.{HasIsolating, IsSlowed, own_names};
ghost use Rattle.cs_lower.specs.Lowered.{origins};
ghost use Rattle.cs_net.specs.Contexts.{AreImagesFor};
ghost use Rattle.cs_share.specs.Emission.{IsEmission};
ghost use Rattle.cs_share.specs.Names.{AreNamesFor};

use crate::unmoved::still_document;
use cs_base::Contexts;
use cs_interleave::{InterleaveError, Interleaved, interleave};
use cs_json::Document;
use cs_net::{Images, Netlist};
use cs_share::names;
use std::alloc::{AllocError, Global};

/// The document of a netlist for several contexts, whose memories start with these images: that of its machine, slowed
/// and banked, in which no register moves. Its netlist isolates the netlist in the contexts (`isolates`). `Limit` comes
/// exactly where that machine, the netlist's own or the slowed one would be too large, as `interleave` has it.
pub fn slowed_document(
    alloc: Global,
    net: &Netlist,
    contexts: Contexts,
    images: &Images,
) -> Result<Document, InterleaveError>
    requires { AreImagesFor net.now contexts images.now }
    ensures document { IfOk result (IsSlowed net.now images.now contexts) }
    ensures within { OnOk result (interleave_fault net.now images.now contexts ≡ None) }
    ensures cause { IfErr result (TellsInterleaveFault (interleave_fault net.now images.now contexts)) }
    ensures isolates { IfOk result (HasIsolating net.now images.now contexts) }
{
    net.keeps();
    let interleaved = interleave(alloc, net, contexts, images)?;
    interleaved.machine.keeps();
    match own_document(alloc, net, &interleaved) {
        Ok(document) => Ok(document),
        Err(AllocError) => Err(InterleaveError::NoMemory),
    }
}

// The document of a netlist's machine, under the netlist's names.
fn own_document(
    alloc: Global,
    net: &Netlist,
    interleaved: &Interleaved,
) -> Result<Document, AllocError>
    requires origins { interleaved.now.origins ≡ origins net.now }
    requires names { AreNamesFor interleaved.now.machine (own_names net.now) }
    ensures { IfOk result (IsEmission interleaved.now.machine (own_names net.now)) }
{
    let names = names(alloc, net, interleaved.origins.as_slice())?;
    still_document(alloc, &interleaved.machine, &names)
}
