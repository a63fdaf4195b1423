// Laws of the graph of a netlist for several contexts. Each is a function without effect, whose clauses are the law.
ghost use Rattle.std.specs.Prelude.{ℕ};
ghost use Rattle.cs_interleave.specs.Interleaved.{interleaved};
ghost use Rattle.cs_interleave.specs.Isolation.{IsolatesContexts};
ghost use Rattle.cs_net.specs.Contexts.{AreImagesFor};
ghost use Rattle.cs_net.specs.declared.images.Images.{Images};

use cs_net::Netlist;

/// The graph of a netlist that is slowed and banked for c contexts, with images of the netlist for them, answers each
/// context just what the netlist answers to it alone from that context's start.
pub fn contexts_are_isolated(net: &Netlist)
    ensures { (images : Images) (c : ℕ) → AreImagesFor net.now c images
        → IsolatesContexts net.now images c (interleaved net.now images c) }
{
    net.keeps();
}
