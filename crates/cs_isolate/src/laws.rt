// The law of emissions. It is a function without effect, whose clause is the law.
ghost use Rattle.std.specs.Prelude.{ℕ};
ghost use Rattle.cs_graph.specs.declared.graph.Graph.{Graph};
ghost use Rattle.cs_graph.specs.Invariant.{IsMachine};
ghost use Rattle.cs_isolate.specs.Isolating.{HasIsolating, RunsAlike, own_names};
ghost use Rattle.cs_json.specs.declared.document.Document.{Document};
ghost use Rattle.cs_net.specs.Contexts.{AreImagesFor};
ghost use Rattle.cs_net.specs.declared.images.Images.{Images};
ghost use Rattle.cs_share.specs.Emission.{IsEmission};
ghost use Rattle.cs_share.specs.Names.{AreNamesFor};

use cs_net::Netlist;

/// The emission of each machine that answers as a netlist's machine for c contexts does, under the netlist's names, has a
/// netlist that isolates it in these contexts.
pub fn emissions_isolate(net: &Netlist)
    ensures { (images : Images) (c : ℕ) (g : Graph) (document : Document) → AreImagesFor net.now c images → IsMachine g
        → AreNamesFor g (own_names net.now) → RunsAlike net.now images c g → IsEmission g (own_names net.now) document
        → HasIsolating net.now images c document }
{
    net.keeps();
}
