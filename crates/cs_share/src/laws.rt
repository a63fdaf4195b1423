// Laws of emissions. Each is a function without effect, whose clauses are the law.
ghost use Rattle.std.specs.Prelude.{◌≡◌};
ghost use Rattle.cs_graph.specs.declared.graph.Graph.{Graph};
ghost use Rattle.cs_graph.specs.Invariant.{IsMachine};
ghost use Rattle.cs_json.specs.declared.document.Document.{Document};
ghost use Rattle.cs_share.specs.declared.types.Names.{Names};
ghost use Rattle.cs_share.specs.Emission.{IsEmission};
ghost use Rattle.cs_share.specs.Names.{AreNamesFor};
ghost use Rattle.cs_share.specs.ReadBack.{IsReadBack};

/// A machine has one emission under the same names.
pub fn emissions_are_one()
    ensures { (g : Graph) (names : Names) (one other : Document) → IsEmission g names one → IsEmission g names other
        → one ≡ other }
{}

/// The emission of a machine under names that fit it is read again from its printed text, and has a netlist: this has the
/// data ports of the names, its bits have an order, and from its start it answers rows with just what the machine answers.
pub fn emissions_are_read_back()
    ensures { (g : Graph) (names : Names) (document : Document) → IsMachine g → AreNamesFor g names
        → IsEmission g names document → IsReadBack g names document }
{}
