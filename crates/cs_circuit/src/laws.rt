// Laws of the documents of circuits. Each is a function without effect, whose clauses are the law.
ghost use Rattle.std.specs.Prelude.{◌≡◌};
ghost use Rattle.cs_json.specs.declared.document.Document.{Document};
ghost use Rattle.cs_circuit.specs.Documents.{IsCircuitDocument};
ghost use Rattle.cs_circuit.specs.ReadBack.{IsReadBack};
ghost use Rattle.cs_circuit.specs.WellFormed.{IsCircuit};
ghost use Rattle.cs_circuit.specs.declared.circuit.Circuit.{Circuit};

/// A circuit has one document.
pub fn documents_are_one()
    ensures { (k : Circuit) (doc other : Document) → IsCircuitDocument k doc
        → IsCircuitDocument k other → doc ≡ other }
{}

/// The document of a circuit is read again from its printed text, and has a netlist: its ports and clock are those of the
/// circuit, each gate, read port and register drives what it drives there, registers and memories start as they do there,
/// and its bits have an order.
pub fn circuits_are_read_back()
    ensures { (k : Circuit) (doc : Document) → IsCircuit k → IsCircuitDocument k doc → IsReadBack k doc }
{}
