// Laws of banking. Each is a function without effect, whose clauses are the law.
ghost use Rattle.std.specs.Prelude.{ℕ, List, Option};
ghost use Rattle.cs_graph.specs.declared.graph.Graph.{Graph};
ghost use Rattle.cs_graph.specs.Invariant.{IsMachine};
ghost use Rattle.cs_graph.specs.Slow.{slow};
ghost use Rattle.cs_net.specs.Contexts.{Image};
ghost use Rattle.cs_bank.specs.Alone.{AnswersEachAlone};
ghost use Rattle.cs_bank.specs.Bank.{CanBank, bank};

/// What a machine answers that is slowed and banked, the machine alone answers to each context, where its memories start
/// as those of that context and drop writes from their size on.
pub fn contexts_in_banks()
    ensures { (g : Graph) (c : ℕ) (entries : List (Option (List Image))) → IsMachine g → CanBank c entries (slow c g)
        → AnswersEachAlone c entries g (bank c entries (slow c g)) }
{}
