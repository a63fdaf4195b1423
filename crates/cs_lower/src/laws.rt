// Laws of the graph of a netlist. Each is a function without effect, whose clauses are the law.
ghost use Rattle.cs_graph.specs.Invariant.{IsWellFormed};
ghost use Rattle.cs_lower.specs.Alike.{AnswersAlike};
ghost use Rattle.cs_lower.specs.Lowered.{lowered};

use cs_net::Netlist;

/// From its own start a netlist answers rows exactly what the bounded run of its graph over these rows has for its
/// outputs. The graph is well-formed, so it has one such run.
pub fn keeps_answers(net: &Netlist)
    ensures well_formed { IsWellFormed (lowered net.now) }
    ensures alike { AnswersAlike net.now (lowered net.now) }
{
    net.keeps();
}
