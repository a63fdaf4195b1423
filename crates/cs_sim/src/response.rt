// What a netlist answers to a stimulus.
ghost use Rattle.std.specs.Prelude.{◌≡◌, ◌++◌, IfOk, List, OnOk, length};
ghost use Rattle.cs_net.specs.Drivers.{data_inputs, data_outputs, own_start};
ghost use Rattle.cs_net.specs.Netlist.{state_of};
ghost use Rattle.cs_net.specs.Trace.{Answers, IsStep, Row};
ghost use Rattle.cs_stream.specs.Rows.{rows_of};

use crate::simulator::Sim;
use cs_base::Sequence;
use cs_net::Netlist;
use cs_stream::Stimulus;
use std::alloc::{AllocError, Global};

// Goes through one clock, and puts its answer behind the bits so far.
fn answer_row(
    sim: &mut Sim,
    row: &[bool],
    output: &mut [bool],
    bits: &mut Vec<bool>,
) -> Result<(), AllocError>
    requires inputs { length row.now ≡ length (data_inputs sim.old.net) }
    requires outputs { length output.old ≡ length (data_outputs sim.old.net) }
    ensures net { sim.new.net ≡ sim.old.net }
    ensures step { IsStep sim.old.net sim.old.state sim.new.state row.now output.new }
    ensures bits { OnOk result (bits.new.items ≡ bits.old.items ++ output.new) }
{
    sim.step(row, output);
    bits.extend_from_slice(output)?;
    Ok(())
}

// Goes through the clocks of a stimulus, and gives the row of each.
fn answer_rows(
    alloc: Global,
    sim: &mut Sim,
    stimulus: &Stimulus,
    width: usize,
) -> Result<Stimulus, AllocError>
    requires inputs { stimulus.now.width ≡ length (data_inputs sim.old.net) }
    requires outputs { width ≡ length (data_outputs sim.old.net) }
    requires start { sim.old.state ≡ own_start sim.old.net }
    ensures width { IfOk result (λ response. response.width ≡ width) }
    ensures answers { IfOk result (λ response. Answers sim.old.net (state_of (own_start sim.old.net))
        (rows_of stimulus.now) (rows_of response)) }
{
    let mut output = vec![in alloc; false; width]?;
    let mut bits = Vec::new(alloc);
    for place in 0..stimulus.count {
        answer_row(sim, stimulus.row(place), output.as_mut_slice(), &mut bits)?;
    }
    Ok(Stimulus {
        width,
        count: stimulus.count,
        bits: Sequence::from_vec(bits),
    })
}

/// The one answer of a netlist to a stimulus, from its own start: a row of data output bits for each row of data input
/// bits. It errs only where memory runs out.
pub fn respond(alloc: Global, net: &Netlist, stimulus: &Stimulus) -> Result<Stimulus, AllocError>
    requires { stimulus.now.width ≡ length (data_inputs net.now) }
    ensures width { IfOk result (λ response. response.width ≡ length (data_outputs net.now)) }
    ensures answers { IfOk result (λ response.
        Answers net.now (state_of (own_start net.now)) (rows_of stimulus.now) (rows_of response)) }
    ensures only { IfOk result (λ response. (other : List Row)
        → Answers net.now (state_of (own_start net.now)) (rows_of stimulus.now) other → other ≡ rows_of response) }
{
    net.keeps();
    let mut sim = Sim::new(alloc, net)?;
    answer_rows(alloc, &mut sim, stimulus, net.output_count())
}
