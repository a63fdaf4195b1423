// The command `sim`.
ghost use Rattle.std.specs.Prelude.{IfOk, length};
ghost use Rattle.cs_net.specs.Drivers.{data_inputs};
ghost use Rattle.cs_run.specs.Reasons.{Answers};
ghost use Rattle.cs_run.specs.Rows.{AreRowsOf};
ghost use Rattle.cs_run.specs.Sim.{AnswersSim, HasNoStimulus, PutsAnswer};

use crate::netlists::read_netlist;
use crate::reply::{Reply, putting};
use crate::rows::read_rows;
use crate::stop::Stop;
use cs_net::Netlist;
use cs_sim::respond;
use cs_stream::{Stimulus, print_response};
use std::alloc::{AllocError, Global};

/// The answer of `sim` to the bytes of NET and of STIM: the rows that the netlist answers from its own start.
pub fn answer_sim(alloc: Global, bytes: &[u8], stim: &[u8]) -> Result<Reply, Stop>
    ensures { AnswersSim bytes.now stim.now result }
{
    let net = read_netlist(alloc, bytes)?;
    answer_stimulus(alloc, &net, stim)
}

/// The rows that a netlist answers, from its own start, to those that the bytes of STIM say.
pub(crate) fn answer_stimulus(alloc: Global, net: &Netlist, stim: &[u8]) -> Result<Reply, Stop>
    ensures { Answers (PutsAnswer net.now stim.now) (HasNoStimulus net.now stim.now) result }
{
    let rows = read_rows(alloc, stim, net.input_count())?;
    Ok(put_response(alloc, net, stim, &rows)?)
}

fn put_response(
    alloc: Global,
    net: &Netlist,
    stim: &[u8],
    rows: &Stimulus,
) -> Result<Reply, AllocError>
    requires { AreRowsOf (length (data_inputs net.now)) stim.now rows.now }
    ensures { IfOk result (PutsAnswer net.now stim.now) }
{
    let _ = stim;
    let answer = respond(alloc, net, rows)?;
    let text = print_response(alloc, &answer)?;
    putting(alloc, text)
}
