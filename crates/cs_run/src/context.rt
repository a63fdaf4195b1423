// The command `sim-context`.
ghost use Rattle.std.specs.Prelude.{◌<◌, IfErr, IfOk};
ghost use Rattle.cs_run.specs.Reasons.{Answers, StopsFor};
ghost use Rattle.cs_run.specs.SimContext.{AnswersSimContext, IsOfContext, PutsContext, RefusesContext};
ghost use Rattle.cs_run.specs.Starts.{SaysNoImages};

use crate::netlists::read_netlist;
use crate::reply::Reply;
use crate::simulation::answer_stimulus;
use crate::starts::read_starts;
use crate::stop::Stop;
use cs_net::Netlist;
use cs_words::SimContextWords;
use std::alloc::Global;

/// The answer of `sim-context` to the bytes of NET, of STIM and of IMAGES: the rows that the netlist answers from the start
/// of context K.
pub fn answer_sim_context(
    alloc: Global,
    words: &SimContextWords,
    bytes: &[u8],
    stim: &[u8],
    images: &[u8],
) -> Result<Reply, Stop>
    requires { words.now.k < words.now.contexts }
    ensures { AnswersSimContext words.now bytes.now stim.now images.now result }
{
    let net = read_netlist(alloc, bytes)?;
    answer_images(alloc, words, &net, stim, images)
}

fn answer_images(
    alloc: Global,
    words: &SimContextWords,
    net: &Netlist,
    stim: &[u8],
    images: &[u8],
) -> Result<Reply, Stop>
    requires { words.now.k < words.now.contexts }
    ensures { Answers (PutsContext words.now net.now stim.now images.now)
        (RefusesContext words.now net.now stim.now images.now) result }
{
    let own = net_of_context(alloc, words, net, images)?;
    answer_stimulus(alloc, &own, stim)
}

// The netlist with the starts of context K; bytes that say no images of it end the command.
fn net_of_context(
    alloc: Global,
    words: &SimContextWords,
    net: &Netlist,
    images: &[u8],
) -> Result<Netlist, Stop>
    requires { words.now.k < words.now.contexts }
    ensures ok { IfOk result (IsOfContext words.now net.now images.now) }
    ensures err { IfErr result (StopsFor (SaysNoImages words.now.contexts net.now images.now)) }
{
    let starts = read_starts(alloc, net, words.contexts, images)?;
    Ok(net.with_images(alloc, &starts, words.k)?)
}
