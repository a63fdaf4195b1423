// The command `slow`.
ghost use Rattle.std.specs.Option.{option_copied};
ghost use Rattle.cs_net.specs.Contexts.{AreImagesFor};
ghost use Rattle.cs_run.specs.Reasons.{Answers};
ghost use Rattle.cs_run.specs.Slow.{AnswersNet, AnswersSlow, ExceedsLimit, RefusesNet, WritesSlowed};

use crate::netlists::read_netlist;
use crate::reply::{Reply, writing};
use crate::starts::starts_by;
use crate::stop::{Stop, machine_fault, stop_at};
use cs_isolate::slowed_document;
use cs_json::print_document;
use cs_net::{Images, Netlist};
use cs_words::SlowWords;
use std::alloc::Global;

/// The answer of `slow` to the bytes of IN and, where it is named, of IMAGES: the netlist for several contexts.
pub fn answer_slow(
    alloc: Global,
    words: &SlowWords,
    bytes: &[u8],
    images: Option<&[u8]>,
) -> Result<Reply, Stop>
    ensures { AnswersSlow words.now bytes.now (option_copied images.entry) result }
{
    let net = read_netlist(alloc, bytes)?;
    answer_netlist(alloc, words, &net, images)
}

fn answer_netlist(
    alloc: Global,
    words: &SlowWords,
    net: &Netlist,
    images: Option<&[u8]>,
) -> Result<Reply, Stop>
    ensures { Answers (AnswersNet words.now net.now (option_copied images.entry))
        (RefusesNet words.now.contexts net.now (option_copied images.entry)) result }
{
    let starts = starts_by(alloc, net, words.contexts, images)?;
    write_slowed(alloc, words, net, &starts)
}

// A failed write of OUT puts nothing.
fn write_slowed(
    alloc: Global,
    words: &SlowWords,
    net: &Netlist,
    starts: &Images,
) -> Result<Reply, Stop>
    requires { AreImagesFor net.now words.now.contexts starts.now }
    ensures { Answers (WritesSlowed words.now net.now starts.now)
        (ExceedsLimit words.now.contexts net.now starts.now) result }
{
    match slowed_document(alloc, net, words.contexts, starts) {
        Ok(document) => {
            let text = print_document(alloc, &document)?;
            Ok(writing(alloc, &words.output, text, Vec::new(alloc))?)
        }
        Err(error) => Err(stop_at(alloc, machine_fault(error))),
    }
}
