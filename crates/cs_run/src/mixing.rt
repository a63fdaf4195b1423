// The command `mix`.
ghost use Rattle.std.specs.Prelude.{◌≡◌, ◌⊎◌, ◌≤◌, IfErr, IfOk, Some, length};
ghost use Rattle.cs_stream.specs.declared.error.StimError.TheVariants.{NoMemory};
ghost use Rattle.cs_run.specs.Inputs.{AreFew, all_bytes};
ghost use Rattle.cs_run.specs.Mix.{AnswersMix, IsMixOf, MakesMix, MixesGiveBack, first_width, mix_fault, stream_fault};
ghost use Rattle.cs_run.specs.Rows.{AreRowsOfStreams};

use crate::inputs::Input;
use crate::reply::{Reply, unwritten_line, writing};
use crate::stop::{Stop, rows_fault, stop_at};
use cs_base::Sequence;
use cs_stream::{
    StimError, Stimulus, mix, print_response, printed_reads_back, read_stimulus, width_of,
};
use cs_words::MixWords;
use std::alloc::{AllocError, Global};

/// The answer of `mix` to the bytes of its streams: their rows in turn, which are as wide as the first line of the first
/// stream. All memory for what is written and for the line of a failed write is taken here.
pub fn answer_mix(alloc: Global, words: &MixWords, streams: &[Input]) -> Result<Reply, Stop>
    requires some { 1 ≤ length streams.now }
    requires most { length streams.now ≤ 16 }
    requires few { AreFew (all_bytes streams.now) }
    ensures { AnswersMix words.now (all_bytes streams.now) result }
{
    match mix_streams(alloc, streams) {
        Ok(rows) => Ok(write_mixed(alloc, words, streams, &rows)?),
        Err(error) => Err(stop_at(alloc, rows_fault(error))),
    }
}

// The width of the first stream.
fn first_width(streams: &[Input]) -> usize
    ensures { result ≡ first_width (all_bytes streams.now) }
{
    match streams {
        [first, ..] => width_of(first.bytes.as_slice()),
        [] => 0,
    }
}

fn read_streams(
    alloc: Global,
    streams: &[Input],
    width: usize,
) -> Result<Sequence<Stimulus>, StimError>
    ensures ok { IfOk result (AreRowsOfStreams width (all_bytes streams.now)) }
    ensures err { IfErr result (λ e. (e ≡ NoMemory) ⊎ (stream_fault width (all_bytes streams.now) ≡ Some e)) }
{
    let mut rows = Sequence::new(alloc);
    for stream in streams {
        rows.push(read_stimulus(alloc, stream.bytes.as_slice(), width)?)?;
    }
    Ok(rows)
}

fn mix_streams(alloc: Global, streams: &[Input]) -> Result<Stimulus, StimError>
    requires some { 1 ≤ length streams.now }
    requires most { length streams.now ≤ 16 }
    requires few { AreFew (all_bytes streams.now) }
    ensures ok { IfOk result (IsMixOf (all_bytes streams.now)) }
    ensures err { IfErr result (λ e. (e ≡ NoMemory) ⊎ (mix_fault (all_bytes streams.now) ≡ Some e)) }
{
    let rows = read_streams(alloc, streams, first_width(streams))?;
    mix(alloc, rows.as_slice())
}

fn write_mixed(
    alloc: Global,
    words: &MixWords,
    streams: &[Input],
    rows: &Stimulus,
) -> Result<Reply, AllocError>
    requires { IsMixOf (all_bytes streams.now) rows.now }
    ensures { IfOk result (λ reply. MakesMix words.now (all_bytes streams.now) reply × MixesGiveBack (all_bytes streams.now)) }
{
    let _ = streams;
    printed_reads_back(rows);
    let text = print_response(alloc, rows)?;
    let line = unwritten_line(alloc, &words.output)?;
    writing(alloc, &words.output, text, line)
}
