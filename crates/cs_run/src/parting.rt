// The command `part`.
ghost use Rattle.std.specs.Prelude.{◌<◌, IfOk};
ghost use Rattle.cs_run.specs.Part.{AnswersPart, MakesPart, own_width};
ghost use Rattle.cs_run.specs.Rows.{AreRowsOf};

use crate::reply::{Reply, putting};
use crate::rows::read_rows;
use crate::stop::Stop;
use cs_stream::{Stimulus, part, print_response, width_of};
use cs_words::PartWords;
use std::alloc::{AllocError, Global};

/// The answer of `part` to the bytes of its file: the rows of one context, which are as wide as the first line.
pub fn answer_part(alloc: Global, words: &PartWords, bytes: &[u8]) -> Result<Reply, Stop>
    requires { words.now.k < words.now.contexts }
    ensures { AnswersPart words.now bytes.now result }
{
    let rows = read_rows(alloc, bytes, width_of(bytes))?;
    Ok(put_part(alloc, words, bytes, &rows)?)
}

fn put_part(
    alloc: Global,
    words: &PartWords,
    bytes: &[u8],
    rows: &Stimulus,
) -> Result<Reply, AllocError>
    requires within { words.now.k < words.now.contexts }
    requires rows { AreRowsOf (own_width bytes.now) bytes.now rows.now }
    ensures { IfOk result (MakesPart words.now bytes.now) }
{
    let _ = bytes;
    let own = part(alloc, words.k, words.contexts, rows)?;
    let text = print_response(alloc, &own)?;
    putting(alloc, text)
}
