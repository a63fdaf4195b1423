// The commands `help` and `version`.
ghost use Rattle.std.specs.Prelude.{◌≡◌};
ghost use Rattle.cs_run.specs.Reasons.{Answers};
ghost use Rattle.cs_run.specs.Replies.{putting};

use crate::reply::{Reply, putting};
use crate::stop::Stop;
use std::alloc::Global;

/// The answer of a command that puts a text of the program's own, and reads nothing.
pub(crate) fn answer_own(alloc: Global, text: &[u8]) -> Result<Reply, Stop>
    ensures { Answers (λ reply. reply ≡ putting text.now) (λ _. ⊥) result }
{
    let text = Vec::from_slice(alloc, text)?;
    Ok(putting(alloc, text)?)
}
