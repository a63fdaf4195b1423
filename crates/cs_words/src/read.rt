// Reads the words after the program's name.
ghost use Rattle.std.specs.Prelude.{◌≡◌, ◌≢◌, ◌⊎◌, [], IfErr, IfOk};
ghost use Rattle.clap.specs.Words.{fault_of, found_of, matches_of, rows_of};
ghost use Rattle.cs_words.specs.Commands.{AreNamed, HasTexts, IsWithin, Reads, command_of, said_by, texts};
ghost use Rattle.cs_words.specs.Forms.{form_of};
ghost use Rattle.cs_words.specs.declared.read.WordError.TheVariants.{BadWords, NoMemory};

use crate::command::Command;
use crate::forms::form_of;
use crate::said::said_of;
use crate::verb::Verb;
use clap::ArgMatches;
use clap::error::ErrorKind;
use cs_base::Text;
use std::alloc::{AllocError, Global};

/// Why the words are no command, in the order in which the causes are looked for.
#[derive(Debug, Drop)]
pub enum WordError {
    /// There is no first word, or it names no command.
    NoCommand,
    /// The words behind this first word have another form than its command's.
    BadWords { command: Text },
    /// The word of this name in the command's form is no number that is wanted there.
    BadNumber { name: Text },
    /// OUT and CERT of `slow` are the same word.
    SameName,
    NoMemory,
}

impl From<AllocError> for WordError {
    ghost from_gives = { λ _ e. e ≡ NoMemory };

    fn from(_: AllocError) -> Self {
        WordError::NoMemory
    }
}

/// The command that the words say. The refusals come in this order, each where no earlier one does:
/// - `NoCommand` where there is no first word, or it names none of `slow`, `sim`, `sim-context`, `mix`,
///   `part`, `upgrade`, `help` (or `--help` or `-h`) and `version` (or `--version` or `-V`);
/// - `BadWords`, with the first word as it stands, where the `clap` command of the first word refuses the
///   others: those of `slow` are `IN OUT CERT DELAYS -c C` and perhaps `--images IMAGES`, of `sim` `NET STIM`, of
///   `sim-context` `NET STIM IMAGES K C`, of `mix` OUT and any number of streams, of `part` `K C FILE`, of `upgrade`
///   `OLD NEW`, and `help` and `version` have none;
/// - `BadNumber`, with the first such name in that order, where C (named `-c` for `slow`) is no number from 1
///   to 16, where K is no number or, C being one, not below it, or where `mix` has not 1 to 16 `streams`; a
///   number is 1 to 20 decimal digits;
/// - `SameName` where OUT and CERT of `slow` are the same word.
///
/// In the words of a command each name has a text (`named`).
pub fn read_words(alloc: Global, words: &[String]) -> Result<Command, WordError>
    ensures said { Reads (command_of (texts words.now)) result }
    ensures within { IfOk result IsWithin }
    ensures named { IfOk result (λ _. AreNamed (texts words.now)) }
{
    let [name, ..] = words else {
        return Err(WordError::NoCommand);
    };
    match Verb::of(name.as_str()) {
        Some(verb) => read_form(alloc, verb, name.as_str(), words),
        None => Err(WordError::NoCommand),
    }
}

// The command of the words of a form, the first of which is this name.
fn read_form(alloc: Global, verb: Verb, name: &str, words: &[String]) -> Result<Command, WordError>
    ensures said { Reads (said_by verb name.now (texts words.now)) result }
    ensures within { IfOk result IsWithin }
    ensures named { IfOk result (λ _.
        HasTexts (form_of verb).top.rules (matches_of (form_of verb) (texts words.now))) }
{
    let matches = matched(alloc, verb, name, words)?;
    said_of(alloc, verb, &matches)
}

// The matches of words that a form takes.
fn matched<'a>(
    alloc: Global,
    verb: Verb,
    name: &str,
    words: &'a [String],
) -> Result<ArgMatches<'a>, WordError>
    ensures taken { IfOk result (λ _. fault_of (form_of verb) (texts words.now) ≡ []) }
    ensures rows { IfOk result (λ matches.
        rows_of (found_of matches) ≡ matches_of (form_of verb) (texts words.now)) }
    ensures named { IfOk result (λ matches.
        HasTexts (form_of verb).top.rules (rows_of (found_of matches))) }
    ensures err { IfErr result (λ e. (e ≡ NoMemory)
        ⊎ ((e ≡ BadWords name.now) × (fault_of (form_of verb) (texts words.now) ≢ []))) }
{
    let form = form_of(alloc, verb)?;
    match form.try_get_matches_from(words) {
        Ok(matches) => Ok(matches),
        Err(error) if error.kind() == ErrorKind::OutOfMemory => Err(WordError::NoMemory),
        Err(_) => Err(bad_words(alloc, name)),
    }
}

// The words behind this first word have another form.
fn bad_words(alloc: Global, name: &str) -> WordError
    ensures { (result ≡ NoMemory) ⊎ (result ≡ BadWords name.now) }
{
    match Text::from_str(alloc, name) {
        Ok(command) => WordError::BadWords { command },
        Err(AllocError) => WordError::NoMemory,
    }
}
