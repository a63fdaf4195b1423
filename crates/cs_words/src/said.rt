// What the words of each command say, by the matches that its form finds.
ghost use Rattle.std.specs.Prelude.{◌≡◌, ◌⊎◌, ◌<◌, IfOk, codes, map};
ghost use Rattle.clap.specs.Words.{first_of, found_of, rows_of};
ghost use Rattle.cs_words.specs.Commands.{IsWithin, Reads, below, context_at, contexts_at, number_at, said_of, text_at, texts_at};
ghost use Rattle.cs_words.specs.declared.read.WordError.TheVariants.{BadNumber, NoMemory};

use crate::command::{
    Command, MixWords, PartWords, SimContextWords, SimWords, SlowWords, UpgradeWords,
};
use crate::number::{contexts_of, number_of};
use crate::read::WordError;
use crate::verb::Verb;
use clap::ArgMatches;
use cs_base::{Contexts, Sequence, Text};
use std::alloc::{AllocError, Global};

const MOST_STREAMS: usize = 16;

/// The command that the matches of its form say.
pub(crate) fn said_of(
    alloc: Global,
    verb: Verb,
    matches: &ArgMatches<'_>,
) -> Result<Command, WordError>
    ensures said { Reads (said_of verb (rows_of (found_of matches.now))) result }
    ensures within { IfOk result IsWithin }
{
    match verb {
        Verb::Slow => said_by_slow(alloc, matches),
        Verb::Sim => said_by_sim(alloc, matches),
        Verb::SimContext => said_by_sim_context(alloc, matches),
        Verb::Mix => said_by_mix(alloc, matches),
        Verb::Part => said_by_part(alloc, matches),
        Verb::Upgrade => said_by_upgrade(alloc, matches),
        Verb::Help => Ok(Command::Help),
        Verb::Version => Ok(Command::Version),
    }
}

// C is from 1 to 16, and OUT and CERT are different words.
fn said_by_slow(alloc: Global, matches: &ArgMatches<'_>) -> Result<Command, WordError>
    ensures said { Reads (said_of Verb.Slow (rows_of (found_of matches.now))) result }
    ensures within { IfOk result IsWithin }
{
    let contexts = contexts_at(alloc, matches, "-c")?;
    if text_at(matches, "OUT") == text_at(matches, "CERT") {
        return Err(WordError::SameName);
    }
    Ok(Command::Slow(slow_words(alloc, matches, contexts)?))
}

fn slow_words(
    alloc: Global,
    matches: &ArgMatches<'_>,
    contexts: Contexts,
) -> Result<SlowWords, AllocError>
    ensures { let rows = rows_of (found_of matches.now) in IfOk result (λ words. words ≡ record {
      input = text_at rows (codes "IN");
      output = text_at rows (codes "OUT");
      cert = text_at rows (codes "CERT");
      delays = text_at rows (codes "DELAYS");
      contexts = contexts;
      images = first_of (codes "images") rows;
    }) }
{
    Ok(SlowWords {
        input: Text::from_str(alloc, text_at(matches, "IN"))?,
        output: Text::from_str(alloc, text_at(matches, "OUT"))?,
        cert: Text::from_str(alloc, text_at(matches, "CERT"))?,
        delays: Text::from_str(alloc, text_at(matches, "DELAYS"))?,
        contexts,
        images: given_at(alloc, matches, "images")?,
    })
}

fn said_by_sim(alloc: Global, matches: &ArgMatches<'_>) -> Result<Command, WordError>
    ensures said { Reads (said_of Verb.Sim (rows_of (found_of matches.now))) result }
    ensures within { IfOk result IsWithin }
{
    Ok(Command::Sim(SimWords {
        net: Text::from_str(alloc, text_at(matches, "NET"))?,
        stim: Text::from_str(alloc, text_at(matches, "STIM"))?,
    }))
}

// C is from 1 to 16, and K is below it.
fn said_by_sim_context(alloc: Global, matches: &ArgMatches<'_>) -> Result<Command, WordError>
    ensures said { Reads (said_of Verb.SimContext (rows_of (found_of matches.now))) result }
    ensures within { IfOk result IsWithin }
{
    let (k, contexts) = context_at(alloc, matches)?;
    Ok(Command::SimContext(SimContextWords {
        net: Text::from_str(alloc, text_at(matches, "NET"))?,
        stim: Text::from_str(alloc, text_at(matches, "STIM"))?,
        images: Text::from_str(alloc, text_at(matches, "IMAGES"))?,
        k,
        contexts,
    }))
}

// There are 1 to 16 streams.
fn said_by_mix(alloc: Global, matches: &ArgMatches<'_>) -> Result<Command, WordError>
    ensures said { Reads (said_of Verb.Mix (rows_of (found_of matches.now))) result }
    ensures within { IfOk result IsWithin }
{
    let streams = texts_at(alloc, matches, "STREAMS")?;
    if streams.is_empty() || streams.len() > MOST_STREAMS {
        return Err(no_number(alloc, "streams"));
    }
    let output = Text::from_str(alloc, text_at(matches, "OUT"))?;
    Ok(Command::Mix(MixWords { output, streams }))
}

// C is from 1 to 16, and K is below it.
fn said_by_part(alloc: Global, matches: &ArgMatches<'_>) -> Result<Command, WordError>
    ensures said { Reads (said_of Verb.Part (rows_of (found_of matches.now))) result }
    ensures within { IfOk result IsWithin }
{
    let (k, contexts) = context_at(alloc, matches)?;
    let file = Text::from_str(alloc, text_at(matches, "FILE"))?;
    Ok(Command::Part(PartWords { k, contexts, file }))
}

fn said_by_upgrade(alloc: Global, matches: &ArgMatches<'_>) -> Result<Command, WordError>
    ensures said { Reads (said_of Verb.Upgrade (rows_of (found_of matches.now))) result }
    ensures within { IfOk result IsWithin }
{
    Ok(Command::Upgrade(UpgradeWords {
        old: Text::from_str(alloc, text_at(matches, "OLD"))?,
        new: Text::from_str(alloc, text_at(matches, "NEW"))?,
    }))
}

// ---- places

// The text of a name, which is there where the form takes the words and the name is required.
#[tactic(auto, using(crate::proofs::MatchLemmas::first_text))]
fn text_at<'a>(matches: &ArgMatches<'a>, name: &str) -> &'a str
    ensures { result.now ≡ text_at (rows_of (found_of matches.now)) name.now }
{
    matches.get_str(name).unwrap_or("")
}

// The text of a name that may be left out.
#[tactic(auto, using(crate::proofs::MatchLemmas::first_text))]
fn given_at(alloc: Global, matches: &ArgMatches<'_>, name: &str) -> Result<Option<Text>, AllocError>
    ensures { IfOk result (λ text. text ≡ first_of name.now (rows_of (found_of matches.now))) }
{
    match matches.get_str(name) {
        Some(text) => Ok(Some(Text::from_str(alloc, text)?)),
        None => Ok(None),
    }
}

// All texts of a name.
#[tactic(auto, using(crate::proofs::MatchLemmas::every_text))]
fn texts_at(
    alloc: Global,
    matches: &ArgMatches<'_>,
    name: &str,
) -> Result<Sequence<Text>, AllocError>
    ensures { IfOk result (λ texts. texts ≡ texts_at (rows_of (found_of matches.now)) name.now) }
{
    match matches.get_strs(name) {
        Some(words) => copied(alloc, words),
        None => Ok(Sequence::new(alloc)),
    }
}

fn copied(alloc: Global, words: &[&str]) -> Result<Sequence<Text>, AllocError>
    ensures { IfOk result (λ texts. texts ≡ map (λ word. word.now) words.now) }
{
    let mut texts = Sequence::new(alloc);
    for word in words {
        texts.push(Text::from_str(alloc, word)?)?;
    }
    Ok(texts)
}

fn contexts_at(alloc: Global, matches: &ArgMatches<'_>, name: &str) -> Result<Contexts, WordError>
    ensures { Reads (contexts_at (rows_of (found_of matches.now)) name.now) result }
{
    match contexts_of(text_at(matches, name).as_bytes()) {
        Some(contexts) => Ok(contexts),
        None => Err(no_number(alloc, name)),
    }
}

fn number_at(alloc: Global, matches: &ArgMatches<'_>, name: &str) -> Result<u128, WordError>
    ensures { Reads (number_at (rows_of (found_of matches.now)) name.now) result }
{
    match number_of(text_at(matches, name).as_bytes()) {
        Some(number) => Ok(number),
        None => Err(no_number(alloc, name)),
    }
}

// The place K, and the number of contexts C, which it is below.
fn context_at(alloc: Global, matches: &ArgMatches<'_>) -> Result<(u32, Contexts), WordError>
    ensures said { Reads (context_at (rows_of (found_of matches.now))) result }
    ensures below { IfOk result (λ context. context.0 < context.1) }
{
    let k = number_at(alloc, matches, "K")?;
    let contexts = contexts_at(alloc, matches, "C")?;
    below(alloc, k, contexts)
}

fn below(alloc: Global, k: u128, contexts: Contexts) -> Result<(u32, Contexts), WordError>
    ensures said { Reads (below k contexts) result }
    ensures below { IfOk result (λ context. context.0 < context.1) }
{
    if k < u128::from(contexts.get()) {
        Ok((k as u32, contexts))
    } else {
        Err(no_number(alloc, "K"))
    }
}

// The word of this name is no number that is wanted there.
fn no_number(alloc: Global, name: &str) -> WordError
    ensures { (result ≡ NoMemory) ⊎ (result ≡ BadNumber name.now) }
{
    match Text::from_str(alloc, name) {
        Ok(name) => WordError::BadNumber { name },
        Err(AllocError) => WordError::NoMemory,
    }
}
