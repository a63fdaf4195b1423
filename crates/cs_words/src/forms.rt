// The form of each command's words: a `clap` command, which takes the words or refuses them.
ghost use Rattle.std.specs.Prelude.{◌≡◌, false, map, IfOk};
ghost use Rattle.clap.specs.Words.{app_of, rule_of};
ghost use Rattle.cs_words.specs.Forms.{all_named, form, form_of, long_option, mix_form, named, option, part_form, sim_context_form, sim_form, slow_form, upgrade_form};

use crate::verb::Verb;
use clap::{Arg, ArgAction, Command};
use std::alloc::{AllocError, Global};

/// The `clap` command of a first word.
pub(crate) fn form_of<'a>(alloc: Global, verb: Verb) -> Result<Command<'a>, AllocError>
    ensures { IfOk result (λ form. app_of form ≡ form_of verb) }
{
    match verb {
        Verb::Slow => slow_form(alloc),
        Verb::Sim => sim_form(alloc),
        Verb::SimContext => sim_context_form(alloc),
        Verb::Mix => mix_form(alloc),
        Verb::Part => part_form(alloc),
        Verb::Upgrade => upgrade_form(alloc),
        Verb::Help => named_form(alloc, "help", &[]),
        Verb::Version => named_form(alloc, "version", &[]),
    }
}

fn slow_form<'a>(alloc: Global) -> Result<Command<'a>, AllocError>
    ensures { IfOk result (λ form. app_of form ≡ slow_form) }
{
    named_form(alloc, "slow", &["IN", "OUT", "CERT", "DELAYS"])?
        .arg(option(alloc, "-c", 'c'))?
        .arg(long_option(alloc, "images"))
}

fn sim_form<'a>(alloc: Global) -> Result<Command<'a>, AllocError>
    ensures { IfOk result (λ form. app_of form ≡ sim_form) }
{
    named_form(alloc, "sim", &["NET", "STIM"])
}

fn sim_context_form<'a>(alloc: Global) -> Result<Command<'a>, AllocError>
    ensures { IfOk result (λ form. app_of form ≡ sim_context_form) }
{
    named_form(alloc, "sim-context", &["NET", "STIM", "IMAGES", "K", "C"])
}

fn mix_form<'a>(alloc: Global) -> Result<Command<'a>, AllocError>
    ensures { IfOk result (λ form. app_of form ≡ mix_form) }
{
    named_form(alloc, "mix", &["OUT"])?.arg(all_named(alloc, "STREAMS"))
}

fn part_form<'a>(alloc: Global) -> Result<Command<'a>, AllocError>
    ensures { IfOk result (λ form. app_of form ≡ part_form) }
{
    named_form(alloc, "part", &["K", "C", "FILE"])
}

fn upgrade_form<'a>(alloc: Global) -> Result<Command<'a>, AllocError>
    ensures { IfOk result (λ form. app_of form ≡ upgrade_form) }
{
    named_form(alloc, "upgrade", &["OLD", "NEW"])
}

// The command with these names and numbers in their places.
fn named_form<'a>(
    alloc: Global,
    name: &'a str,
    places: &[&'a str],
) -> Result<Command<'a>, AllocError>
    ensures { IfOk result (λ made.
        app_of made ≡ form name.entry.now (map (λ place. named place.now) places.now)) }
{
    let mut form = Command::new(alloc, name);
    for place in places {
        form = form.arg(named(alloc, place))?;
    }
    Ok(form)
}

// A name or a number in its place.
fn named<'a>(alloc: Global, name: &'a str) -> Arg<'a>
    ensures rule { rule_of result ≡ named name.entry.now }
    ensures local { result.global ≡ false }
{
    Arg::new(alloc, name).action(ArgAction::Set).required(true)
}

// Any number of names at the end.
fn all_named<'a>(alloc: Global, name: &'a str) -> Arg<'a>
    ensures rule { rule_of result ≡ all_named name.entry.now }
    ensures local { result.global ≡ false }
{
    Arg::new(alloc, name).num_args(0..)
}

// An option that must be given, with one text behind its letter.
fn option<'a>(alloc: Global, name: &'a str, letter: char) -> Arg<'a>
    ensures rule { rule_of result ≡ option name.entry.now letter }
    ensures local { result.global ≡ false }
{
    named(alloc, name).short(letter)
}

// An option that may be given, with one text behind its long name.
fn long_option<'a>(alloc: Global, name: &'a str) -> Arg<'a>
    ensures rule { rule_of result ≡ long_option name.entry.now }
    ensures local { result.global ≡ false }
{
    Arg::new(alloc, name).action(ArgAction::Set).long(name)
}
