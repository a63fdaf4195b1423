// What words say, and how they are refused.
use crate::fixtures::{assert_row, keep};
use cs_words::{Command, WordError, read_words};
use std::alloc::Global;
use std::process::Abort;

type Said = Result<Command, WordError>;

// What the words of a line say.
fn read(rt: &impl Abort, alloc: Global, line: &str) -> &'static Said {
    let mut words = Vec::new(alloc);
    for word in line.split(' ') {
        let word = String::from_str(alloc, word).expect(rt, "a word");
        words.push(word).expect(rt, "a word");
    }
    keep(rt, alloc, read_words(alloc, &words))
}

// A command by its name, some of its words in the order of its form, and its numbers: of `mix`, how many streams.
type Row<'a> = (&'static str, [&'a str; 4], [u64; 2]);

fn row_of(command: &Command) -> Row<'_> {
    match command {
        Command::Slow(slow) => (
            "slow",
            [
                slow.input.as_str(),
                slow.output.as_str(),
                slow.cert.as_str(),
                slow.delays.as_str(),
            ],
            [u64::from(slow.contexts.get()), 0],
        ),
        Command::Sim(sim) => ("sim", [sim.net.as_str(), sim.stim.as_str(), "", ""], [0, 0]),
        Command::SimContext(sim) => (
            "sim-context",
            [sim.images.as_str(), "", "", ""],
            [u64::from(sim.k), u64::from(sim.contexts.get())],
        ),
        Command::Mix(mix) => (
            "mix",
            [mix.output.as_str(), "", "", ""],
            [mix.streams.len() as u64, 0],
        ),
        Command::Part(part) => (
            "part",
            [part.file.as_str(), "", "", ""],
            [u64::from(part.k), u64::from(part.contexts.get())],
        ),
        Command::Upgrade(files) => (
            "upgrade",
            [files.old.as_str(), files.new.as_str(), "", ""],
            [0, 0],
        ),
        Command::Help => ("help", ["", "", "", ""], [0, 0]),
        Command::Version => ("version", ["", "", "", ""], [0, 0]),
    }
}

fn is_said(said: &Said, wanted: &Row<'_>) -> bool {
    match said {
        Ok(command) => row_of(command) == *wanted,
        Err(_) => false,
    }
}

fn assert_said(rt: &impl Abort, alloc: Global, rows: &[(&str, Row<'_>)]) {
    for (line, wanted) in rows {
        assert_row(rt, is_said(read(rt, alloc, line), wanted), line);
    }
}

const FILES: [&str; 4] = ["in", "out", "cert", "-d"];

// An option stands anywhere, and its text behind a blank, behind `=` or at its letter. Behind `--` no word is an option.
const SLOW: &[(&str, Row<'static>)] = &[
    ("slow -c 1 -- in out cert -d", ("slow", FILES, [1, 0])),
    ("slow in out -c2 cert -- -d", ("slow", FILES, [2, 0])),
    ("slow in out cert -c=16 -- -d", ("slow", FILES, [16, 0])),
    (
        "slow in -c 00000000000000000016 -- out cert -d",
        ("slow", FILES, [16, 0]),
    ),
];

#[test]
fn words_of_slow(rt: HostRuntime) {
    assert_said(&rt, rt.alloc(), SLOW);
}

const NONE: [&str; 4] = ["", "", "", ""];

const OTHERS: &[(&str, Row<'static>)] = &[
    ("part 015 16 ", ("part", NONE, [15, 16])),
    ("mix out a", ("mix", ["out", "", "", ""], [1, 0])),
    (
        "mix out a b c d e f g h i j k l m n o p",
        ("mix", ["out", "", "", ""], [16, 0]),
    ),
    ("sim - stim", ("sim", ["-", "stim", "", ""], [0, 0])),
    (
        "sim-context net stim images 0 1",
        ("sim-context", ["images", "", "", ""], [0, 1]),
    ),
    ("upgrade a a", ("upgrade", ["a", "a", "", ""], [0, 0])),
    ("help", ("help", NONE, [0, 0])),
    ("--help", ("help", NONE, [0, 0])),
    ("-h", ("help", NONE, [0, 0])),
    ("help --", ("help", NONE, [0, 0])),
    ("version", ("version", NONE, [0, 0])),
    ("--version", ("version", NONE, [0, 0])),
    ("-V", ("version", NONE, [0, 0])),
];

#[test]
fn words_of_others(rt: HostRuntime) {
    assert_said(&rt, rt.alloc(), OTHERS);
}

// A refusal, and the command or the number that it names.
fn refusal(said: &Said) -> (&'static str, &str) {
    match said {
        Err(WordError::NoCommand) => ("no command", ""),
        Err(WordError::BadWords { command }) => ("bad words", command.as_str()),
        Err(WordError::BadNumber { name }) => ("bad number", name.as_str()),
        Err(WordError::SameName) => ("same name", ""),
        _ => ("", ""),
    }
}

fn assert_refused(rt: &impl Abort, alloc: Global, wanted: (&str, &str), lines: &[&str]) {
    for line in lines {
        assert_row(rt, refusal(read(rt, alloc, line)) == wanted, line);
    }
}

// What is named, and lines that are refused with it.
type Groups = &'static [(&'static str, &'static [&'static str])];

fn assert_groups(rt: &impl Abort, alloc: Global, kind: &str, groups: Groups) {
    for (name, lines) in groups {
        assert_refused(rt, alloc, (kind, name), lines);
    }
}

const NO_COMMANDS: &[&str] = &[
    "",
    "slo",
    "SIM",
    "sim-",
    "-v",
    "--hel",
    "check a b c d -c 2",
];

#[test]
fn no_such_command(rt: HostRuntime) {
    let alloc = rt.alloc();
    let said = keep(&rt, alloc, read_words(alloc, &[]));
    assert!(rt; refusal(said).0 == "no command");
    assert_refused(&rt, alloc, ("no command", ""), NO_COMMANDS);
}

// Too few words or too many, an option given twice, without its text or unknown; and help behind a command.
const BAD_WORDS: Groups = &[
    (
        "slow",
        &[
            "slow",
            "slow a b",
            "slow a b c d",
            "slow a b c d -c",
            "slow a b c -c 2",
            "slow a b c d e -c 2",
            "slow a b c d -c 2 -c 2",
            "slow a b c d -c2 -c=3",
            "slow a b c d --c 2",
            "slow a b c d -c 0 -x",
            "slow a b b d 2 -c",
            "slow a b c d -c 2 --fallback",
            "slow a b c d -c 2 --lags any",
            "slow a b c d -c 2 --images",
            "slow a b c d -c 2 --images i --images i",
            "slow --help",
            "slow a b c d -c 2 --help",
            "slow -h",
            "slow a b c d -c 2 -V",
            "slow help",
        ],
    ),
    ("sim", &["sim net", "sim net stim more"]),
    ("sim-context", &["sim-context net stim images 0"]),
    ("mix", &["mix"]),
    ("part", &["part -1 2 f", "part 0 1 f g"]),
    ("upgrade", &["upgrade old"]),
    ("help", &["help slow", "help --help"]),
    ("--help", &["--help slow"]),
    ("-h", &["-h -h"]),
    ("version", &["version 1"]),
    ("--version", &["--version --version"]),
    ("-V", &["-V --help"]),
];

#[test]
fn words_refused_by_form(rt: HostRuntime) {
    assert_groups(&rt, rt.alloc(), "bad words", BAD_WORDS);
}

// The first bad number in the order of the form; K is compared with C only where C is in its range. Of `slow` a bad number
// stands before one name.
const BAD_NUMBERS: Groups = &[
    (
        "-c",
        &[
            "slow a b c d -c 0",
            "slow a b b d -c 17",
            "slow a b c d -c x",
            "slow a b c d -c ",
            "slow a b c d -c=",
            "slow a b c d -c +2",
            "slow a b c d -c 000000000000000000001",
            "slow a b c d -c 99999999999999999999",
        ],
    ),
    (
        "K",
        &[
            "part 2 2 f",
            "part x x f",
            "part 000000000000000000001 17 f",
            "part 99999999999999999999 16 f",
            "sim-context a b c 3 2",
            "sim-context a b c  0",
        ],
    ),
    (
        "C",
        &["part 17 17 f", "part 0 0 f", "sim-context a b c 3 x"],
    ),
    (
        "streams",
        &["mix out", "mix out a b c d e f g h i j k l m n o p q"],
    ),
];

#[test]
fn numbers_refused(rt: HostRuntime) {
    assert_groups(&rt, rt.alloc(), "bad number", BAD_NUMBERS);
}

const ONE_NAME: &[&str] = &["slow a b b d -c 2", "slow -c2 a   d", "slow b b b b -c 1"];

#[test]
fn one_name_for_two_files(rt: HostRuntime) {
    assert_refused(&rt, rt.alloc(), ("same name", ""), ONE_NAME);
}
