// Words of the program: usage, help and version.
use crate::documents::REGISTER;
use crate::running::{assert_run, status_of, store_of};
use crate::written::WRITTEN_REGISTER;
use cs_io::MemSink;

#[test]
fn usage_faults(rt: HostRuntime) {
    let mut store = store_of(&rt, &[("a", REGISTER), ("f", "1\n")]);
    for (words, text) in [
        ("", "usage: no such command\n"),
        ("port 0 2 f", "usage: no such command\n"),
        ("slow a b", "usage: words of slow\n"),
        ("slow a b c d -c 2 -c 2", "usage: words of slow\n"),
        ("slow a b c d -c 2 --fallback", "usage: words of slow\n"),
        ("slow a b c d -c 2 --lags any", "usage: words of slow\n"),
        ("slow a b c d -c 2 --images", "usage: words of slow\n"),
        ("slow --help", "usage: words of slow\n"),
        ("sim-context a f i 0", "usage: words of sim-context\n"),
        ("slow a b b d -c 2", "usage: OUT and CERT are one name\n"),
        ("slow a b b d -c 0", "usage: number of -c\n"),
        ("part 2 2 f", "usage: number of K\n"),
        ("part 17 17 f", "usage: number of C\n"),
        ("mix b", "usage: number of streams\n"),
    ] {
        assert_run(&rt, &mut store, words, 2, text);
        assert!(rt; store.file("b").is_none(), "{words}");
    }
}

#[test]
fn number_of_contexts(rt: HostRuntime) {
    let mut store = store_of(&rt, &[("in", REGISTER)]);
    for words in [
        "slow in out cert delays -c 0",
        "slow in out cert delays -c 17",
    ] {
        assert_run(&rt, &mut store, words, 2, "usage: number of -c\n");
    }
    for words in [
        "slow in out cert delays -c 1",
        "slow in out cert delays -c 16",
    ] {
        assert_run(&rt, &mut store, words, 0, "");
    }
}

// An option stands anywhere.
#[test]
fn options_anywhere(rt: HostRuntime) {
    for words in [
        "slow in out cert delays -c2",
        "slow -c 2 in out cert delays",
        "slow in out -c=2 cert delays",
    ] {
        let mut store = store_of(&rt, &[("in", REGISTER)]);
        assert_run(&rt, &mut store, words, 0, "");
        assert!(rt;
            store.file("out") == Some(WRITTEN_REGISTER.as_bytes()),
            "{words}"
        );
    }
}

const HELP: &str = "cslow: one Yosys netlist for C interleaved threads
usage:
  cslow slow IN OUT CERT DELAYS -c C [--images IMAGES]
  cslow sim NET STIM
  cslow sim-context NET STIM IMAGES K C
  cslow mix OUT STREAMS
  cslow part K C FILE
  cslow upgrade OLD NEW
  cslow help
  cslow version
netlists are Yosys JSON; see README.md
";

#[test]
fn help_and_version(rt: HostRuntime) {
    let mut store = store_of(&rt, &[]);
    for (words, status, text) in [
        ("help", 0, HELP),
        ("--help", 0, HELP),
        ("-h", 0, HELP),
        ("version", 0, "cslow 1.0.0\n"),
        ("--version", 0, "cslow 1.0.0\n"),
        ("-V", 0, "cslow 1.0.0\n"),
        ("--help slow", 2, "usage: words of --help\n"),
        ("-V -V", 2, "usage: words of -V\n"),
        ("help help", 2, "usage: words of help\n"),
    ] {
        assert_run(&rt, &mut store, words, status, text);
    }
}

// The text is cut where its put fails.
#[test]
fn help_and_version_unput(rt: HostRuntime) {
    for (words, text) in [("help", "cslow: one"), ("version", "cslow 1.0.")] {
        let mut store = store_of(&rt, &[]);
        let mut out = MemSink::new(rt.alloc());
        assert!(rt; out.fail_at(1, 10).is_ok());
        assert_eq!(rt; status_of(&rt, words, &mut store, &mut out), 4, "{words}");
        assert!(rt; out.bytes() == text.as_bytes(), "{words}");
    }
}
