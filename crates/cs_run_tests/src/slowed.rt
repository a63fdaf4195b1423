// The command `slow` on whole cores: enables, resets, memories, and images for each context.
use crate::cores::{BEHIND_A_CONSTANT, COUNTER, FED_BY_ITSELF, NO_CLOCK, THREE_WORDS};
use crate::documents::{MEMORY, RESETS};
use crate::running::{assert_run, store_of};
use cs_io::MemStore;
use std::alloc::AllocGlobal;
use std::process::Abort;

// What is written answers each context in turn.
#[test]
fn cores_answer(rt: HostRuntime) {
    for (document, words, rows, response) in [
        (
            FED_BY_ITSELF,
            "slow in out cert delays -c 2",
            "\n\n\n",
            "1\n1\n1\n",
        ),
        (
            BEHIND_A_CONSTANT,
            "slow in out cert delays -c 2",
            "\n\n\n\n",
            "0\n0\n1\n1\n",
        ),
        (
            RESETS,
            "slow in out cert delays -c 2",
            "101\n101\n000\n000\n",
            "11\n11\n01\n01\n",
        ),
        (
            COUNTER,
            "slow in out cert delays -c 4",
            "10\n00\n10\n10\n10\n00\n11\n00\n10\n00\n10\n10\n",
            "0000\n0000\n0000\n0000\n1000\n0000\n1000\n1000\n0100\n0000\n0000\n1000\n",
        ),
        (
            MEMORY,
            "slow in out cert delays -c 3",
            "10111\n10000\n10000\n10000\n10000\n",
            "01\n01\n01\n11\n01\n",
        ),
        (
            THREE_WORDS,
            "slow in out cert delays -c 2",
            "11111\n11000\n11000\n",
            "00\n00\n00\n",
        ),
        (
            NO_CLOCK,
            "slow in out cert delays -c 2",
            "0\n0\n1\n1\n",
            "0\n0\n1\n1\n",
        ),
    ] {
        let mut store = store_of(&rt, &[("in", document), ("rows", rows)]);
        assert_run(&rt, &mut store, words, 0, "");
        assert_run(&rt, &mut store, "sim out rows", 0, response);
    }
}

// Whether OUT holds a text.
fn assert_holds<R: AllocGlobal + Abort>(rt: &R, store: &MemStore, part: &str) {
    let text = store.file("out").expect(rt, "OUT");
    let text = str::from_utf8(text).expect(rt, "a text");
    assert!(rt; text.contains(part), "{part}");
}

// Banks of words in what is written: as many words as the contexts have together, and the bits of the context's number
// above the address.
#[test]
fn banks_are_written(rt: HostRuntime) {
    for (document, words, parts) in [
        (
            MEMORY,
            "slow in out cert delays -c 3",
            [
                r#""ABITS":"00000000000000000000000000000100""#,
                r#""SIZE":"00000000000000000000000000001100""#,
                r#""INIT":"000010000000100000001000""#,
            ],
        ),
        (
            THREE_WORDS,
            "slow in out cert delays -c 2",
            [
                r#""ABITS":"00000000000000000000000000000011""#,
                r#""SIZE":"00000000000000000000000000001000""#,
                r#""$cs$g12":{"attributes":{},"connections":{"A":[11],"B":[3],"Y":[12]},"hide_name":1"#,
            ],
        ),
        (
            NO_CLOCK,
            "slow in out cert delays -c 2",
            [
                r#""INIT":"1010""#,
                r#""cslow_clk":{"bits":[3],"direction":"input"}"#,
                r#""WR_PORTS":"00000000000000000000000000000000""#,
            ],
        ),
        (
            FED_BY_ITSELF,
            "slow in out cert delays -c 2",
            [
                r#""$cs$g2":{"attributes":{},"connections":{"A":[5],"Y":[3]},"hide_name":1"#,
                r#""$cs$r1":{"attributes":{},"connections":{"C":[2],"D":[4],"Q":[5]},"hide_name":1"#,
                r#""$cs$q1":{"attributes":{"init":"1"},"bits":[5],"hide_name":1}"#,
            ],
        ),
    ] {
        let mut store = store_of(&rt, &[("in", document)]);
        assert_run(&rt, &mut store, words, 0, "");
        for part in parts {
            assert_holds(&rt, &store, part);
        }
    }
}

// Each context's memory starts with its image, wherever the option stands.
#[test]
fn images_of_two_contexts(rt: HostRuntime) {
    for words in [
        "slow in out cert delays -c 2 --images images",
        "slow --images=images in out cert delays -c 2",
    ] {
        let mut store = store_of(
            &rt,
            &[
                ("in", MEMORY),
                (
                    "images",
                    r#"{"images":{"m":["00001000","00000100"]},"version":1}"#,
                ),
                ("rows", "10111\n10000\n10000\n10000\n"),
            ],
        );
        assert_run(&rt, &mut store, words, 0, "");
        assert_holds(&rt, &store, r#""INIT":"0000010000001000""#);
        assert_run(&rt, &mut store, "sim out rows", 0, "01\n10\n11\n10\n");
    }
}

#[test]
fn refused_images(rt: HostRuntime) {
    for (images, words, status, text) in [
        (
            r#"{"images":{"m":["0"]},"version":1}"#,
            "slow in out cert delays -c 2 --images images",
            13,
            "images: \"m\" has 1 images\n",
        ),
        (
            r#"{"images":{"g":[]},"version":1}"#,
            "slow in out cert delays -c 2 --images images",
            13,
            "images: no memory \"g\"\n",
        ),
        (
            "{",
            "slow in out cert delays -c 2 --images images",
            13,
            "images: not json\n",
        ),
        (
            "",
            "slow in out cert delays -c 2 --images nothing",
            3,
            "cannot read nothing\n",
        ),
        (
            "",
            "slow in out cert delays -c 2 --images images --images images",
            2,
            "usage: words of slow\n",
        ),
    ] {
        let mut store = store_of(&rt, &[("in", MEMORY), ("images", images)]);
        assert_run(&rt, &mut store, words, status, text);
        assert!(rt; store.file("out").is_none(), "{text}");
    }
}

// Two runs write the same bytes.
#[test]
fn written_alike(rt: HostRuntime) {
    let mut store = store_of(&rt, &[("in", COUNTER)]);
    assert_run(&rt, &mut store, "slow in out cert delays -c 4", 0, "");
    assert_run(&rt, &mut store, "slow in again cert delays -c 4", 0, "");
    assert!(rt; store.file("out").is_some());
    assert!(rt; store.file("out") == store.file("again"));
}
