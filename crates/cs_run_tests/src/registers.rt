// The command `slow` on gates and plain registers.
use crate::cores::UNREAD;
use crate::documents::{AND_FEEDBACK, INVERTER, NAMELESS, REGISTER, XOR_FEEDBACK};
use crate::running::{assert_run, store_of};
use crate::written::{WRITTEN_INVERTER, WRITTEN_NAMELESS, WRITTEN_REGISTER, WRITTEN_UNREAD};

#[test]
fn written_to_the_byte(rt: HostRuntime) {
    for (document, words, written) in [
        (INVERTER, "slow in out cert delays -c 3", WRITTEN_INVERTER),
        (REGISTER, "slow in out cert delays -c 2", WRITTEN_REGISTER),
        (NAMELESS, "slow in out cert delays -c 3", WRITTEN_NAMELESS),
        (UNREAD, "slow in out cert delays -c 2", WRITTEN_UNREAD),
    ] {
        let mut store = store_of(&rt, &[("in", document)]);
        assert_run(&rt, &mut store, words, 0, "");
        assert!(rt; store.file("out") == Some(written.as_bytes()), "{document}");
        assert!(rt; store.file("cert").is_none(), "{document}");
    }
}

// What is written is read again: it answers to rows of its contexts in turn, and so does what `slow` makes of it in one
// context. A register with the start 1 answers to rows of 0 with as many rows of 1 as there are contexts.
#[test]
fn written_netlists_answer(rt: HostRuntime) {
    for (document, words, rows, response) in [
        (
            REGISTER,
            "slow in out cert delays -c 2",
            "0\n1\n1\n0\n",
            "1\n1\n0\n1\n",
        ),
        (
            REGISTER,
            "slow in out cert delays -c 1",
            "0\n0\n0\n",
            "1\n0\n0\n",
        ),
        (
            REGISTER,
            "slow in out cert delays -c 16",
            "0\n0\n0\n0\n0\n0\n0\n0\n0\n0\n0\n0\n0\n0\n0\n0\n0\n",
            "1\n1\n1\n1\n1\n1\n1\n1\n1\n1\n1\n1\n1\n1\n1\n1\n0\n",
        ),
        (
            AND_FEEDBACK,
            "slow in out cert delays -c 2",
            "1\n1\n0\n1\n1\n1\n",
            "1\n1\n0\n1\n0\n1\n",
        ),
        (
            XOR_FEEDBACK,
            "slow in out cert delays -c 2",
            "1\n0\n1\n1\n1\n0\n",
            "0\n0\n1\n0\n0\n1\n",
        ),
        (INVERTER, "slow in out cert delays -c 3", "0\n1\n", "1\n0\n"),
    ] {
        let mut store = store_of(&rt, &[("in", document), ("rows", rows)]);
        assert_run(&rt, &mut store, words, 0, "");
        assert_run(&rt, &mut store, "sim out rows", 0, response);
        assert_run(&rt, &mut store, "slow out again cert delays -c 1", 0, "");
        assert_run(&rt, &mut store, "sim again rows", 0, response);
    }
}
