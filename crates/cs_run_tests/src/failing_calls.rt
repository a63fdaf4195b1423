// Runs in which a call of the store or of the sink fails, and files that are too long.
use crate::documents::REGISTER;
use crate::running::{assert_run, status_of, store_of};
use crate::upgraded::OLD_PAPER;
use cs_io::MemSink;

// The call of the store and the put that fail are told by their numbers, from 1; number 0 never comes. A write and a put
// that fail leave as many bytes behind as stand beside.
#[test]
fn a_call_fails(rt: HostRuntime) {
    for (words, call, put, status, text, written) in [
        (
            "slow net out cert delays -c 2",
            (1, 0),
            (0, 0),
            3,
            "cannot read net\n",
            None,
        ),
        (
            "slow net out cert delays -c 2",
            (1, 0),
            (1, 3),
            3,
            "can",
            None,
        ),
        (
            "slow net out cert delays -c 2",
            (2, 7),
            (0, 0),
            4,
            "",
            Some("{\"creat"),
        ),
        (
            "sim net rows",
            (2, 0),
            (0, 0),
            3,
            "cannot read rows\n",
            None,
        ),
        ("sim net rows", (0, 0), (1, 3), 4, "1\n0", None),
        ("sim net empty", (0, 0), (1, 0), 0, "", None),
        (
            "mix out rows",
            (2, 1),
            (0, 0),
            4,
            "cannot write out\n",
            Some("0"),
        ),
        ("part 1 2 rows", (0, 0), (1, 1), 4, "1", None),
        (
            "upgrade paper out",
            (2, 5),
            (0, 0),
            4,
            "cannot write out\n",
            Some("{\"con"),
        ),
    ] {
        let mut store = store_of(
            &rt,
            &[
                ("net", REGISTER),
                ("rows", "0\n1\n"),
                ("empty", ""),
                ("paper", OLD_PAPER),
            ],
        );
        let mut out = MemSink::new(rt.alloc());
        assert!(rt; store.fail_at(call.0, call.1).is_ok());
        assert!(rt; out.fail_at(put.0, put.1).is_ok());
        let answered = status_of(&rt, words, &mut store, &mut out);
        assert_eq!(rt; answered, status, "{words}");
        assert!(rt; out.bytes() == text.as_bytes(), "{words}");
        assert!(rt;
            store.file("out") == written.map(|text| text.as_bytes()),
            "{words}"
        );
    }
}

// A file may have 67,108,864 bytes.
#[test]
fn long_files(rt: HostRuntime) {
    let blanks = vec![in rt.alloc(); b' '; 67_108_865].expect(&rt, "a file");
    let mut store = store_of(&rt, &[("net", REGISTER)]);
    assert!(rt; store.add("long", blanks.as_slice()).is_ok());
    assert!(rt; store.add("longest", &blanks.as_slice()[1..]).is_ok());
    for (words, status, text) in [
        (
            "slow long out cert delays -c 2",
            8,
            "limit: long is longer than 67108864 bytes\n",
        ),
        (
            "sim net long",
            8,
            "limit: long is longer than 67108864 bytes\n",
        ),
        (
            "slow longest out cert delays -c 2",
            5,
            "document: not json\n",
        ),
    ] {
        assert_run(&rt, &mut store, words, status, text);
    }
}
