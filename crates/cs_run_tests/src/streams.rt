// The commands `mix` and `part`, and faulty rows.
use crate::documents::XOR_FEEDBACK;
use crate::running::{assert_run, store_of};

#[test]
fn mixed_and_parted(rt: HostRuntime) {
    let mut store = store_of(
        &rt,
        &[
            ("s0", "1\n1\n1\n"),
            ("s1", "0\n1\n0"),
            ("rows", "0\n0\n1\n0\n0\n1\n"),
        ],
    );
    for (words, text) in [
        ("mix out s0 s1", ""),
        ("part 0 2 out", "1\n1\n1\n"),
        ("part 1 2 out", "0\n1\n0\n"),
        ("part 0 2 rows", "0\n1\n0\n"),
        ("part 1 2 rows", "0\n0\n1\n"),
    ] {
        assert_run(&rt, &mut store, words, 0, text);
    }
    assert!(rt; store.file("out") == Some(b"1\n0\n1\n1\n1\n0\n".as_slice()));
}

#[test]
fn refused_rows(rt: HostRuntime) {
    let mut store = store_of(
        &rt,
        &[
            ("net", XOR_FEEDBACK),
            ("character", "1\n2\n"),
            ("width", "1\n01\n"),
            ("empty", ""),
            ("one", "1\n"),
            ("two", "1\n0\n"),
        ],
    );
    for (words, status, text) in [
        ("sim net character", 11, "stimulus: line 2 column 1\n"),
        ("sim net width", 11, "stimulus: line 2 has another length\n"),
        (
            "mix out one two",
            11,
            "stimulus: stream 0 has another count of lines\n",
        ),
        ("mix out one character", 11, "stimulus: line 2 column 1\n"),
        (
            "part 0 2 width",
            11,
            "stimulus: line 2 has another length\n",
        ),
        ("part 0 2 empty", 0, ""),
        ("part 0 2 none", 3, "cannot read none\n"),
        ("slow none out cert delays -c 2", 3, "cannot read none\n"),
    ] {
        assert_run(&rt, &mut store, words, status, text);
        assert!(rt; store.file("out").is_none(), "{words}");
    }
}
