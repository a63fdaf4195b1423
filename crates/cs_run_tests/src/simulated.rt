// The command `sim`.
use crate::documents::{RESETS, TWO_WRITES, XOR_FEEDBACK};
use crate::running::{assert_run, store_of};

// Of two write ports the second wins bit 0 in the first clock. In the first row both registers are given their reset, but
// not their enable.
#[test]
fn netlists_answer(rt: HostRuntime) {
    for (document, rows, response) in [
        (TWO_WRITES, "010\n000\n000\n", "00\n01\n11\n"),
        (RESETS, "101\n000\n", "11\n01\n"),
        (XOR_FEEDBACK, "1\n1\n1\n", "0\n1\n0\n"),
        (XOR_FEEDBACK, "0\n1\n0", "0\n0\n1\n"),
        (XOR_FEEDBACK, "", ""),
    ] {
        let mut store = store_of(&rt, &[("net", document), ("rows", rows)]);
        assert_run(&rt, &mut store, "sim net rows", 0, response);
    }
}
