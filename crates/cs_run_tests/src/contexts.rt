// The command `sim-context`.
use crate::documents::MEMORY;
use crate::running::{assert_run, store_of};

// Word 1 of the memory is `01` in context 0, `10` in context 1, and `01` where no image is given. Images are refused before
// rows are.
#[test]
fn images_of_contexts(rt: HostRuntime) {
    let mut store = store_of(
        &rt,
        &[
            ("net", MEMORY),
            ("rows", "10000\n"),
            ("short", "1\n"),
            (
                "images",
                r#"{"images":{"m":["00001000","00000100"]},"version":1}"#,
            ),
            ("none", r#"{"images":{},"version":1}"#),
            ("few", r#"{"images":{"m":["0"]},"version":1}"#),
            ("gate", r#"{"images":{"g":[]},"version":1}"#),
            ("shape", r#"{"images":{"m":["0",1]},"version":1}"#),
        ],
    );
    for (words, status, text) in [
        ("sim-context net rows images 0 2", 0, "01\n"),
        ("sim-context net rows images 1 2", 0, "10\n"),
        ("sim-context net rows none 15 16", 0, "01\n"),
        ("sim-context net rows few 0 1", 0, "00\n"),
        (
            "sim-context net rows few 1 2",
            13,
            "images: \"m\" has 1 images\n",
        ),
        (
            "sim-context net rows images 0 1",
            13,
            "images: \"m\" has 2 images\n",
        ),
        (
            "sim-context net short gate 0 2",
            13,
            "images: no memory \"g\"\n",
        ),
        (
            "sim-context net rows rows 0 2",
            13,
            "images: bad shape at \n",
        ),
        (
            "sim-context net rows net 0 2",
            13,
            "images: bad shape at /images\n",
        ),
        (
            "sim-context net rows shape 0 2",
            13,
            "images: bad shape at /images/m/1\n",
        ),
        (
            "sim-context net short images 0 2",
            11,
            "stimulus: line 1 has another length\n",
        ),
        ("sim-context net rows images 2 2", 2, "usage: number of K\n"),
        (
            "sim-context net rows images 0",
            2,
            "usage: words of sim-context\n",
        ),
        (
            "sim-context net rows nothing 0 2",
            3,
            "cannot read nothing\n",
        ),
    ] {
        assert_run(&rt, &mut store, words, status, text);
    }
}
