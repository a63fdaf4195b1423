// Rows of bits and their texts.
ghost use Rattle.std.specs.Prelude.{◌≡◌, ◌≤◌, length};

use crate::fixtures::assert_at;
use cs_base::Contexts;
use cs_stream::{StimError, Stimulus, mix, part, print_response, read_stimulus, width_of};
use std::alloc::Global;
use std::process::Abort;

fn rows(rt: &impl Abort, alloc: Global, text: &[u8], width: usize) -> Stimulus
    ensures width { result.width ≡ width }
    ensures few { result.count ≤ length text.now }
{
    read_stimulus(alloc, text, width).expect(rt, "rows")
}

fn are_rows(alloc: Global, rows: &Stimulus, text: &[u8]) -> bool {
    match print_response(alloc, rows) {
        Ok(printed) => printed.as_slice() == text,
        Err(_) => false,
    }
}

// Texts, widths and faults.
const FAULTS: &[(&[u8], usize, StimError)] = &[
    (b"1\n2\n", 1, StimError::Character { line: 2, column: 1 }),
    (b"1\n01\n", 1, StimError::Width { line: 2 }),
    (
        b"01\n1x\n\n",
        2,
        StimError::Character { line: 2, column: 2 },
    ),
    (b"01\n\n", 2, StimError::Width { line: 2 }),
    (b"1\r\n", 1, StimError::Width { line: 1 }),
];

#[test]
fn stimulus_faults(rt: HostRuntime) {
    for (row, (text, width, fault)) in FAULTS.iter().enumerate() {
        let refused = read_stimulus(rt.alloc(), text, *width).err();
        assert_at(&rt, refused == Some(*fault), row);
    }
}

// Whether it has so many rows of this width, and prints as this.
fn reads_as(
    rt: &impl Abort,
    alloc: Global,
    text: &[u8],
    sizes: (usize, usize),
    printed: &[u8],
) -> bool {
    let (width, count) = sizes;
    let rows = rows(rt, alloc, text, width);
    width_of(text) == width && rows.count == count && are_rows(alloc, &rows, printed)
}

// Texts, the width and the number of their rows, and the texts that these print as.
const LINES: &[(&[u8], (usize, usize), &[u8])] = &[
    (b"", (0, 0), b""),
    (b"\n\n\n", (0, 3), b"\n\n\n"),
    (b"10\n01", (2, 2), b"10\n01\n"),
    (b"101\n", (3, 1), b"101\n"),
];

#[test]
fn lines_are_rows(rt: HostRuntime) {
    let alloc = rt.alloc();
    for (row, (text, sizes, printed)) in LINES.iter().enumerate() {
        assert_at(&rt, reads_as(&rt, alloc, text, *sizes, printed), row);
    }
}

#[test]
fn bits_stand_row_by_row(rt: HostRuntime) {
    let rows = rows(&rt, rt.alloc(), b"10\n01", 2);
    assert!(rt; rows.bits.as_slice() == [true, false, false, true].as_slice());
}

#[test]
fn streams_take_turns(rt: HostRuntime) {
    let alloc = rt.alloc();
    let streams = [
        rows(&rt, alloc, b"1\n1\n1\n", 1),
        rows(&rt, alloc, b"0\n1\n0\n", 1),
    ];
    let mixed = mix(alloc, &streams).expect(&rt, "mixed rows");
    assert!(rt; are_rows(alloc, &mixed, b"1\n0\n1\n1\n1\n0\n"));
}

#[test]
fn an_uneven_stream(rt: HostRuntime) {
    let alloc = rt.alloc();
    let streams = [rows(&rt, alloc, b"1\n", 1), rows(&rt, alloc, b"0\n1\n", 1)];
    assert!(rt; mix(alloc, &streams).err() == Some(StimError::Uneven { stream: 0 }));
}

#[test]
fn a_part_has_every_second_row(rt: HostRuntime) {
    let alloc = rt.alloc();
    let two = Contexts::new(2).expect(&rt, "two contexts");
    let rows = rows(&rt, alloc, b"0\n0\n1\n0\n0\n1\n", 1);
    for (k, text) in [(0, b"0\n1\n0\n".as_slice()), (1, b"0\n0\n1\n")] {
        assert!(rt; k < two.get());
        let own = part(alloc, k, two, &rows).expect(&rt, "a part");
        assert!(rt; are_rows(alloc, &own, text), "context {k}");
    }
}
