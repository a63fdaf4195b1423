// Memories by their sizes, and where they start.
use crate::documents::MEMORY;
use crate::lines::{netlist, refusal_of};
use cs_net::Netlist;
use std::alloc::{AllocError, Global};
use std::process::Abort;
use std::test::Fail;

// A memory cell: its size, its address bits, the width of its words, and how many unclocked reads it has.
#[derive(Clone, Copy)]
struct Sizes {
    size: u32,
    address: usize,
    width: usize,
    reads: usize,
}

// A list of items, all alike.
fn list_of(alloc: Global, item: &str, count: usize) -> Result<String, AllocError> {
    [item].repeat(alloc, count)?.join(alloc, ",")
}

// A memory that is never written and starts as these digits say, each read of which has the address 0.
fn document_of(alloc: Global, sizes: Sizes, start: &str) -> Result<String, AllocError> {
    let Sizes {
        size,
        address,
        width,
        reads,
    } = sizes;
    let ports = list_of(alloc, "\"0\"", reads)?;
    let addresses = list_of(alloc, "\"0\"", reads.saturating_mul(address))?;
    let bits = list_of(alloc, "\"x\"", reads.saturating_mul(width))?;
    format!(in alloc;
        "{{\"modules\":{{\"top\":{{\"cells\":{{\"m\":{{\"type\":\"$mem_v2\",\"parameters\":{{\
        \"SIZE\":{size},\"ABITS\":{address},\"WIDTH\":{width},\"RD_PORTS\":{reads},\"WR_PORTS\":0,\
        \"INIT\":{start}}},\"connections\":{{\"RD_CLK\":[{ports}],\"RD_EN\":[{ports}],\
        \"RD_ARST\":[{ports}],\"RD_SRST\":[{ports}],\"RD_ADDR\":[{addresses}],\"RD_DATA\":[{bits}],\
        \"WR_CLK\":[],\"WR_EN\":[],\"WR_ADDR\":[],\"WR_DATA\":[]}}}}}}}}}}}}"
    )
}

// A bit of a word of the memory that the first cell is.
fn bit_at(net: &Netlist, word: u32, bit: u32) -> Option<bool> {
    let shape = net.memory(0)?;
    let addressed = shape.abits < 32 && word < 1 << shape.abits;
    if addressed && word < shape.size && bit < shape.width {
        Some(net.memory_bit(0, word, bit))
    } else {
        None
    }
}

// Whether a word of the memory that the first cell is starts with these bits.
fn starts_with(net: &Netlist, word: u32, bits: &str) -> bool {
    for (place, digit) in (0..64).zip(bits.bytes()) {
        if bit_at(net, word, place) != Some(digit == b'1') {
            return false;
        }
    }
    true
}

#[test]
fn limits(rt: HostRuntime) -> Result<(), Fail> {
    let alloc = rt.alloc();
    for (size, address, width, reads, line) in [
        (1_048_576, 20, 4, 1, ""),
        (1_048_576, 21, 4, 1, "limit: address bits 21 above 20\n"),
        (
            1_048_576,
            20,
            5,
            1,
            "limit: memory bits 5242880 above 4194304\n",
        ),
        (1, 0, 65_536, 64, ""),
        (1, 0, 65_536, 65, "limit: read bits 4259840 above 4194304\n"),
    ] {
        let sizes = Sizes {
            size,
            address,
            width,
            reads,
        };
        let document = document_of(alloc, sizes, "\"\"")?;
        assert!(rt;
            refusal_of(&rt, alloc, document.as_str(), None).as_slice() == line.as_bytes(),
            "{line}"
        );
    }
    Ok(())
}

// Whether a word of the first cell of such a document's netlist starts with these bits.
fn is_start(rt: &impl Abort, alloc: Global, document: &str, word: u32, bits: &str) -> bool {
    let net = netlist(rt, alloc, document);
    starts_with(&net, word, bits)
}

// Digits come least first: of a text from its end, each character but 1 being 0; of a number below 0 the 32 of its two's
// complement.
#[test]
fn starts(rt: HostRuntime) -> Result<(), Fail> {
    let alloc = rt.alloc();
    let sizes = Sizes {
        size: 1,
        address: 0,
        width: 33,
        reads: 0,
    };
    for (start, bits) in [
        ("\"10é\"", "001000000000000000000000000000000"),
        ("6", "011000000000000000000000000000000"),
        ("0", "000000000000000000000000000000000"),
        ("-2", "011111111111111111111111111111110"),
    ] {
        let document = document_of(alloc, sizes, start)?;
        assert!(rt; is_start(&rt, alloc, document.as_str(), 0, bits), "{start}");
    }
    for (word, bits) in [(0, "00"), (1, "01"), (2, "00"), (3, "00")] {
        assert!(rt; is_start(&rt, alloc, MEMORY, word, bits), "word {word}");
    }
    Ok(())
}
