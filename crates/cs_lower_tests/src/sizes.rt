// What is as large as a machine may be, and what is one above.
use crate::lines::lowered;
use cs_base::{Counted, LimitFault};
use cs_graph::Machine;
use cs_lower::LowerError;
use std::alloc::{AllocError, Global};
use std::process::Abort;

// A chain of registers from the input of bit 3; multiplexers of sixteen data bits, and inverters, that all read its end.
#[derive(Clone, Copy)]
struct Sizes {
    registers: u32,
    muxes: u32,
    inverters: u32,
}

const DATA_PINS: &str = "A B C D E F G H I J K L M N O P";

// The registers, from bit 3 to the bit that many behind it.
fn push_chain(alloc: Global, items: &mut String, registers: u32) -> Result<(), AllocError> {
    if registers != 0 {
        items.push_str("; in clk 2")?;
    }
    for place in 0..registers {
        let (d, q) = (place.saturating_add(3), place.saturating_add(4));
        let register = format!(in alloc; "; r{place} $_DFF_P_ C:2 D:{d} Q:{q}")?;
        items.push_str(register.as_str())?;
    }
    Ok(())
}

// The pins of a multiplexer.
fn mux_pins(alloc: Global, bit: u32) -> Result<String, AllocError> {
    let mut pins = String::from_str(alloc, r#"S:"0" T:"0" U:"0" V:"0" Y:"x""#)?;
    for name in DATA_PINS.split(' ') {
        let pin = format!(in alloc; " {name}:{bit}")?;
        pins.push_str(pin.as_str())?;
    }
    Ok(pins)
}

// So many cells of these words.
fn push_cells(
    alloc: Global,
    items: &mut String,
    count: u32,
    name: &str,
    words: &str,
) -> Result<(), AllocError> {
    for place in 0..count {
        let cell = format!(in alloc; "; {name}{place} {words}")?;
        items.push_str(cell.as_str())?;
    }
    Ok(())
}

// The items of a document of these sizes, and some more.
fn items_of(alloc: Global, sizes: Sizes, more: &str) -> Result<String, AllocError> {
    let mut items = format!(in alloc; "in a 3; {more}")?;
    push_chain(alloc, &mut items, sizes.registers)?;
    let end = sizes.registers.saturating_add(3);
    let pins = mux_pins(alloc, end)?;
    let mux = format!(in alloc; "$_MUX16_ {}", pins.as_str())?;
    push_cells(alloc, &mut items, sizes.muxes, "m", mux.as_str())?;
    let inverter = format!(in alloc; "$_NOT_ A:{end} Y:\"x\"")?;
    push_cells(alloc, &mut items, sizes.inverters, "n", inverter.as_str())?;
    Ok(items)
}

fn counts(alloc: Global, machine: &Machine) -> Result<String, AllocError> {
    let (vertices, edges) = (machine.vertex_count(), machine.edge_count());
    format!(in alloc; "vertices {vertices} edges {edges}")
}

fn limit(alloc: Global, fault: LimitFault) -> Result<String, AllocError> {
    let LimitFault { what, found, most } = fault;
    let what = match what {
        Counted::Vertices => "vertices",
        Counted::Edges => "edges",
        Counted::Weight => "weight",
        _ => "other",
    };
    format!(in alloc; "limit: {what} {found} above {most}")
}

// How large the machine of the document of these items is, or would be.
fn size_text(rt: &impl Abort, alloc: Global, items: &str) -> Result<String, AllocError> {
    match lowered(rt, alloc, items) {
        Ok(lowered) => counts(alloc, &lowered.machine),
        Err(LowerError::Limit(fault)) => limit(alloc, fault),
        Err(LowerError::NoMemory) => String::from_str(alloc, "no memory"),
    }
}

fn assert_size(rt: &impl Abort, alloc: Global, sizes: Sizes, more: &str, wanted: &str) {
    let items = items_of(alloc, sizes, more).expect(rt, "a document");
    let found = size_text(rt, alloc, items.as_str()).expect(rt, "a text");
    assert!(rt; found.as_str() == wanted, "{wanted}: {found}");
}

// The last row has 60,000 registers before 30,000 pins.
#[test]
fn limits(rt: HostRuntime) {
    for (registers, muxes, inverters, more, wanted) in [
        (0, 0, 4_093, "out y 3", "vertices 4096 edges 4094"),
        (0, 0, 4_094, "out y 3", "limit: vertices 4097 above 4096"),
        (0, 0, 5_000, "out y 3", "limit: vertices 5003 above 4096"),
        (0, 2_047, 15, "out y 3", "vertices 2065 edges 32768"),
        (0, 2_047, 16, "out y 3", "limit: edges 32769 above 32768"),
        (40, 4_000, 200, "", "limit: vertices 4202 above 4096"),
        (40, 2_100, 0, "", "limit: edges 33600 above 32768"),
        (32_768, 0, 2, "", "vertices 4 edges 2"),
        (65_535, 0, 0, "out y 65538; out z 4", "vertices 4 edges 2"),
        (
            65_536,
            0,
            0,
            "out y 65539; out z 4",
            "limit: weight 65537 above 65536",
        ),
        (60_000, 1_875, 0, "", "limit: weight 1800000000 above 65536"),
    ] {
        let sizes = Sizes {
            registers,
            muxes,
            inverters,
        };
        assert_size(&rt, rt.alloc(), sizes, more, wanted);
    }
}
