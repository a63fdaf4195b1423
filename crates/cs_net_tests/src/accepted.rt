// Which documents are accepted, and what their netlists list.
use crate::documents::{COUNTER, MEMORY};
use crate::lines::{netlist, refusal_of};
use cs_base::{BitId, Signal};
use cs_net::{Images, Netlist};
use std::alloc::{AllocError, Global};
use std::process::Abort;
use std::test::Fail;

// The port q is the third of four, and the cell f1 the fourth of ten, in order of names.
fn assert_counter(rt: &impl Abort, net: &Netlist) {
    assert!(rt; net.module_name().as_str() == "counter");
    assert!(rt;
        net.clock()
            .is_some_and(|clock| clock.rising && clock.bit.get() == 2)
    );
    assert!(rt; net.input_count() == 2 && net.output_count() == 4);
    assert!(rt; net.starts().len() == 4);
    assert!(rt; net.port_count() == 4);
    assert!(rt; net.port(2).name.as_str() == "q" && net.port(2).bits.len() == 4);
    assert!(rt; net.cell_count() == 10);
    assert!(rt; net.cell(3).name.as_str() == "f1");
    assert!(rt; net.cell(3).signal("D") == Signal::Bit(BitId::new(10)));
}

#[test]
fn counter(rt: HostRuntime) {
    let net = netlist(&rt, rt.alloc(), COUNTER);
    assert_counter(&rt, &net);
}

// The read port depends on its address, which data inputs drive.
fn assert_memory(rt: &impl Abort, net: &Netlist) {
    assert!(rt; net.input_count() == 5 && net.output_count() == 2);
    assert!(rt; net.cells().len() == 1 && net.shapes().len() == 1 && net.ports().len() == 5);
    assert!(rt; net.order() == [0, 1].as_slice());
    assert!(rt; net.starts().is_empty());
    assert!(rt;
        net.memory(0)
            .is_some_and(|shape| shape.size == 4 && shape.reads.len() == 1)
    );
    assert!(rt; net.memory(1).is_none());
    assert!(rt;
        net.memories()
            .first()
            .is_some_and(|memory| memory.name.as_str() == "m")
    );
}

#[test]
fn memory(rt: HostRuntime) {
    let net = netlist(&rt, rt.alloc(), MEMORY);
    assert_memory(&rt, &net);
    assert!(rt; Images::none(rt.alloc(), &net).is_ok_and(|images| images.of.len() == 1));
}

#[test]
fn module_by_its_name(rt: HostRuntime) {
    let alloc = rt.alloc();
    for (name, line) in [("top", ""), ("other", "netlist: no top module\n")] {
        let text = refusal_of(&rt, alloc, MEMORY, Some(name));
        assert!(rt; text.as_slice() == line.as_bytes(), "{name}");
    }
}

// A document of so many inverters.
fn inverters(alloc: Global, count: u32) -> Result<String, AllocError> {
    let mut text = String::from_str(alloc, r#"{"modules":{"top":{"cells":{"#)?;
    for cell in 0..count {
        let comma = if cell == 0 { "" } else { "," };
        let cell = format!(in alloc;
            "{comma}\"{cell}\":{{\"type\":\"$_NOT_\",\"connections\":{{\"A\":[\"0\"],\"Y\":[\"x\"]}}}}"
        )?;
        text.push_str(cell.as_str())?;
    }
    text.push_str("}}}}")?;
    Ok(text)
}

// As many cells as a netlist may have, and one more.
#[test]
fn cells(rt: HostRuntime) -> Result<(), Fail> {
    for (count, line) in [(65_536, ""), (65_537, "limit: cells 65537 above 65536\n")] {
        let document = inverters(rt.alloc(), count)?;
        let text = refusal_of(&rt, rt.alloc(), document.as_str(), None);
        assert!(rt; text.as_slice() == line.as_bytes(), "{count}");
    }
    Ok(())
}
