// Netlists of documents, and the lines of refusals.
ghost use Rattle.cs_json.specs.Readable.{IsReadable};

use cs_base::{Counted, LimitFault};
use cs_json::{Document, read_document};
use cs_net::{Netlist, accept};
use cs_report::{Fault, fault_text};
use std::alloc::Global;
use std::process::Abort;

fn document(rt: &impl Abort, alloc: Global, text: &str) -> Document
    ensures { IsReadable result }
{
    read_document(alloc, text.as_bytes()).expect(rt, "a document")
}

/// The netlist of a document.
pub(crate) fn netlist(rt: &impl Abort, alloc: Global, text: &str) -> Netlist {
    let document = document(rt, alloc, text);
    accept(alloc, &document, None).expect(rt, "a netlist")
}

/// The line that tells why a document has no netlist, its top module being the one of a name where that is given, and
/// nothing where it has one.
pub(crate) fn refusal_of(rt: &impl Abort, alloc: Global, text: &str, top: Option<&str>) -> Vec<u8> {
    let document = document(rt, alloc, text);
    match accept(alloc, &document, top) {
        Ok(_) => Vec::new(alloc),
        Err(error) => fault_text(alloc, &Fault::Refused(error)).expect(rt, "a line"),
    }
}

fn is_limit_line(alloc: Global, fault: LimitFault, line: &str) -> bool {
    match fault_text(alloc, &Fault::Limit(fault)) {
        Ok(text) => text.as_slice() == line.as_bytes(),
        Err(_) => false,
    }
}

#[test]
fn limits_are_told(rt: HostRuntime) {
    for (what, found, most, line) in [
        (
            Counted::AddressBits,
            21,
            20,
            "limit: address bits 21 above 20\n",
        ),
        (
            Counted::MemoryBits,
            8_388_608,
            4_194_304,
            "limit: memory bits 8388608 above 4194304\n",
        ),
        (
            Counted::ReadBits,
            4_259_840,
            4_194_304,
            "limit: read bits 4259840 above 4194304\n",
        ),
        (
            Counted::Weight,
            65_552,
            65_536,
            "limit: weight 65552 above 65536\n",
        ),
        (
            Counted::Vertices,
            4_097,
            4_096,
            "limit: vertices 4097 above 4096\n",
        ),
    ] {
        let fault = LimitFault { what, found, most };
        assert!(rt; is_limit_line(rt.alloc(), fault, line), "{line}");
    }
}
