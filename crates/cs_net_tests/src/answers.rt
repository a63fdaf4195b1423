// What netlists answer to rows.
ghost use Rattle.std.specs.Prelude.{◌≡◌, length};
ghost use Rattle.cs_net.specs.Drivers.{data_inputs};

use crate::documents::{CLOCKED_READ, COUNTER, STICKY};
use crate::lines::netlist;
use cs_net::Netlist;
use cs_sim::respond;
use cs_stream::{Stimulus, print_response, read_stimulus};
use std::alloc::Global;
use std::process::Abort;

fn stimulus(rt: &impl Abort, alloc: Global, net: &Netlist, rows: &str) -> Stimulus
    ensures { result.width ≡ length (data_inputs net.now) }
{
    read_stimulus(alloc, rows.as_bytes(), net.input_count()).expect(rt, "rows")
}

fn answer(rt: &impl Abort, alloc: Global, net: &Netlist, rows: &str) -> Vec<u8> {
    let rows = stimulus(rt, alloc, net, rows);
    let response = respond(alloc, net, &rows).expect(rt, "a response");
    print_response(alloc, &response).expect(rt, "a text")
}

// Whether the netlist of a document answers these rows with that response.
fn is_answer(rt: &impl Abort, alloc: Global, document: &str, rows: &str, response: &str) -> bool {
    let net = netlist(rt, alloc, document);
    answer(rt, alloc, &net, rows).as_slice() == response.as_bytes()
}

// The rows of the clocked read come from an independent simulator.
#[test]
fn to_rows(rt: HostRuntime) {
    for (document, rows, response) in [
        (
            CLOCKED_READ,
            "00100\n10100\n01100\n11100\n01101\n01100\n00110\n00010\n00000\n11101\n",
            "10\n01\n10\n11\n00\n11\n01\n01\n01\n01\n",
        ),
        (COUNTER, "10\n10\n10\n", "0000\n1000\n0100\n"),
        (COUNTER, "10\n11\n10\n", "0000\n1000\n0000\n"),
        (COUNTER, "10\n00\n10\n", "0000\n1000\n1000\n"),
        (COUNTER, "00\n00\n00\n", "0000\n0000\n0000\n"),
        (STICKY, "", ""),
        (STICKY, "1\n0\n", "0100\n1100\n"),
    ] {
        assert!(rt;
            is_answer(&rt, rt.alloc(), document, rows, response),
            "{response}"
        );
    }
}
