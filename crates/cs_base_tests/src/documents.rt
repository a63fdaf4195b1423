// Documents read and printed, against texts that were written by hand or by Yosys.
use crate::fixtures::{assert_at, assert_row, keep};
use cs_base::{BitId, Signal};
use cs_json::{
    CellDecl, Datum, Direction, DocError, Document, Module, NetDecl, PortDecl, print_document,
    read_document,
};
use std::alloc::Global;
use std::process::Abort;

// One register with the start 1.
const ONE_REGISTER: &str =
    "{\n \"creator\": \"Yosys\",\n \"modules\": {\n  \"top\": {\n   \"attributes\": {},\n   \
    \"ports\": {\n    \"clk\": {\n     \"direction\": \"input\",\n     \"bits\": [\n      \
    2\n     ]\n    },\n    \"d\": {\n     \"direction\": \"input\",\n     \"bits\": [\n      \
    3\n     ]\n    },\n    \"q\": {\n     \"direction\": \"output\",\n     \"bits\": [\n      \
    4\n     ]\n    }\n   },\n   \"cells\": {\n    \"r\": {\n     \"type\": \"$_DFF_P_\",\n     \
    \"parameters\": {},\n     \"attributes\": {},\n     \"connections\": {\n      \"C\": \
    [\n       2\n      ],\n      \"D\": [\n       3\n      ],\n      \"Q\": [\n       4\n      \
    ]\n     }\n    }\n   },\n   \"netnames\": {\n    \"start0\": {\n     \"bits\": [\n      \
    4\n     ],\n     \"attributes\": {\n      \"init\": \"1\"\n     }\n    }\n   }\n  }\n \
    }\n}";

// The first 60 bytes of the document of an inverter.
const CUT_INVERTER: &str =
    "{\n \"creator\": \"Yosys\",\n \"modules\": {\n  \"top\": {\n   \"attribut";

// A register for each of two contexts, as it prints but for the newline.
const TWO_REGISTERS: &str =
    "{\"creator\":\"cslow\",\"modules\":{\"top\":{\"attributes\":{\"top\":\"0000000000000\
    0000000000000000001\"},\"cells\":{\"$cs$r0\":{\"attributes\":{},\"connections\":{\"C\
    \":[2],\"D\":[3],\"Q\":[4]},\"hide_name\":1,\"parameters\":{},\"port_directions\":{\
    \"C\":\"input\",\"D\":\"input\",\"Q\":\"output\"},\"type\":\"$_DFF_P_\"},\"$cs$r1\":\
    {\"attributes\":{},\"connections\":{\"C\":[2],\"D\":[4],\"Q\":[5]},\"hide_name\":1,\
    \"parameters\":{},\"port_directions\":{\"C\":\"input\",\"D\":\"input\",\"Q\":\"outpu\
    t\"},\"type\":\"$_DFF_P_\"}},\"netnames\":{\"$cs$q0\":{\"attributes\":{\"init\":\"1\
    \"},\"bits\":[4],\"hide_name\":1},\"$cs$q1\":{\"attributes\":{\"init\":\"1\"},\"bits\
    \":[5],\"hide_name\":1}},\"ports\":{\"clk\":{\"bits\":[2],\"direction\":\"input\"},\
    \"d\":{\"bits\":[3],\"direction\":\"input\"},\"q\":{\"bits\":[5],\"direction\":\"out\
    put\"}}}}}";

// The same with members in another order, spaces, and members that are passed over.
const TWO_REGISTERS_ANOTHER_WAY: &str =
    "{\"modules\": {\"top\": {\"ports\": {\"q\": {\"direction\": \"output\", \"bits\": [5\
    ]}, \"d\": {\"direction\": \"input\", \"bits\": [3]}, \"clk\": {\"direction\": \"inp\
    ut\", \"bits\": [2]}}, \"cells\": {\"$cs$r1\": {\"type\": \"$_DFF_P_\", \"port_direc\
    tions\": {\"Q\": \"output\", \"D\": \"input\", \"C\": \"input\"}, \"connections\": {\
    \"C\": [2], \"D\": [4], \"Q\": [5]}, \"hide_name\": 0}, \"$cs$r0\": {\"type\": \"$_D\
    FF_P_\", \"port_directions\": {\"Q\": \"output\", \"D\": \"input\", \"C\": \"input\"\
    }, \"connections\": {\"C\": [2], \"D\": [3], \"Q\": [4]}, \"hide_name\": 0}}, \"netn\
    ames\": {\"$cs$q1\": {\"bits\": [5], \"attributes\": {\"init\": \"1\"}, \"hide_name\
    \": 1}, \"$cs$q0\": {\"bits\": [4], \"attributes\": {\"init\": \"1\"}, \"hide_name\"\
    : 1}}, \"attributes\": {\"top\": \"00000000000000000000000000000001\", \"src\": [\"x\
    \"]}}}, \"creator\": \"another program\"}";

// What a text is read as.
fn read(rt: &impl Abort, alloc: Global, text: &[u8]) -> &'static Result<Document, DocError> {
    keep(rt, alloc, read_document(alloc, text))
}

fn is_not_json(answer: &Result<Document, DocError>) -> bool {
    matches!(answer, Err(DocError::NotJson))
}

#[test]
fn cut_documents(rt: HostRuntime) {
    let alloc = rt.alloc();
    assert!(rt; CUT_INVERTER.len() == 60);
    assert!(rt; is_not_json(read(&rt, alloc, CUT_INVERTER.as_bytes())));
    let bytes = ONE_REGISTER.as_bytes();
    for len in 0..bytes.len() {
        assert_at(&rt, is_not_json(read(&rt, alloc, &bytes[..len])), len);
    }
}

#[test]
fn lists_in_each_other(rt: HostRuntime) {
    let mut deep = [b'['; 400];
    deep[200..].fill(b']');
    assert!(rt; is_not_json(read(&rt, rt.alloc(), &deep)));
}

fn is_refused_at(answer: &Result<Document, DocError>, place: &str) -> bool {
    match answer {
        Err(DocError::BadShape { at }) => at.path.as_str() == place,
        _ => false,
    }
}

// Texts and the places that are refused in them.
const REFUSED: &[(&str, &str)] = &[
    ("[]", ""),
    ("{}", "/modules"),
    ("{\"modules\":[]}", "/modules"),
    (
        "{\"modules\":{\"a/b~c\":{\"ports\":{\"p\":{\"direction\":1}}}}}",
        "/modules/a~1b~0c/ports/p/bits",
    ),
    (
        "{\"modules\":{\"t\":{\"ports\":{\"\\u00fc\":{\"bits\":[2,\"0\"],\"direction\":\"input\"}}}}}",
        "/modules/t/ports/\u{fc}/bits/1",
    ),
    (
        "{\"modules\":{\"t\":{\"netnames\":{\"n\":{\"bits\":[4294967294,4294967295]}}}}}",
        "/modules/t/netnames/n/bits/1",
    ),
    (
        "{\"modules\":{\"t\":{\"cells\":{\"c\":{\"connections\":{\"Y\":[2e0]},\"type\":\"g\"}}}}}",
        "/modules/t/cells/c/connections/Y/0",
    ),
];

#[test]
fn refused_places(rt: HostRuntime) {
    for (text, place) in REFUSED {
        let answer = read(&rt, rt.alloc(), text.as_bytes());
        assert_row(&rt, is_refused_at(answer, place), text);
    }
}

// The one module of a text.
fn module(rt: &impl Abort, alloc: Global, text: &str) -> &'static Module {
    match read(rt, alloc, text.as_bytes()) {
        Ok(doc) => {
            let modules = doc.modules.as_slice();
            assert!(rt; modules.len() == 1);
            &modules[0]
        }
        Err(_) => panic!(rt; "a document is refused"),
    }
}

fn is_clock(port: &PortDecl) -> bool {
    port.name.as_str() == "clk" && port.direction == Direction::Input
}

fn is_register(cell: &CellDecl) -> bool {
    let [_, _, pin] = cell.pins.as_slice() else {
        return false;
    };
    cell.kind.as_str() == "$_DFF_P_"
        && pin.name.as_str() == "Q"
        && pin.bits.as_slice() == [Signal::Bit(BitId::new(4))].as_slice()
}

fn has_start(net: &NetDecl) -> bool {
    let [init] = net.attributes.as_slice() else {
        return false;
    };
    init.name.as_str() == "init"
        && matches!(&init.datum, Datum::Digits(digits) if digits.as_str() == "1")
}

fn has_one_register(module: &Module) -> bool {
    let ([clock, _, _], [cell], [net]) = (
        module.ports.as_slice(),
        module.cells.as_slice(),
        module.nets.as_slice(),
    ) else {
        return false;
    };
    module.name.as_str() == "top" && is_clock(clock) && is_register(cell) && has_start(net)
}

#[test]
fn one_register_is_read(rt: HostRuntime) {
    assert!(rt; has_one_register(module(&rt, rt.alloc(), ONE_REGISTER)));
}

// Whether the attributes are the greatest and the least whole number that is kept.
fn has_numbers(module: &Module) -> bool {
    let [greatest, least] = module.attributes.as_slice() else {
        return false;
    };
    matches!(greatest.datum, Datum::Number(0xffff_ffff_ffff_ffff))
        && matches!(least.datum, Datum::Number(-0x8000_0000))
}

#[test]
fn numbers_of_attributes(rt: HostRuntime) {
    let text = "{\"modules\":{\"t\":{\"attributes\":{\"a\":18446744073709551616,\
        \"b\":18446744073709551615,\"c\":-2147483648,\"d\":-2147483649,\"e\":null}}}}";
    assert!(rt; has_numbers(module(&rt, rt.alloc(), text)));
}

fn is_line(bytes: &[u8], text: &str) -> bool {
    match bytes.split_last() {
        Some((newline, line)) => *newline == b'\n' && line == text.as_bytes(),
        None => false,
    }
}

fn prints(rt: &impl Abort, alloc: Global, text: &str, printed: &str) -> bool {
    let doc = read_document(alloc, text.as_bytes()).expect(rt, "a document");
    let bytes = print_document(alloc, keep(rt, alloc, doc)).expect(rt, "a text");
    is_line(bytes.as_slice(), printed)
}

// Documents, and how they print but for the newline.
const PRINTED: &[(&str, &str)] = &[
    (TWO_REGISTERS_ANOTHER_WAY, TWO_REGISTERS),
    (TWO_REGISTERS, TWO_REGISTERS),
    ("{\"modules\":{}}", "{\"creator\":\"cslow\",\"modules\":{}}"),
];

#[test]
fn documents_print_to_the_byte(rt: HostRuntime) {
    for (text, printed) in PRINTED {
        assert_row(&rt, prints(&rt, rt.alloc(), text, printed), printed);
    }
}
