// Machines whose memories have a bank for each context.
use crate::building::{
    memory, with_edges, with_inputs, with_read_and_write, with_registers, with_two_memories,
    with_two_writes, without_port,
};
use crate::checks::can_bank;
use cs_bank::{BankError, bank};
use cs_base::{Contexts, Counted, EdgeId, MemId, Sequence, VertexId};
use cs_cells::Kind;
use cs_graph::{Machine, VertexKind};
use cs_net::Images;
use std::alloc::Global;
use std::process::Abort;

fn banked(
    rt: &impl Abort,
    alloc: Global,
    machine: &Machine,
    contexts: u64,
    images: &Images,
) -> Result<Machine, BankError> {
    let contexts = Contexts::new(contexts).expect(rt, "contexts");
    let can = can_bank(machine, contexts, images);
    assert!(rt; can);
    bank(alloc, machine, contexts, images)
}

// Images that don't name the one memory.
fn unnamed(rt: &impl Abort, alloc: Global) -> Images {
    let mut of = Sequence::new(alloc);
    of.push(None).expect(rt, "an entry");
    Images { of }
}

// Whether the vertices from this number on are gates of these kinds, and the last ones.
fn are_gates(machine: &Machine, first: u32, kinds: &[Kind]) -> bool {
    let mut v = first;
    for kind in kinds {
        if v >= machine.vertex_count()
            || machine.vertex(VertexId::new(v)).kind != VertexKind::Gate(*kind)
        {
            return false;
        }
        v += 1;
    }
    v == machine.vertex_count()
}

// Whether edge e comes from this vertex, through so many registers, to this pin.
fn is_edge(machine: &Machine, e: u32, from: u32, weight: u32, to: u32, pin: u32) -> bool {
    if e >= machine.edge_count() {
        return false;
    }
    let edge = machine.edge(EdgeId::new(e));
    (edge.from.get(), edge.weight, edge.to.get(), edge.pin) == (from, weight, to, pin)
}

// Whether the one memory has so many words and address bits.
fn is_sized(machine: &Machine, words: u32, abits: u32) -> bool {
    if machine.memory_count() != 1 {
        return false;
    }
    let memory = machine.memory(MemId::new(0));
    (memory.words, memory.abits) == (words, abits)
}

#[test]
fn memory_in_three_banks(rt: HostRuntime) {
    let alloc = rt.alloc();
    let machine = with_read_and_write(&rt, alloc, memory(&rt, alloc, 4, 2, 2));
    let made = banked(&rt, alloc, &machine, 3, &unnamed(&rt, alloc)).expect(&rt, "a machine");
    assert!(rt; is_sized(&made, 12, 4) && are_gates(&made, 3, &[Kind::Buf, Kind::Buf]));
    for (e, (from, weight, to, pin)) in [
        (3, 0, 1, 2),
        (4, 0, 1, 3),
        (3, 0, 2, 2),
        (4, 0, 2, 3),
        (3, 3, 3, 0),
        (4, 3, 4, 0),
    ]
    .iter()
    .enumerate()
    {
        assert!(rt;
            is_edge(&made, e as u32, *from, *weight, *to, *pin),
            "edge {e}"
        );
    }
}

#[test]
fn guards_by_size(rt: HostRuntime) {
    use Kind::{And, AndNot, Buf, Not, OrNot};
    let alloc = rt.alloc();
    for (size, abits, contexts, kinds) in [
        (1, 0, 2, &[Buf][..]),
        (1, 1, 2, &[Buf, Not, And]),
        (1, 2, 2, &[Buf, Not, AndNot, And]),
        (3, 2, 2, &[Buf, Not, OrNot, And]),
        (3, 2, 1, &[Not, OrNot, And]),
        (3, 3, 1, &[Not, OrNot, AndNot, And]),
        (4, 3, 1, &[Not, And]),
        (5, 3, 1, &[Not, AndNot, OrNot, And]),
        (6, 3, 1, &[Not, OrNot, And]),
        (7, 3, 1, &[Not, OrNot, OrNot, And]),
        (8, 3, 1, &[]),
        (9, 3, 1, &[]),
    ] {
        let machine = with_read_and_write(&rt, alloc, memory(&rt, alloc, size, abits, 1));
        let made = banked(&rt, alloc, &machine, contexts, &unnamed(&rt, alloc));
        let made = made.expect(&rt, "a machine");
        assert!(rt; are_gates(&made, 3, kinds), "{size} of {abits} bits");
    }
}

#[test]
fn guards_of_two_writes(rt: HostRuntime) {
    let alloc = rt.alloc();
    let machine = with_two_writes(&rt, alloc, memory(&rt, alloc, 1, 1, 2));
    let made = banked(&rt, alloc, &machine, 2, &unnamed(&rt, alloc)).expect(&rt, "a machine");
    let guard = [
        Kind::Buf,
        Kind::Not,
        Kind::And,
        Kind::And,
        Kind::Not,
        Kind::And,
        Kind::And,
    ];
    assert!(rt; are_gates(&made, 3, &guard));
    assert!(rt; is_edge(&made, 0, 3, 0, 1, 1) && is_edge(&made, 1, 5, 0, 1, 4));
    assert!(rt; is_edge(&made, 3, 3, 0, 2, 1) && is_edge(&made, 4, 8, 0, 2, 4));
}

// Two images of a memory of 4 words of 2 bits with the size 3.
fn two_images(rt: &impl Abort, alloc: Global) -> Images {
    let first = [false, false, true, false, false, false];
    let second = [true, true, true, true, true, true];
    let mut images = Sequence::new(alloc);
    for image in [first, second] {
        let image = image.to_vec(alloc).expect(rt, "an image");
        images
            .push(Sequence::from_vec(image))
            .expect(rt, "an image");
    }
    let mut of = Sequence::new(alloc);
    of.push(Some(images)).expect(rt, "an entry");
    Images { of }
}

// Whether the one memory starts with these bits.
fn starts_with(machine: &Machine, bits: &[bool]) -> bool {
    machine.memory_count() == 1 && machine.memory(MemId::new(0)).start.as_slice() == bits
}

#[test]
fn images_for_two_contexts(rt: HostRuntime) {
    let alloc = rt.alloc();
    let machine = without_port(&rt, alloc, memory(&rt, alloc, 3, 2, 2));
    let made = banked(&rt, alloc, &machine, 2, &two_images(&rt, alloc)).expect(&rt, "a machine");
    let (o, i) = (false, true);
    assert!(rt; starts_with(&made, &[o, o, i, o, o, o, o, o, i, i, i, i, i, i, o, o]));
    let made = banked(&rt, alloc, &machine, 2, &unnamed(&rt, alloc)).expect(&rt, "a machine");
    assert!(rt; starts_with(&made, &[i, o, o, i, o, o, o, o, i, o, o, i, o, o, o, o]));
}

// What is too much, and how much it would be.
fn too_much(rt: &impl Abort, made: Result<Machine, BankError>) -> Option<(Counted, u64)> {
    match made {
        Ok(_) => None,
        Err(BankError::Limit(fault)) => Some((fault.what, fault.found)),
        Err(BankError::NoMemory) => panic!(rt; "no memory"),
    }
}

#[test]
fn limit_of_memory_bits(rt: HostRuntime) {
    let alloc = rt.alloc();
    for (abits, width, contexts, wanted) in [
        (18, 1, 16, None),
        (18, 4, 4, None),
        (18, 4, 5, Some((Counted::MemoryBits, 5_242_880))),
    ] {
        let machine = without_port(&rt, alloc, memory(&rt, alloc, 1, abits, width));
        let made = banked(&rt, alloc, &machine, contexts, &unnamed(&rt, alloc));
        assert!(rt; too_much(&rt, made) == wanted, "{abits} and {width}");
    }
}

fn no_images(rt: &impl Abort, alloc: Global, memories: u32) -> Images {
    let mut of = Sequence::new(alloc);
    for _ in 0..memories {
        of.push(None).expect(rt, "an entry");
    }
    Images { of }
}

// What is too much of the machine for two contexts, and how much it would be.
fn too_much_of(rt: &impl Abort, alloc: Global, machine: &Machine) -> Option<(Counted, u64)> {
    let images = no_images(rt, alloc, machine.memory_count());
    too_much(rt, banked(rt, alloc, machine, 2, &images))
}

// A context bit is one vertex, and one edge with a register for each context.
#[test]
fn limits_of_counts(rt: HostRuntime) {
    let alloc = rt.alloc();
    for (inputs, wanted) in [(4_094, None), (4_095, Some((Counted::Vertices, 4_097)))] {
        assert!(rt;
            too_much_of(&rt, alloc, &with_inputs(&rt, alloc, inputs)) == wanted,
            "{inputs}"
        );
    }
    for (edges, wanted) in [(32_767, None), (32_768, Some((Counted::Edges, 32_769)))] {
        assert!(rt;
            too_much_of(&rt, alloc, &with_edges(&rt, alloc, edges)) == wanted,
            "{edges}"
        );
    }
    for (registers, wanted) in [(65_534, None), (65_536, Some((Counted::Weight, 65_538)))] {
        assert!(rt;
            too_much_of(&rt, alloc, &with_registers(&rt, alloc, registers)) == wanted,
            "{registers}"
        );
    }
}

#[test]
fn memory_bits_of_two_memories(rt: HostRuntime) {
    let alloc = rt.alloc();
    for (abits, width, wanted) in [
        (18, 4, None),
        (0, 1, Some((Counted::MemoryBits, 4_194_306))),
    ] {
        let large = if abits == 0 { 19 } else { 18 };
        let first = memory(&rt, alloc, 1, large, 4);
        let second = memory(&rt, alloc, 1, abits, width);
        let machine = with_two_memories(&rt, alloc, first, second);
        assert!(rt;
            too_much_of(&rt, alloc, &machine) == wanted,
            "{abits} and {width}"
        );
    }
}
