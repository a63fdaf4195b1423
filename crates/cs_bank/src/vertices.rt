// The vertices of a banked machine: those that were there, the context bits, and the guards.
ghost use Rattle.std.specs.Prelude.{◌≡◌, ◌+◌, ◌*◌, ◌<◌, ◌≤◌, ◌^◌, ◌++◌, ℕ, IfOk, IsTrue, OnOk, Some, length, map, slice_get};
ghost use Rattle.std.specs.Bool.{OnTrue};
ghost use Rattle.std.specs.List.{range_with_len};
ghost use Rattle.cs_graph.specs.declared.memory.Memory.{Memory as MemoryValue};
ghost use Rattle.cs_bank.specs.Bank.{IsWhole, banked_pins, banked_vertex, banked_vertices, first_guard, write_pins};
ghost use Rattle.cs_bank.specs.ContextBits.{context_pins};
ghost use Rattle.cs_bank.specs.Guards.{enable_pins, guard_count, guards, guards_place, is_guarded, port_guards, write_ports};
ghost use Rattle.cs_bank.specs.Wired.{feed_source, wired};
ghost use Rattle.cs_bank.specs.WritePlaces.{writes_from, writes_of};

use crate::context_bits::{context_bits, push_context_bits};
use crate::guards::{is_guarded, push_guard, test_count};
use crate::sources::{push_sources, push_wires};
use crate::writes::writes_of;
use cs_base::{Contexts, MemId, Sequence, VertexId};
use cs_graph::{Feed, Machine, Memory, OpenPins, OpenVertex, Source, Vertex, VertexKind};
use std::alloc::{AllocError, Global};

// ---- guards

// Pushes the guards of the Writes of memory i.
fn push_port_guards(
    alloc: Global,
    machine: &Machine,
    i: MemId,
    writes: &[VertexId],
    vertices: &mut Vec<OpenVertex>,
) -> Result<(), AllocError>
    requires writes { writes.now ≡ writes_from i 0 machine.now.vertices }
    requires whole { (m : MemoryValue) → slice_get machine.now.memories i ≡ Some m → IsWhole m }
    requires there { i < length machine.now.memories }
    requires some { 0 < length vertices.old.items }
    requires few { (m : MemoryValue) → slice_get machine.now.memories i ≡ Some m → length vertices.old.items
        + length (port_guards (length vertices.old.items) m (write_ports i (wired machine.now).vertices)) ≤ 4096 }
    ensures { OnOk result ((m : MemoryValue) → slice_get machine.now.memories i ≡ Some m → vertices.new.items
        ≡ vertices.old.items
        ++ port_guards (length vertices.old.items) m (write_ports i (wired machine.now).vertices)) }
{
    machine.keeps();
    let memory = machine.memory(i);
    for v in writes {
        let write = machine.vertex(*v);
        push_guard(alloc, machine, memory, write.pins.as_slice(), vertices)?;
    }
    Ok(())
}

// Pushes all guards: memory by memory, and port by port.
fn push_guards(
    alloc: Global,
    machine: &Machine,
    writes: &[Sequence<VertexId>],
    vertices: &mut Vec<OpenVertex>,
) -> Result<(), AllocError>
    requires writes { writes.now ≡ writes_of machine.now }
    requires whole { (i : ℕ) (m : MemoryValue) → slice_get machine.now.memories i ≡ Some m → IsWhole m }
    requires some { 0 < length vertices.old.items }
    requires few { length vertices.old.items
        + length (guards (length vertices.old.items) 0 machine.now.memories (wired machine.now).vertices) ≤ 4096 }
    ensures { OnOk result (vertices.new.items ≡ vertices.old.items
        ++ guards (length vertices.old.items) 0 machine.now.memories (wired machine.now).vertices) }
{
    machine.keeps();
    for (i, list) in writes.iter().enumerate() {
        push_port_guards(
            alloc,
            machine,
            MemId::new(i as u32),
            list.as_slice(),
            vertices,
        )?;
    }
    Ok(())
}

// ---- where guards stand

// How many vertices a guard has.
fn guard_count(memory: &Memory) -> u32
    requires words { memory.now.words ≡ 2 ^ memory.now.abits }
    requires few { memory.now.abits + memory.now.width < 2 ^ 32 }
    ensures { result ≡ guard_count memory.now }
{
    if is_guarded(memory) {
        test_count(memory.abits, memory.size) + memory.width
    } else {
        0
    }
}

// Where the guards of each memory begin, the first of all at vertex `first`.
fn guard_places(
    alloc: Global,
    machine: &Machine,
    writes: &[Sequence<VertexId>],
    first: u32,
) -> Result<Sequence<u32>, AllocError>
    requires writes { writes.now ≡ writes_of machine.now }
    requires whole { (i : ℕ) (m : MemoryValue) → slice_get machine.now.memories i ≡ Some m → IsWhole m }
    requires few { first + length (guards first 0 machine.now.memories (wired machine.now).vertices) ≤ 4096 }
    ensures { IfOk result (λ places. places ≡ map (guards_place first 0 machine.now.memories (wired machine.now).vertices)
        (range_with_len 0 (length machine.now.memories))) }
{
    machine.keeps();
    let mut places = Sequence::new(alloc);
    let mut place = first;
    for (i, list) in writes.iter().enumerate() {
        places.push(place)?;
        place += list.len() as u32 * guard_count(machine.memory(MemId::new(i as u32)));
    }
    Ok(places)
}

// Where the guard of a port begins, where the first guard of its memory begins at vertex `first`.
fn guard_place(memory: &Memory, first: u32, port: u32) -> u32
    requires words { memory.now.words ≡ 2 ^ memory.now.abits }
    requires sizes { memory.now.abits + memory.now.width < 2 ^ 32 }
    requires few { first + port * guard_count memory.now < 2 ^ 32 }
    ensures { result ≡ first + port * guard_count memory.now }
{
    first + port * guard_count(memory)
}

// ---- pins

// Pushes what the enable pins of a Write read whose guard begins at vertex `place`.
fn push_enable_pins(
    alloc: Global,
    machine: &Machine,
    memory: &Memory,
    place: u32,
    enables: &[Feed],
    pins: &mut Vec<Option<Source>>,
) -> Result<(), AllocError>
    requires words { memory.now.words ≡ 2 ^ memory.now.abits }
    requires few { OnTrue (is_guarded memory.now) (place + guard_count memory.now < 2 ^ 32) }
    ensures { OnOk result (pins.new.items
        ≡ pins.old.items ++ enable_pins place memory.now (map (feed_source machine.now.edges) enables.now)) }
{
    if is_guarded(memory) {
        let first = place + test_count(memory.abits, memory.size);
        push_wires(alloc, first, memory.width, pins)
    } else {
        push_sources(alloc, machine, enables, pins)
    }
}

// Pushes pins that read the context bits.
fn push_context_pins(
    alloc: Global,
    machine: &Machine,
    contexts: Contexts,
    pins: &mut Vec<Option<Source>>,
) -> Result<(), AllocError>
    ensures { OnOk result (pins.new.items
        ≡ pins.old.items ++ context_pins contexts (length machine.now.vertices)) }
{
    machine.keeps();
    push_wires(alloc, machine.vertex_count(), context_bits(contexts), pins)
}

// Pushes a Write's pins with the context's above its address, and the enable bits of its guard.
fn push_write_pins(
    alloc: Global,
    machine: &Machine,
    contexts: Contexts,
    memory: &Memory,
    place: u32,
    feeds: &[Feed],
    pins: &mut Vec<Option<Source>>,
) -> Result<(), AllocError>
    requires words { memory.now.words ≡ 2 ^ memory.now.abits }
    requires count { length feeds.now ≡ memory.now.abits + 2 * memory.now.width }
    requires few { OnTrue (is_guarded memory.now) (place + guard_count memory.now < 2 ^ 32) }
    ensures { OnOk result (pins.new.items ≡ pins.old.items ++ write_pins (context_pins contexts
        (length machine.now.vertices)) place (Some memory.now) (map (feed_source machine.now.edges) feeds.now)) }
{
    let (address_bits, width) = (memory.abits as usize, memory.width as usize);
    push_sources(alloc, machine, &feeds[..address_bits], pins)?;
    push_context_pins(alloc, machine, contexts, pins)?;
    push_sources(
        alloc,
        machine,
        &feeds[address_bits..address_bits + width],
        pins,
    )?;
    let enables = &feeds[address_bits + width..];
    push_enable_pins(alloc, machine, memory, place, enables, pins)
}

// Pushes the pins of a vertex, where the guards of the memories begin at these places.
fn push_pins(
    alloc: Global,
    machine: &Machine,
    contexts: Contexts,
    places: &[u32],
    vertex: &Vertex,
    pins: &mut Vec<Option<Source>>,
) -> Result<(), AllocError>
    requires places { places.now ≡ map (guards_place (first_guard contexts (wired machine.now)) 0
        machine.now.memories (wired machine.now).vertices) (range_with_len 0 (length machine.now.memories)) }
    requires whole { (i : ℕ) (m : MemoryValue) → slice_get machine.now.memories i ≡ Some m → IsWhole m }
    requires vertex { (v : ℕ) × (slice_get machine.now.vertices v ≡ Some vertex.now) }
    requires few { length (banked_vertices contexts (wired machine.now)) ≤ 4096 }
    ensures { OnOk result (pins.new.items ≡ pins.old.items ++ banked_pins (context_pins contexts
        (length machine.now.vertices)) (first_guard contexts (wired machine.now)) (wired machine.now) vertex.now.kind
        (map (feed_source machine.now.edges) vertex.now.pins)) }
{
    machine.keeps();
    let feeds = vertex.pins.as_slice();
    match vertex.kind {
        VertexKind::Write { memory, port } => {
            let first = places[memory.get() as usize];
            let memory = machine.memory(memory);
            let place = guard_place(memory, first, port);
            push_write_pins(alloc, machine, contexts, memory, place, feeds, pins)
        }
        VertexKind::Read { .. } => {
            push_sources(alloc, machine, feeds, pins)?;
            push_context_pins(alloc, machine, contexts, pins)
        }
        _ => push_sources(alloc, machine, feeds, pins),
    }
}

// ---- all

// Pushes the vertices that were there, with their banked pins.
fn push_old_vertices(
    alloc: Global,
    machine: &Machine,
    contexts: Contexts,
    places: &[u32],
    vertices: &mut Vec<OpenVertex>,
) -> Result<(), AllocError>
    requires places { places.now ≡ map (guards_place (first_guard contexts (wired machine.now)) 0
        machine.now.memories (wired machine.now).vertices) (range_with_len 0 (length machine.now.memories)) }
    requires whole { (i : ℕ) (m : MemoryValue) → slice_get machine.now.memories i ≡ Some m → IsWhole m }
    requires few { length (banked_vertices contexts (wired machine.now)) ≤ 4096 }
    ensures { OnOk result (vertices.new.items ≡ vertices.old.items ++ map (banked_vertex (context_pins contexts
        (length machine.now.vertices)) (first_guard contexts (wired machine.now)) (wired machine.now))
        (wired machine.now).vertices) }
{
    for v in 0..machine.vertex_count() {
        let vertex = machine.vertex(VertexId::new(v));
        let mut pins = Vec::new(alloc);
        push_pins(alloc, machine, contexts, places, vertex, &mut pins)?;
        vertices.push(OpenVertex {
            kind: vertex.kind,
            pins: OpenPins::from_vec(pins),
        })?;
    }
    Ok(())
}

/// The vertices that were there with their banked pins, the context bits, and the guards, memory by memory and port by
/// port. It errs only where memory runs out.
pub(crate) fn banked_vertices(
    alloc: Global,
    machine: &Machine,
    contexts: Contexts,
) -> Result<Vec<OpenVertex>, AllocError>
    requires whole { (i : ℕ) (m : MemoryValue) → slice_get machine.now.memories i ≡ Some m → IsWhole m }
    requires few { length (banked_vertices contexts (wired machine.now)) ≤ 4096 }
    ensures { IfOk result (λ vertices. vertices.items ≡ banked_vertices contexts (wired machine.now)) }
{
    machine.keeps();
    let count = machine.vertex_count();
    let writes = writes_of(alloc, machine)?;
    let first_guard = count + context_bits(contexts);
    let places = guard_places(alloc, machine, writes.as_slice(), first_guard)?;
    let mut vertices = Vec::new(alloc);
    push_old_vertices(alloc, machine, contexts, places.as_slice(), &mut vertices)?;
    push_context_bits(alloc, &mut vertices, contexts, count)?;
    push_guards(alloc, machine, writes.as_slice(), &mut vertices)?;
    Ok(vertices)
}
