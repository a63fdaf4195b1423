// What a banked machine counts, before any of it is made. A sum past 2^64 - 1 is told as that.
ghost use Rattle.std.specs.Prelude.{◌≡◌, ◌+◌, ◌*◌, ◌-◌, ◌<◌, ◌≤◌, ◌^◌, ◌∷◌, [], ℕ, Some, length, map, min, slice_get};
ghost use Rattle.cs_graph.specs.declared.memory.Memory.{Memory as MemoryValue};
ghost use Rattle.cs_bank.specs.Bank.{IsWhole, banked_pins, banked_vertices, first_guard, write_pins};
ghost use Rattle.cs_bank.specs.ContextBits.{context_bit, context_pins, digits};
ghost use Rattle.cs_bank.specs.Guards.{below_size, enable_pins, guard, guarded_enables};
ghost use Rattle.cs_bank.specs.Measures.{banked_extent, extent, guard_of, of_pin, of_pins, of_vertex, of_wire};
ghost use Rattle.cs_bank.specs.TestSteps.{test_gates};
ghost use Rattle.cs_bank.specs.Wired.{edge_source, feed_source, wired, wired_vertex};

use crate::context_bits::context_bits;
use crate::guards::is_guarded;
use cs_base::{Contexts, VertexId};
use cs_graph::{Edge, Feed, Machine, Memory, Vertex, VertexKind};

/// What is counted of vertices: they themselves, the edges to them, or the registers of these.
#[derive(Clone, Copy)]
pub(crate) enum Measure {
    Vertices,
    Edges,
    Registers,
}

// What a vertex counts without its pins.
fn of_vertex(measure: Measure) -> u64
    ensures is { result ≡ of_vertex measure }
    ensures few { result ≤ 1 }
{
    match measure {
        Measure::Vertices => 1,
        Measure::Edges | Measure::Registers => 0,
    }
}

// ---- pins

// What a pin counts that reads a vertex without a register.
fn of_wire(measure: Measure) -> u64
    ensures is { result ≡ of_wire measure }
    ensures few { result ≤ 1 }
{
    match measure {
        Measure::Edges => 1,
        Measure::Vertices | Measure::Registers => 0,
    }
}

// What a pin counts that an edge leads to.
fn of_edge(measure: Measure, edge: &Edge) -> u64
    ensures { result ≡ of_pin measure (edge_source (Some edge.now)) }
{
    match measure {
        Measure::Vertices => 0,
        Measure::Edges => 1,
        Measure::Registers => edge.contents.len() as u64,
    }
}

// What a pin counts.
fn of_feed(machine: &Machine, measure: Measure, feed: Feed) -> u64
    ensures { result ≡ of_pin measure (feed_source machine.now.edges feed) }
{
    match feed {
        Feed::Tied(_) => 0,
        Feed::Edge(e) => if e.get() < machine.edge_count() {
            of_edge(measure, machine.edge(e))
        } else {
            0
        },
    }
}

// What pins count.
fn of_feeds(machine: &Machine, measure: Measure, feeds: &[Feed]) -> u64
    ensures { result ≡ min (of_pins measure (map (feed_source machine.now.edges) feeds.now)) (2 ^ 64 - 1) }
{
    let mut total = 0u64;
    for feed in feeds {
        total = total.saturating_add(of_feed(machine, measure, *feed));
    }
    total
}

// ---- guards

// What the gate of an address bit and a digit of the size counts, if it has one.
fn of_test_gate(machine: &Machine, measure: Measure, begun: bool, feed: Feed, digit: bool) -> u64
    ensures { (v : ℕ) → result ≡ min (extent measure
        (test_gates begun v (feed_source machine.now.edges feed) digit)) (2 ^ 64 - 1) }
{
    let pin = of_feed(machine, measure, feed);
    if begun {
        pin.saturating_add(of_vertex(measure) + of_wire(measure))
    } else if digit {
        pin.saturating_add(of_vertex(measure))
    } else {
        0
    }
}

// What the test whether an address is below a size counts.
fn of_test(machine: &Machine, measure: Measure, address: &[Feed], size: u32) -> u64
    ensures { (v : ℕ) → result ≡ min (extent measure (below_size v (map (feed_source machine.now.edges) address.now)
        (digits (length address.now) size))) (2 ^ 64 - 1) }
{
    let mut total = 0u64;
    let mut rest = size;
    let mut begun = false;
    for feed in address {
        let digit = rest % 2 == 1;
        total = total.saturating_add(of_test_gate(machine, measure, begun, *feed, digit));
        begun = begun || digit;
        rest /= 2;
    }
    total
}

// What a gate for each enable bit counts.
fn of_enables(machine: &Machine, measure: Measure, enables: &[Feed]) -> u64
    ensures { (v : ℕ) → result ≡ min (extent measure
        (guarded_enables v (map (feed_source machine.now.edges) enables.now))) (2 ^ 64 - 1) }
{
    let gate = of_vertex(measure) + of_wire(measure);
    let mut total = 0u64;
    for feed in enables {
        let pin = of_feed(machine, measure, *feed);
        total = total.saturating_add(pin.saturating_add(gate));
    }
    total
}

// What the guard of a Write with these pins counts, if its memory is guarded.
fn of_guard(machine: &Machine, measure: Measure, memory: &Memory, feeds: &[Feed]) -> u64
    requires words { memory.now.words ≡ 2 ^ memory.now.abits }
    requires pins { length feeds.now ≡ memory.now.abits + 2 * memory.now.width }
    ensures { (v : ℕ) → result ≡ min (extent measure
        (guard v memory.now (map (feed_source machine.now.edges) feeds.now))) (2 ^ 64 - 1) }
{
    if is_guarded(memory) {
        let (address_bits, width) = (memory.abits as usize, memory.width as usize);
        let test = of_test(machine, measure, &feeds[..address_bits], memory.size);
        let enables = of_enables(machine, measure, &feeds[address_bits + width..]);
        test.saturating_add(enables)
    } else {
        0
    }
}

// ---- vertices

// What enable pins count that read the guard of a Write, if its memory is guarded.
fn of_enable_pins(machine: &Machine, measure: Measure, memory: &Memory, enables: &[Feed]) -> u64
    requires words { memory.now.words ≡ 2 ^ memory.now.abits }
    ensures { (v : ℕ) → result ≡ min (of_pins measure
        (enable_pins v memory.now (map (feed_source machine.now.edges) enables.now))) (2 ^ 64 - 1) }
{
    if is_guarded(memory) {
        of_wire(measure).saturating_mul(u64::from(memory.width))
    } else {
        of_feeds(machine, measure, enables)
    }
}

// What pins count that read the context bits.
fn of_context_pins(measure: Measure, contexts: Contexts) -> u64
    ensures is { (first : ℕ) → result ≡ of_pins measure (context_pins contexts first) }
    ensures few { result ≤ 4 }
{
    of_wire(measure) * context_bits(contexts) as u64
}

// What the banked pins of a Write count.
fn of_write_pins(
    machine: &Machine,
    measure: Measure,
    contexts: Contexts,
    memory: &Memory,
    feeds: &[Feed],
) -> u64
    requires words { memory.now.words ≡ 2 ^ memory.now.abits }
    requires pins { length feeds.now ≡ memory.now.abits + 2 * memory.now.width }
    ensures { (first v : ℕ) → result ≡ min (of_pins measure (write_pins (context_pins contexts first) v
        (Some memory.now) (map (feed_source machine.now.edges) feeds.now))) (2 ^ 64 - 1) }
{
    let (address_bits, width) = (memory.abits as usize, memory.width as usize);
    let address = of_feeds(machine, measure, &feeds[..address_bits]);
    let word = of_feeds(machine, measure, &feeds[address_bits..address_bits + width]);
    let enables = of_enable_pins(machine, measure, memory, &feeds[address_bits + width..]);
    address
        .saturating_add(of_context_pins(measure, contexts))
        .saturating_add(word)
        .saturating_add(enables)
}

// What a Write counts when it is banked, with its guard, beside the vertex itself.
fn of_write(
    machine: &Machine,
    measure: Measure,
    contexts: Contexts,
    memory: &Memory,
    feeds: &[Feed],
) -> u64
    requires words { memory.now.words ≡ 2 ^ memory.now.abits }
    requires pins { length feeds.now ≡ memory.now.abits + 2 * memory.now.width }
    ensures { (first v u : ℕ) → result ≡ min (of_pins measure (write_pins (context_pins contexts first) v
        (Some memory.now) (map (feed_source machine.now.edges) feeds.now))
        + extent measure (guard u memory.now (map (feed_source machine.now.edges) feeds.now))) (2 ^ 64 - 1) }
{
    let pins = of_write_pins(machine, measure, contexts, memory, feeds);
    pins.saturating_add(of_guard(machine, measure, memory, feeds))
}

// What the pins of a vertex count when it is banked, with its guard.
fn of_banked_pins(machine: &Machine, measure: Measure, contexts: Contexts, vertex: &Vertex) -> u64
    requires whole { (i : ℕ) (m : MemoryValue) → slice_get machine.now.memories i ≡ Some m → IsWhole m }
    requires vertex { (v : ℕ) × (slice_get machine.now.vertices v ≡ Some vertex.now) }
    ensures { result ≡ min (of_pins measure (banked_pins (context_pins contexts (length machine.now.vertices))
        (first_guard contexts (wired machine.now)) (wired machine.now) vertex.now.kind
        (map (feed_source machine.now.edges) vertex.now.pins))
        + extent measure (guard_of machine.now.memories vertex.now.kind
        (map (feed_source machine.now.edges) vertex.now.pins))) (2 ^ 64 - 1) }
{
    machine.keeps();
    let feeds = vertex.pins.as_slice();
    match vertex.kind {
        VertexKind::Write { memory, .. } => {
            of_write(machine, measure, contexts, machine.memory(memory), feeds)
        }
        VertexKind::Read { .. } => {
            of_feeds(machine, measure, feeds).saturating_add(of_context_pins(measure, contexts))
        }
        _ => of_feeds(machine, measure, feeds),
    }
}

// What a vertex counts when it is banked, with its guard.
fn of_banked(machine: &Machine, measure: Measure, contexts: Contexts, vertex: &Vertex) -> u64
    requires whole { (i : ℕ) (m : MemoryValue) → slice_get machine.now.memories i ≡ Some m → IsWhole m }
    requires vertex { (v : ℕ) × (slice_get machine.now.vertices v ≡ Some vertex.now) }
    ensures { result ≡ min (banked_extent measure contexts (wired machine.now)
        (wired_vertex machine.now.edges vertex.now)) (2 ^ 64 - 1) }
{
    of_banked_pins(machine, measure, contexts, vertex).saturating_add(of_vertex(measure))
}

// What a context bit counts: a buffer that reads itself through a register for each context.
fn of_context_bit(measure: Measure, contexts: Contexts) -> u64
    ensures is { (v j : ℕ) → result ≡ extent measure (context_bit contexts v j ∷ []) }
    ensures few { result ≤ 16 }
{
    match measure {
        Measure::Vertices | Measure::Edges => 1,
        Measure::Registers => contexts.get() as u64,
    }
}

/// What all vertices of the banked machine count.
pub(crate) fn banked_count(machine: &Machine, measure: Measure, contexts: Contexts) -> u64
    requires { (i : ℕ) (m : MemoryValue) → slice_get machine.now.memories i ≡ Some m → IsWhole m }
    ensures { result ≡ min (extent measure (banked_vertices contexts (wired machine.now))) (2 ^ 64 - 1) }
{
    let mut total = context_bits(contexts) as u64 * of_context_bit(measure, contexts);
    for v in 0..machine.vertex_count() {
        let vertex = machine.vertex(VertexId::new(v));
        total = total.saturating_add(of_banked(machine, measure, contexts, vertex));
    }
    total
}
