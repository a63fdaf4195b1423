// What a netlist holds between two clocks.
ghost use Rattle.std.specs.Prelude.{◌≡◌, [], IfOk, get_or, length, map};
ghost use Rattle.std.specs.List.{enumerate_from, zip};
ghost use Rattle.cs_sim.specs.Clock.{next_held, next_read, next_read_bit, next_register, next_words, word_in};
ghost use Rattle.cs_sim.specs.Start.{Fits, held_at_start};

use crate::layout::{Layout, ReadBit, ReadPortSlots, RegisterSlots, WriteSlots};
use crate::memory::Memory;
use crate::slots::value;
use cs_base::Sequence;
use cs_net::Netlist;
use std::alloc::{AllocError, Global};
use std::marker::Model;

/// What registers, the data bits of each clocked read, and memories hold.
#[derive(Drop)]
pub(crate) struct Held {
    pub(crate) registers: Vec<bool>,
    pub(crate) reads: Vec<Vec<bool>>,
    pub(crate) memories: Vec<Memory>,
}

impl Model for Held {
    ghost use Rattle.std.specs.Prelude.{map};
    ghost use Rattle.cs_sim.specs.Clock.{HeldValues};

    ghost Value = { HeldValues };

    ghost view = { λ h. record { registers = h.registers.items; reads = map (λ bits. bits.items) h.reads.items; memories = h.memories.items } };
}

fn register_starts(alloc: Global, registers: &[RegisterSlots]) -> Result<Vec<bool>, AllocError>
    ensures { IfOk result (λ starts. starts.items ≡ map (λ r. r.start) registers.now) }
{
    registers
        .iter()
        .map(|register| register.start)
        .collect(alloc)
}

fn port_starts(alloc: Global, port: &ReadPortSlots) -> Result<Vec<bool>, AllocError>
    ensures { IfOk result (λ starts. starts.items ≡ map (λ b. b.start) port.now.bits) }
{
    port.bits
        .as_slice()
        .iter()
        .map(|bit| bit.start)
        .collect(alloc)
}

fn read_starts(alloc: Global, ports: &[ReadPortSlots]) -> Result<Vec<Vec<bool>>, AllocError>
    ensures { IfOk result (λ starts. map (λ bits. bits.items) starts.items ≡ map (λ p. map (λ b. b.start) p.bits) ports.now) }
{
    let mut starts = Vec::new(alloc);
    for port in ports {
        starts.push(port_starts(alloc, port)?)?;
    }
    Ok(starts)
}

fn memories(alloc: Global, net: &Netlist) -> Result<Vec<Memory>, AllocError>
    ensures { IfOk result (λ memories. memories.items ≡ map (λ m. m.words) net.now.memories) }
{
    let mut memories = Vec::new(alloc);
    for memory in net.memories() {
        memories.push(Memory::copy(alloc, &memory.words)?)?;
    }
    Ok(memories)
}

fn next_register(values: &[bool], slots: &RegisterSlots, held: bool) -> bool
    ensures { result ≡ next_register values.now (slots.now, held) }
{
    slots.kind.next(
        value(values, slots.source),
        held,
        value(values, slots.enable),
        value(values, slots.reset),
    )
}

// The registers take their next values.
fn advance_registers(values: &[bool], slots: &[RegisterSlots], held: &mut [bool])
    requires { length held.old ≡ length slots.now }
    ensures { held.new ≡ map (next_register values.now) (zip slots.now held.old) }
{
    for i in 0..held.len() {
        held[i] = next_register(values, &slots[i], held[i]);
    }
}

fn next_read_bit(
    values: &[bool],
    slots: &ReadPortSlots,
    word: &[bool],
    place: usize,
    bit: &ReadBit,
    held: bool,
) -> bool
    ensures { result ≡ next_read_bit values.now slots.now word.now (place, (bit.now, held)) }
{
    bit.kind.next(
        value(word, place),
        held,
        value(values, slots.enable),
        value(values, slots.reset),
    )
}

// The data bits of a clocked read take their next values from a word.
fn advance_read(values: &[bool], slots: &ReadPortSlots, word: &[bool], held: &mut [bool])
    requires { length held.old ≡ length slots.now.bits }
    ensures { held.new ≡ map (next_read_bit values.now slots.now word.now) (enumerate_from 0 (zip slots.now.bits held.old)) }
{
    let bits = slots.bits.as_slice();
    for i in 0..held.len() {
        held[i] = next_read_bit(values, slots, word, i, &bits[i], held[i]);
    }
}

/// The word of a memory at the address in these slots, empty where that is no word.
pub(crate) fn word_in<'a>(
    memories: &'a [Memory],
    memory: usize,
    values: &[bool],
    address: &[usize],
) -> &'a [bool]
    ensures { result.now ≡ word_in memories.now memory values.now address.now }
{
    match memories.get(memory) {
        Some(memory) => memory.word(values, address),
        None => &[],
    }
}

// The data bits of a clocked read take their next values.
fn advance_port(values: &[bool], slots: &ReadPortSlots, memories: &[Memory], held: &mut Vec<bool>)
    requires { length held.old.items ≡ length slots.now.bits }
    ensures { held.new.items ≡ next_read memories.now values.now (slots.now, held.old.items) }
{
    let word = word_in(memories, slots.memory, values, slots.address.as_slice());
    advance_read(values, slots, word, held.as_mut_slice());
}

// The data bits of all clocked reads take their next values.
fn advance_reads(
    values: &[bool],
    slots: &[ReadPortSlots],
    memories: &[Memory],
    held: &mut [Vec<bool>],
)
    requires { map (λ bits. length bits) (map (λ bits. bits.items) held.old) ≡ map (λ p. length p.bits) slots.now }
    ensures { map (λ bits. bits.items) held.new
        ≡ map (next_read memories.now values.now) (zip slots.now (map (λ bits. bits.items) held.old)) }
{
    for i in 0..held.len() {
        advance_port(values, &slots[i], memories, &mut held[i]);
    }
}

// The write ports of each memory act.
fn advance_memories(values: &[bool], slots: &[Sequence<WriteSlots>], memories: &mut [Memory])
    requires { length memories.old ≡ length slots.now }
    ensures { memories.new ≡ map (next_words values.now) (zip memories.old slots.now) }
{
    for i in 0..memories.len() {
        memories[i].write_all(values, slots[i].as_slice());
    }
}

impl Held {
    /// What the data bits of a clocked read hold.
    pub(crate) fn read(&self, place: usize) -> &[bool]
        ensures { result.now ≡ get_or self.now.reads place [] }
    {
        match self.reads.get(place) {
            Some(bits) => bits.as_slice(),
            None => &[],
        }
    }

    /// What is held at the start. It errs only where memory runs out.
    pub(crate) fn at_start(
        alloc: Global,
        net: &Netlist,
        layout: &Layout,
    ) -> Result<Self, AllocError>
        ensures { IfOk result (λ held. held ≡ held_at_start net.now layout.now) }
    {
        Ok(Held {
            registers: register_starts(alloc, layout.registers.as_slice())?,
            reads: read_starts(alloc, layout.read_ports.as_slice())?,
            memories: memories(alloc, net)?,
        })
    }

    /// Goes on by one clock, in which these values have settled.
    #[tactic(auto, unfolding(crate::specs::Clock::next_held))]
    pub(crate) fn advance(&mut self, layout: &Layout, values: &[bool])
        requires { Fits layout.now self.old }
        ensures { self.new ≡ next_held layout.now values.now self.old }
    {
        advance_registers(
            values,
            layout.registers.as_slice(),
            self.registers.as_mut_slice(),
        );
        advance_reads(
            values,
            layout.read_ports.as_slice(),
            self.memories.as_slice(),
            self.reads.as_mut_slice(),
        );
        advance_memories(
            values,
            layout.writes.as_slice(),
            self.memories.as_mut_slice(),
        );
    }
}
