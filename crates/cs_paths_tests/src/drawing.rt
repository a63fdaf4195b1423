// Machines that are drawn from a seed.
use crate::building::{add, feed, keep};
use cs_cells::Kind;
use cs_graph::{Machine, MachineBuilder, VertexKind};
use std::alloc::Global;
use std::process::Abort;

/// Numbers from a seed (Knuth's and Lewis's linear congruential generator).
#[derive(Clone, Copy)]
pub struct Draws {
    state: u32,
}

impl Draws {
    pub fn new(seed: u32) -> Draws {
        Draws { state: seed }
    }

    /// A number below this one; 0 where it is 0.
    pub fn below(&mut self, count: u32) -> u32 {
        self.state = self
            .state
            .wrapping_mul(1_664_525)
            .wrapping_add(1_013_904_223);
        (self.state >> 8).checked_rem(count).unwrap_or(0)
    }
}

const GATES: [(Kind, u32); 4] = [
    (Kind::Not, 1),
    (Kind::Xor, 2),
    (Kind::Mux, 3),
    (Kind::And, 2),
];

/// The gate of a number, and how many pins it has.
fn gate(number: u32) -> (Kind, u32) {
    GATES
        .get((number % 4) as usize)
        .copied()
        .unwrap_or((Kind::Not, 1))
}

/// Feeds a pin of a gate: from an earlier vertex through up to two registers, from another through at least one.
fn feed_pin(
    rt: &impl Abort,
    alloc: Global,
    builder: &mut MachineBuilder,
    draws: &mut Draws,
    count: u32,
    to: (u32, u32),
) {
    let (v, pin) = to;
    let mut from = draws.below(count).saturating_add(1);
    if from == 2 {
        from = 1;
    }
    let fewest = u32::from(v <= from);
    let registers = draws.below(3).max(fewest);
    feed(rt, alloc, builder, (v, pin, from, registers as usize));
}

/// An input 1, an output 2 and so many gates behind them.
pub fn drawn(rt: &impl Abort, alloc: Global, seed: u32, gates: u32) -> &'static Machine {
    assert!(rt; gates < 1000);
    let mut draws = Draws::new(seed);
    let mut builder = MachineBuilder::new(alloc).expect(rt, "a builder");
    add(rt, alloc, &mut builder, VertexKind::Input);
    add(rt, alloc, &mut builder, VertexKind::Output);
    for number in 0..gates {
        add(rt, alloc, &mut builder, VertexKind::Gate(gate(number).0));
    }
    feed(rt, alloc, &mut builder, (2, 0, 3, 1));
    for number in 0..gates {
        let (_, pins) = gate(number);
        for pin in 0..pins {
            feed_pin(
                rt,
                alloc,
                &mut builder,
                &mut draws,
                gates + 2,
                (number + 3, pin),
            );
        }
    }
    keep(rt, alloc, builder.finish(alloc).expect(rt, "a machine"))
}
