// The values of a netlist within a clock, once all its parts have driven their bits.
ghost use Rattle.std.specs.Prelude.{◌≡◌, true, false, slice_set};
ghost use Rattle.cs_cells.specs.Gates.{gate_value};
ghost use Rattle.cs_sim.specs.Clock.{evaluated, evaluated_at, pins_at, settled};

use crate::held::{Held, word_in};
use crate::layout::{Part, Work};
use crate::slots::{store, store_bits, value};
use cs_cells::Kind;

const MOST_PINS: usize = 20;

fn gate_output(values: &[bool], kind: Kind, pins: &[usize]) -> bool
    ensures { result ≡ gate_value kind (pins_at values.now kind pins.now) }
{
    let count = kind.pin_count();
    let mut bits = [false; MOST_PINS];
    for i in 0..count {
        bits[i] = value(values, pins.get(i).copied().unwrap_or(0));
    }
    kind.eval(&bits[..count])
}

// Drives the bits of a part.
#[tactic(auto, unfolding(crate::specs::Clock::evaluated, crate::specs::Slots::stored))]
fn evaluate(held: &Held, row: &[bool], part: &Part, values: &mut [bool])
    ensures { values.new ≡ evaluated held.now row.now values.old part.now }
{
    let first = part.first;
    match &part.work {
        Work::Inputs => store_bits(values, first, row, 0, row.len()),
        Work::Register { place } => {
            let bit = value(held.registers.as_slice(), *place);
            store(values, first, bit);
        }
        Work::ClockedRead { place } => {
            let bits = held.read(*place);
            store_bits(values, first, bits, 0, bits.len());
        }
        Work::Gate { kind, pins } => {
            let bit = gate_output(values, *kind, pins.as_slice());
            store(values, first, bit);
        }
        Work::Read {
            memory,
            address,
            width,
        } => {
            let word = word_in(
                held.memories.as_slice(),
                *memory,
                values,
                address.as_slice(),
            );
            store_bits(values, first, word, 0, *width);
        }
    }
}

fn evaluate_at(held: &Held, row: &[bool], parts: &[Part], v: usize, values: &mut [bool])
    ensures { values.new ≡ evaluated_at held.now row.now parts.now values.old v }
{
    if let Some(part) = parts.get(v) {
        evaluate(held, row, part, values);
    }
}

/// Drives the bits of all parts in an order.
#[tactic(auto, unfolding(crate::specs::Clock::settled))]
pub(crate) fn settle(
    held: &Held,
    row: &[bool],
    parts: &[Part],
    order: &[usize],
    values: &mut [bool],
)
    ensures { values.new ≡ settled held.now row.now parts.now order.now values.old }
{
    store(values, 0, false);
    store(values, 1, true);
    for v in order {
        evaluate_at(held, row, parts, *v, values);
    }
}
