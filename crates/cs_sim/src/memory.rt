// The words that a memory holds.
ghost use Rattle.std.specs.Prelude.{◌≡◌, ◌<◌, ◌≤◌, [], IfOk, get_or, length, map, slice_set};
ghost use Rattle.cs_cells.specs.Memories.{after_write, merged_word};
ghost use Rattle.cs_sim.specs.Clock.{next_words, write_in};
ghost use Rattle.cs_sim.specs.Slots.{number_at, value_at};

use crate::layout::WriteSlots;
use crate::slots::{number, value};
use cs_modules::Words;
use std::alloc::{AllocError, Global};
use std::marker::Model;

/// The words of a memory, which contracts see as the list of them.
#[derive(Drop)]
pub(crate) struct Memory {
    words: Words,
}

impl Model for Memory {
    ghost use Rattle.cs_cells.specs.Memories.{Words};

    ghost Value = { Words };

    ghost view = { λ m. m.words };
}

impl Memory {
    /// A copy of words. It errs only where memory runs out.
    pub(crate) fn copy(alloc: Global, words: &Words) -> Result<Self, AllocError>
        ensures { IfOk result (λ memory. memory ≡ words.now) }
    {
        Ok(Memory {
            words: words.copy(alloc)?,
        })
    }

    /// The word at the address in these slots, empty where that is no word.
    pub(crate) fn word(&self, values: &[bool], address: &[usize]) -> &[bool]
        ensures { result.now ≡ get_or self.now (number_at values.now address.now) [] }
    {
        let place = number(values, address);
        if place < self.words.len() {
            self.words.word(place)
        } else {
            &[]
        }
    }

    /// Does what a write port is given.
    pub(crate) fn write(&mut self, values: &[bool], port: &WriteSlots)
        ensures { self.new ≡ after_write self.old (write_in values.now port.now) }
    {
        let number = number(values, port.address.as_slice());
        if number < self.words.len() {
            merge(
                &mut self.words,
                number,
                values,
                port.word.as_slice(),
                port.enable.as_slice(),
            );
        }
    }

    /// Does what the write ports are given, in order.
    pub(crate) fn write_all(&mut self, values: &[bool], ports: &[WriteSlots])
        ensures { self.new ≡ next_words values.now (self.old, ports.now) }
    {
        for port in ports {
            self.write(values, port);
        }
    }
}

// Puts the enabled bits of a new word into the word at a place.
fn merge(words: &mut Words, place: usize, values: &[bool], bits: &[usize], enable: &[usize])
    ensures { words.new ≡ slice_set words.old place (merged_word (get_or words.old place [])
        (map (value_at values.now) bits.now) (map (value_at values.now) enable.now)) }
{
    let count = words.word(place).len().min(bits.len()).min(enable.len());
    for i in 0..count {
        if value(values, enable[i]) {
            words.set(place, i, value(values, bits[i]));
        }
    }
}
