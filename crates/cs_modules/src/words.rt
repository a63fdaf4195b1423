// Words of one width.
ghost use Rattle.std.specs.Prelude.{◌≡◌, ◌*◌, [], IfOk, flat_map, get_or, length, map, slice_set, sum};
ghost use Rattle.cs_modules.specs.Words.{image_words, words_in};

use std::alloc::{AllocError, Global};
use std::marker::Model;

/// Words of one width, word 0 first, each least significant bit first. Contracts see the list of the words.
#[derive(Drop)]
pub struct Words {
    bits: Vec<bool>,
    width: usize,
    count: usize,
}

impl Model for Words {
    ghost use Rattle.std.specs.Prelude.{◌≡◌, ◌*◌, length};
    ghost use Rattle.cs_cells.specs.Memories.{Words};
    ghost use Rattle.cs_modules.specs.Words.{words_in};

    ghost Value = { Words };

    ghost view = { λ w. words_in w.count w.width w.bits.items };

    ghost invariant = { λ w. length w.bits.items ≡ w.count * w.width };
}

impl Words {
    /// So many words of a width, of these bits; it takes no memory.
    pub fn new(bits: Vec<bool>, width: usize, count: usize) -> Words
        requires { length bits.items ≡ count * width }
        ensures { result ≡ words_in count width bits.items }
    {
        Words { bits, width, count }
    }

    /// How many words.
    pub fn len(&self) -> usize
        ensures { result ≡ length self.now }
    {
        self.count
    }

    /// The bits of all words, in order.
    pub fn bits(&self) -> &[bool]
        ensures { result.now ≡ flat_map (λ word. word) self.now }
    {
        self.bits.as_slice()
    }

    /// The word at a place, and the empty one where there is none.
    pub fn word(&self, place: usize) -> &[bool]
        ensures { result.now ≡ get_or self.now place [] }
    {
        if place >= self.count {
            return &[];
        }
        let start = place * self.width;
        &self.bits[start..start + self.width]
    }

    /// Another list of the same words. It errs only where memory runs out.
    pub fn copy(&self, alloc: Global) -> Result<Words, AllocError>
        ensures { IfOk result (λ copy. copy ≡ self.now) }
    {
        Ok(Words {
            bits: Vec::from_slice(alloc, self.bits.as_slice())?,
            width: self.width,
            count: self.count,
        })
    }

    /// As many words of the same width, of an image's bits. It errs only where memory runs out.
    pub fn with_bits(&self, alloc: Global, image: &[bool]) -> Result<Words, AllocError>
        requires { length image.now ≡ sum (map length self.now) }
        ensures { IfOk result (λ words. words ≡ image_words self.now image.now) }
    {
        Ok(Words {
            bits: Vec::from_slice(alloc, image)?,
            width: self.width,
            count: self.count,
        })
    }

    /// Puts a bit at a place of a word; nothing happens where there is no such place.
    pub fn set(&mut self, word: usize, place: usize, bit: bool)
        ensures { self.new ≡ slice_set self.old word (slice_set (get_or self.old word []) place bit) }
    {
        if word < self.count && place < self.width {
            self.bits[word * self.width + place] = bit;
        }
    }
}
