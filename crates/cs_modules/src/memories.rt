// What a memory's parameters say: its shape, and the words that it starts with.
ghost use Rattle.std.specs.Prelude.{◌≡◌, ◌+◌, ◌*◌, ◌≤◌, IfOk, None, codes, map, true};
ghost use Rattle.std.specs.List.{list_all};
ghost use Rattle.cs_modules.specs.Memories.{AreReadsOf, digits_part, first_words, memory_shape, read_shape, shape_of};
ghost use Rattle.cs_modules.specs.Pins.{has_right_pins, count_from, is_size, memory_sizes, number_at};
ghost use Rattle.cs_modules.specs.Digits.{is_one};

use crate::classes::is_memory;
use crate::digits::is_one;
use crate::pins::{number_at, parameter};
use crate::words::Words;
use cs_base::Sequence;
use cs_cells::{MemShape, ReadShape};
use cs_json::CellDecl;
use std::alloc::{AllocError, Global};

// The i-th of the parts of some digits that are so wide; digits that are missing are 0.
fn digits_part(
    alloc: Global,
    digits: &[u8],
    width: u32,
    i: u32,
) -> Result<Sequence<bool>, AllocError>
    ensures { IfOk result (λ part. part ≡ map (λ j. is_one digits.now (i * width + j)) (count_from 0 width)) }
{
    let first = u64::from(i) * u64::from(width);
    let mut part = Sequence::new(alloc);
    for j in 0..width {
        let digit = first + u64::from(j);
        part.push(is_one(digits, digit as usize))?;
    }
    Ok(part)
}

// The digits of the parameters of a memory's read ports.
#[derive(Drop)]
struct ReadDigits {
    clocked: Vec<u8>,
    enable_over_reset: Vec<u8>,
    reset_value: Vec<u8>,
    start: Vec<u8>,
}

fn read_digits(alloc: Global, cell: &CellDecl) -> Result<ReadDigits, AllocError>
    ensures { IfOk result (AreReadsOf cell.now) }
{
    Ok(ReadDigits {
        clocked: parameter(alloc, cell, "RD_CLK_ENABLE")?,
        enable_over_reset: parameter(alloc, cell, "RD_CE_OVER_SRST")?,
        reset_value: parameter(alloc, cell, "RD_SRST_VALUE")?,
        start: parameter(alloc, cell, "RD_INIT_VALUE")?,
    })
}

fn read_shape(
    alloc: Global,
    cell: &CellDecl,
    digits: &ReadDigits,
    width: u32,
    i: u32,
) -> Result<ReadShape, AllocError>
    requires { AreReadsOf cell.now digits.now }
    ensures { IfOk result (λ read. read ≡ read_shape cell.now width i) }
{
    let _ = cell;
    Ok(ReadShape {
        clocked: is_one(digits.clocked.as_slice(), i as usize),
        enable_over_reset: is_one(digits.enable_over_reset.as_slice(), i as usize),
        reset_value: digits_part(alloc, digits.reset_value.as_slice(), width, i)?,
        start: digits_part(alloc, digits.start.as_slice(), width, i)?,
    })
}

fn read_shapes(
    alloc: Global,
    cell: &CellDecl,
    width: u32,
    count: u32,
) -> Result<Sequence<ReadShape>, AllocError>
    ensures { IfOk result (λ reads. reads ≡ map (read_shape cell.now width) (count_from 0 count)) }
{
    let digits = read_digits(alloc, cell)?;
    let mut reads = Sequence::new(alloc);
    for i in 0..count {
        reads.push(read_shape(alloc, cell, &digits, width, i)?)?;
    }
    Ok(reads)
}

fn memory_shape(alloc: Global, cell: &CellDecl) -> Result<MemShape, AllocError>
    requires { list_all (is_size cell.now) memory_sizes ≡ true }
    ensures { IfOk result (λ shape. shape ≡ memory_shape cell.now) }
{
    let width = number_at(alloc, cell, "WIDTH")?;
    let reads = number_at(alloc, cell, "RD_PORTS")?;
    Ok(MemShape {
        size: number_at(alloc, cell, "SIZE")?,
        abits: number_at(alloc, cell, "ABITS")?,
        width,
        reads: read_shapes(alloc, cell, width, reads)?,
        writes: number_at(alloc, cell, "WR_PORTS")?,
    })
}

/// The shape of a cell that is a memory. It errs only where memory runs out.
pub fn shape(alloc: Global, cell: &CellDecl) -> Result<Option<MemShape>, AllocError>
    requires { has_right_pins cell.now ≡ true }
    ensures { IfOk result (λ shape. shape ≡ shape_of cell.now) }
{
    if is_memory(cell) {
        Ok(Some(memory_shape(alloc, cell)?))
    } else {
        Ok(None)
    }
}

// So many words of some digits.
fn words_of(alloc: Global, digits: &[u8], width: u32, count: u32) -> Result<Words, AllocError>
    ensures { IfOk result (λ words. words
        ≡ map (λ i. map (λ j. is_one digits.now (i * width + j)) (count_from 0 width)) (count_from 0 count)) }
{
    let total = u64::from(count) * u64::from(width);
    let mut bits = Vec::with_capacity(alloc, total as usize)?;
    for i in 0..total {
        bits.push(is_one(digits, i as usize))?;
    }
    Ok(Words::new(bits, width as usize, count as usize))
}

/// The words that a memory starts with, as its INIT says, each least significant bit first. It errs only where memory runs
/// out.
pub fn first_words(alloc: Global, cell: &CellDecl) -> Result<Words, AllocError>
    requires sizes { list_all (is_size cell.now) memory_sizes ≡ true }
    requires narrow { number_at cell.now (codes "ABITS") ≤ 20 }
    ensures { IfOk result (λ words. words ≡ first_words cell.now (memory_shape cell.now)) }
{
    let size = number_at(alloc, cell, "SIZE")?;
    let address_bits = number_at(alloc, cell, "ABITS")?;
    let width = number_at(alloc, cell, "WIDTH")?;
    let digits = parameter(alloc, cell, "INIT")?;
    words_of(alloc, digits.as_slice(), width, size.min(1 << address_bits))
}
