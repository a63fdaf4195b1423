// Texts of digits, the greatest first.
ghost use Rattle.std.specs.Prelude.{◌≡◌, ◌++◌, IfOk, OnOk, map, nat_lt};
ghost use Rattle.cs_modules.specs.Pins.{count_from};
ghost use Rattle.cs_circuit.specs.Cells.{digit};
ghost use Rattle.cs_circuit.specs.MemoryCells.{bits_of_number, digits_text, number_text, priorities, same_digits};

use cs_base::Text;
use std::alloc::{AllocError, Global};

fn digit(bit: bool) -> char
    ensures { result ≡ digit bit }
{
    if bit { '1' } else { '0' }
}

/// The digits of bits that are listed least first.
pub(crate) fn digits_text(alloc: Global, bits: &[bool]) -> Result<Text, AllocError>
    ensures { IfOk result (λ text. text ≡ digits_text bits.now) }
{
    let count = bits.len();
    if count == 0 {
        return Text::from_str(alloc, "0");
    }
    let mut text = String::with_capacity(alloc, count)?;
    for place in 0..count {
        text.push(digit(bits[count - 1 - place]))?;
    }
    Ok(Text::from_string(text))
}

// The low 32 bits of a number, least first.
fn bits_of_number(alloc: Global, number: usize) -> Result<Vec<bool>, AllocError>
    ensures { IfOk result (λ bits. bits.items ≡ bits_of_number 32 number) }
{
    let mut bits = Vec::with_capacity(alloc, 32)?;
    let mut rest = number;
    for _place in 0..32usize {
        bits.push(rest % 2 == 1)?;
        rest /= 2;
    }
    Ok(bits)
}

/// A number in 32 digits.
pub(crate) fn number_text(alloc: Global, number: usize) -> Result<Text, AllocError>
    ensures { IfOk result (λ text. text ≡ number_text number) }
{
    let bits = bits_of_number(alloc, number)?;
    digits_text(alloc, bits.as_slice())
}

/// So many digits alike.
pub(crate) fn same_digits(alloc: Global, count: usize, bit: bool) -> Result<Text, AllocError>
    ensures { IfOk result (λ text. text ≡ same_digits count bit) }
{
    let bits = vec![in alloc; bit; count]?;
    digits_text(alloc, bits.as_slice())
}

// For write port i, over which of the ports it wins.
fn add_row(bits: &mut Vec<bool>, i: usize, count: usize) -> Result<(), AllocError>
    ensures { OnOk result (bits.new.items ≡ bits.old.items ++ map (λ j. nat_lt j i) (count_from 0 count)) }
{
    for j in 0..count {
        bits.push(j < i)?;
    }
    Ok(())
}

/// For each write port those below it, over which it wins.
pub(crate) fn priorities_text(alloc: Global, count: usize) -> Result<Text, AllocError>
    ensures { IfOk result (λ text. text ≡ digits_text (priorities count)) }
{
    let mut bits = Vec::new(alloc);
    for i in 0..count {
        add_row(&mut bits, i, count)?;
    }
    digits_text(alloc, bits.as_slice())
}
