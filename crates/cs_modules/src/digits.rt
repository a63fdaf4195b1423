// Attributes and parameters as digits, the least significant first.
ghost use Rattle.std.specs.Prelude.{◌≡◌, ◌<◌, ◌^◌, ◌==◌, if◌then◌else◌, IfOk, option_map};
ghost use Rattle.std.specs.Option.{SomeIff};
ghost use Rattle.cs_modules.specs.Digits.{binary_digits, characters_reversed, datum_at, digits_at, digits_of, init_digit, is_continuation, is_nonzero, is_one, pattern_of, value_of};

use cs_json::{Datum, Entry};
use std::alloc::{AllocError, Global};

fn is_continuation(byte: u8) -> bool
    ensures { result ≡ is_continuation byte }
{
    128 <= byte && byte < 192
}

fn characters_reversed(alloc: Global, text: &[u8]) -> Result<Vec<u8>, AllocError>
    ensures { IfOk result (λ v. v.items ≡ characters_reversed text.now) }
{
    text.iter()
        .rev()
        .filter(|byte| !is_continuation(**byte))
        .copied()
        .collect(alloc)
}

fn pattern(number: i128) -> u128
    ensures { result ≡ pattern_of number }
{
    if number >= 0 {
        number as u128
    } else {
        0x1_0000_0000u128.saturating_sub(number.unsigned_abs())
    }
}

fn binary_digits(alloc: Global, number: u128) -> Result<Vec<u8>, AllocError>
    ensures { IfOk result (λ v. v.items ≡ binary_digits number) }
{
    let mut digits = Vec::new(alloc);
    let mut rest = number;
    for _place in 0..128usize {
        digits.push(b'0' + (rest % 2) as u8)?;
        rest /= 2;
        if rest == 0 {
            return Ok(digits);
        }
    }
    Ok(digits)
}

/// The digits of an attribute or parameter, each a character or its first byte.
pub fn digits_of(alloc: Global, datum: &Datum) -> Result<Vec<u8>, AllocError>
    ensures { IfOk result (λ v. v.items ≡ digits_of datum.now) }
{
    match datum {
        Datum::Digits(text) => characters_reversed(alloc, text.as_str().as_bytes()),
        Datum::Number(number) => binary_digits(alloc, pattern(*number)),
    }
}

/// The value of the attribute or parameter of a name.
pub fn datum_at<'a>(name: &str, entries: &'a [Entry]) -> Option<&'a Datum>
    ensures { option_map (λ datum. datum.now) result ≡ datum_at name.now entries.now }
{
    entries
        .iter()
        .find(|entry| entry.name.as_str() == name)
        .map(|entry| &entry.datum)
}

/// The digits of the attribute or parameter of a name, each a character or its first byte, the least significant
/// first, and none where it is missing. It errs only where memory runs out.
pub fn digits_at(alloc: Global, name: &str, entries: &[Entry]) -> Result<Vec<u8>, AllocError>
    ensures { IfOk result (λ v. v.items ≡ digits_at name.now entries.now) }
{
    match datum_at(name, entries) {
        Some(datum) => digits_of(alloc, datum),
        None => Ok(Vec::new(alloc)),
    }
}

/// Whether digit i of a parameter is 1.
pub fn is_one(digits: &[u8], i: usize) -> bool
    ensures { result ≡ is_one digits.now i }
{
    i < digits.len() && digits[i] == b'1'
}

/// Whether a parameter is other than 0.
pub fn is_nonzero(digits: &[u8]) -> bool
    ensures { result ≡ is_nonzero digits.now }
{
    digits.iter().any(|digit| *digit == b'1')
}

/// What digit i of an `init` says of its bit.
pub fn init_digit(digits: &[u8], i: usize) -> Option<bool>
    ensures { result ≡ init_digit digits.now i }
{
    if i >= digits.len() {
        return None;
    }
    match digits[i] {
        b'1' => Some(true),
        b'0' => Some(false),
        _ => None,
    }
}

fn bit_of(digit: u8) -> u32
    ensures { result ≡ (if digit == 49 then 1 else 0) }
{
    if digit == b'1' { 1 } else { 0 }
}

/// The number that a parameter's digits spell, where it is below 2^32.
pub fn value_of(digits: &[u8]) -> Option<u32>
    ensures { SomeIff result (value_of digits.now < 2 ^ 32) (value_of digits.now) }
{
    let mut value = 0;
    let mut i = digits.len();
    while i > 0 {
        i -= 1;
        if value >= 0x8000_0000u32 {
            return None;
        }
        value = bit_of(digits[i]) + 2 * value;
    }
    Some(value)
}
