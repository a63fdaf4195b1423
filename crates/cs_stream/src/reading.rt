// Stimuli from their texts.
ghost use Rattle.std.specs.Prelude.{◌≡◌, ◌⊎◌, ◌+◌, ◌^◌, ◌≤◌, ◌<◌, ◌++◌, [], ◌∷◌, None, Some, IfOk, IfErr, OnOk, length, map, position};
ghost use Rattle.std.specs.List.{position_or_len};
ghost use Rattle.cs_stream.specs.Rows.{rows_of};
ghost use Rattle.cs_stream.specs.Lines.{is_newline, lines_of};
ghost use Rattle.cs_stream.specs.Reading.{is_one, is_other, line_fault, fault_of, stimulus_rows};

use crate::error::StimError;
use crate::stimulus::Stimulus;
use cs_base::Sequence;
use std::alloc::{AllocError, Global};

// The place of the first newline.
fn newline(bytes: &[u8]) -> Option<usize>
    ensures { result ≡ position is_newline bytes.now }
{
    bytes.iter().position(|byte| *byte == b'\n')
}

/// How many bytes stand before the first newline, or in all where there is none. It takes no memory.
pub fn width_of(bytes: &[u8]) -> usize
    ensures { result ≡ position_or_len is_newline bytes.now }
{
    newline(bytes).unwrap_or(bytes.len())
}

// The first line, and what follows its newline.
fn first_line(bytes: &[u8]) -> (&[u8], &[u8])
    requires { 0 < length bytes.now }
    ensures lines { lines_of bytes.now ≡ result.0.now ∷ lines_of result.1.now }
    ensures shorter { length result.1.now < length bytes.now }
{
    match newline(bytes) {
        Some(end) => (&bytes[..end], &bytes[end + 1..]),
        None => (bytes, &[]),
    }
}

// The place of the first byte other than `0` and `1`.
fn other(line: &[u8]) -> Option<usize>
    ensures { result ≡ position is_other line.now }
{
    line.iter().position(|byte| *byte != b'0' && *byte != b'1')
}

// Puts the bits of a line behind the others.
fn push_line(bits: &mut Vec<bool>, line: &[u8]) -> Result<(), AllocError>
    ensures { OnOk result (bits.new.items ≡ bits.old.items ++ map is_one line.now) }
{
    for byte in line {
        bits.push(*byte == b'1')?;
    }
    Ok(())
}

// Puts the bits of the line behind `before` others behind theirs, where it has no fault.
fn read_line(
    bits: &mut Vec<bool>,
    line: &[u8],
    width: usize,
    before: usize,
) -> Result<(), StimError>
    requires { before + 1 < 2 ^ 64 }
    ensures ok { OnOk result (bits.new.items ≡ bits.old.items ++ map is_one line.now) }
    ensures wide { OnOk result (length line.now ≡ width) }
    ensures faultless { OnOk result (line_fault width (before + 1) line.now ≡ None) }
    ensures err { IfErr result (λ e. (e ≡ StimError.NoMemory)
        ⊎ (line_fault width (before + 1) line.now ≡ Some e)) }
{
    let number = before as u64 + 1;
    if line.len() != width {
        return Err(StimError::Width { line: number });
    }
    if let Some(place) = other(line) {
        return Err(StimError::Character {
            line: number,
            column: place as u64 + 1,
        });
    }
    push_line(bits, line)?;
    Ok(())
}

/// The rows of a text: each line is one row of `width` characters `0` and `1`, and what follows the last newline
/// is a line where it isn't empty. It errs exactly with the first faulty line, or for want of memory.
pub fn read_stimulus(alloc: Global, bytes: &[u8], width: usize) -> Result<Stimulus, StimError>
    ensures rows { IfOk result (λ rows. rows_of rows ≡ stimulus_rows bytes.now) }
    ensures width { IfOk result (λ rows. rows.width ≡ width) }
    ensures few { IfOk result (λ rows. rows.count ≤ length bytes.now) }
    ensures faultless { OnOk result (fault_of width bytes.now ≡ None) }
    ensures err { IfErr result (λ e. (e ≡ StimError.NoMemory) ⊎ (fault_of width bytes.now ≡ Some e)) }
{
    let mut bits = Vec::with_capacity(alloc, bytes.len())?;
    let mut count = 0;
    let mut rest = bytes;
    while !rest.is_empty() {
        let (line, after) = first_line(rest);
        read_line(&mut bits, line, width, count)?;
        count += 1;
        rest = after;
    }
    Ok(Stimulus {
        width,
        count,
        bits: Sequence::from_vec(bits),
    })
}
