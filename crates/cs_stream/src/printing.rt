// Stimuli and responses as texts.
ghost use Rattle.std.specs.Prelude.{◌≡◌, ◌++◌, IfOk, OnOk};
ghost use Rattle.cs_stream.specs.Rows.{rows_of};
ghost use Rattle.cs_stream.specs.Printing.{row_text, response_text};

use crate::stimulus::Stimulus;
use std::alloc::{AllocError, Global};

// Puts a row's line behind the others.
fn push_row(text: &mut Vec<u8>, row: &[bool]) -> Result<(), AllocError>
    ensures { OnOk result (text.new.items ≡ text.old.items ++ row_text row.now) }
{
    for bit in row {
        text.push(if *bit { b'1' } else { b'0' })?;
    }
    text.push(b'\n')?;
    Ok(())
}

/// The text of rows: each is a line of the characters `0` and `1`, with a newline. It errs only for want of memory.
pub fn print_response(alloc: Global, rows: &Stimulus) -> Result<Vec<u8>, AllocError>
    ensures text { IfOk result (λ text. text.items ≡ response_text (rows_of rows.now)) }
{
    let bytes = rows.bits.len().saturating_add(rows.count);
    let mut text = Vec::with_capacity(alloc, bytes)?;
    for place in 0..rows.count {
        push_row(&mut text, rows.row(place))?;
    }
    Ok(text)
}
