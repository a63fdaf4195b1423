// Streams in turn.
ghost use Rattle.std.specs.Prelude.{◌≡◌, ◌⊎◌, ◌*◌, ◌^◌, ◌<◌, ◌≤◌, ℕ, [], None, Some, IfOk, IfErr, OnOk, All, length, map, sum, slice_index_or};
ghost use Rattle.cs_base.specs.Parts.{part};
ghost use Rattle.cs_stream.specs.Rows.{rows_of, rows_within};
ghost use Rattle.cs_stream.specs.Mixing.{counts_of, first_uneven, uneven_fault, mixed_row, mixed_rows, AreOfOneWidth, AreShort};

use crate::error::StimError;
use crate::stimulus::Stimulus;
use cs_base::Sequence;
use std::alloc::{AllocError, Global};

// The number of rows of all streams.
fn total_count(streams: &[Stimulus]) -> usize
    requires few { length streams.now ≤ 16 }
    requires short { AreShort streams.now }
    ensures total { result ≡ sum (counts_of streams.now) }
    ensures small { result ≤ 2 ^ 36 }
{
    let mut total = 0;
    for stream in streams {
        total += stream.count;
    }
    total
}

// The first stream that has another number of rows than turns.
fn uneven(streams: &[Stimulus], total: usize) -> Option<u32>
    requires few { length streams.now ≤ 16 }
    requires total { total ≡ sum (counts_of streams.now) }
    requires small { total ≤ 2 ^ 36 }
    ensures { result ≡ first_uneven (counts_of streams.now) }
{
    let contexts = streams.len();
    for (k, stream) in streams.iter().enumerate() {
        if stream.count != (total + contexts - 1 - k) / contexts {
            return Some(k as u32);
        }
    }
    None
}

// The row at this place: the next one of the stream whose turn it is.
#[tactic(auto, using(crate::proofs::MixLemmas::place_has_row, crate::proofs::MixLemmas::mixed_row_is))]
fn row_in_turn(streams: &[Stimulus], place: usize) -> &[bool]
    requires some { 1 ≤ length streams.now }
    requires even { first_uneven (counts_of streams.now) ≡ None }
    requires within { place < sum (counts_of streams.now) }
    ensures { result.now ≡ mixed_row (map rows_of streams.now) place }
{
    let contexts = streams.len();
    let stream = &streams[place % contexts];
    stream.row(place / contexts)
}

// The bits of the mixed rows.
fn mixed_bits(
    alloc: Global,
    streams: &[Stimulus],
    width: usize,
    total: usize,
) -> Result<Vec<bool>, AllocError>
    requires widths { All (λ stream. stream.width ≡ width) streams.now }
    requires even { first_uneven (counts_of streams.now) ≡ None }
    requires total { total ≡ sum (counts_of streams.now) }
    requires some { 1 ≤ length streams.now }
    ensures rows { IfOk result (λ bits. rows_within total width bits.items
        ≡ mixed_rows (map rows_of streams.now)) }
    ensures whole { IfOk result (λ bits. length bits.items ≡ total * width) }
{
    let mut bits = Vec::with_capacity(alloc, total.saturating_mul(width))?;
    for place in 0..total {
        bits.extend_from_slice(row_in_turn(streams, place))?;
    }
    Ok(bits)
}

/// The rows of the streams in turn: with C streams row n is row n / C of stream n mod C, and stream k is the rows
/// whose place is k modulo C. It errs exactly with the first stream that has another number of rows than it has
/// turns, or for want of memory.
pub fn mix(alloc: Global, streams: &[Stimulus]) -> Result<Stimulus, StimError>
    requires some { 1 ≤ length streams.now }
    requires few { length streams.now ≤ 16 }
    requires widths { AreOfOneWidth streams.now }
    requires short { AreShort streams.now }
    ensures rows { IfOk result (λ rows. rows_of rows ≡ mixed_rows (map rows_of streams.now)) }
    ensures width { IfOk result (λ rows. All (λ stream. stream.width ≡ rows.width) streams.now) }
    ensures parts { IfOk result (λ rows. (k : ℕ) → k < length streams.now
        → part k (length streams.now) (rows_of rows) ≡ slice_index_or (map rows_of streams.now) k []) }
    ensures even { OnOk result (uneven_fault streams.now ≡ None) }
    ensures err { IfErr result (λ e. (e ≡ StimError.NoMemory) ⊎ (uneven_fault streams.now ≡ Some e)) }
{
    let total = total_count(streams);
    if let Some(stream) = uneven(streams, total) {
        return Err(StimError::Uneven { stream });
    }
    let width = streams[0].width;
    let bits = mixed_bits(alloc, streams, width, total)?;
    Ok(Stimulus {
        width,
        count: total,
        bits: Sequence::from_vec(bits),
    })
}
