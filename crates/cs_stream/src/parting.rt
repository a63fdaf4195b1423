// The rows of one context.
ghost use Rattle.std.specs.Prelude.{◌≡◌, ◌%◌, ◌<◌, ◌↔◌, IsTrue, IfOk};
ghost use Rattle.cs_base.specs.Parts.{part as part_of_rows};
ghost use Rattle.cs_stream.specs.Rows.{rows_of};

use crate::stimulus::Stimulus;
use cs_base::{Contexts, Sequence};
use std::alloc::{AllocError, Global};

// Whether the row of this place is one of context `k`.
fn is_own(place: usize, k: u32, c: Contexts) -> bool
    ensures { IsTrue result ↔ (place % c ≡ k) }
{
    place % c.get() as usize == k as usize
}

// Room for the bits of one context: no more than there are.
fn room(c: Contexts, rows: &Stimulus) -> usize {
    let all = rows.bits.len();
    (all / c.get() as usize).saturating_add(rows.width).min(all)
}

/// The rows whose place is `k` modulo `c`, in order: those of context `k`. It errs only for want of memory.
pub fn part(alloc: Global, k: u32, c: Contexts, rows: &Stimulus) -> Result<Stimulus, AllocError>
    requires { k < c }
    ensures rows { IfOk result (λ own. rows_of own ≡ part_of_rows k c (rows_of rows.now)) }
    ensures width { IfOk result (λ own. own.width ≡ rows.now.width) }
{
    let mut bits = Vec::with_capacity(alloc, room(c, rows))?;
    let mut count = 0;
    for place in 0..rows.count {
        if is_own(place, k, c) {
            bits.extend_from_slice(rows.row(place))?;
            count += 1;
        }
    }
    Ok(Stimulus {
        width: rows.width,
        count,
        bits: Sequence::from_vec(bits),
    })
}
