// Improvement of what is known of a vertex: fewer registers, or as many and a greater delay.
ghost use Rattle.std.specs.Prelude.{◌≡◌, ◌<◌, OnOk, length};
ghost use Rattle.cs_paths.specs.Searches.{Improves, Tells};
ghost use Rattle.cs_paths.specs.Waitings.{CanWait};

use crate::reach::Reach;
use crate::waiting::Waiting;
use cs_base::VertexId;
use std::alloc::AllocError;

/// How a path that is new compares with what is known.
#[derive(Clone, Copy, Debug, PartialEq, Eq)]
pub enum Improvement {
    /// As good is known.
    Nothing,
    /// It has as many registers and a greater delay.
    Delay,
    /// It has fewer registers, or is the first.
    Weight,
}

/// How the registers and the delay of a new path compare with those that are known.
fn compared(known: Option<(u32, u32)>, new: (u32, u32)) -> Improvement
    ensures { Tells known new result }
{
    let Some((weight, delay)) = known else {
        return Improvement::Weight;
    };
    if new.0 < weight {
        Improvement::Weight
    } else if new.0 == weight && delay < new.1 {
        Improvement::Delay
    } else {
        Improvement::Nothing
    }
}

/// Keeps the registers and the delay of a new path to v where they are better. Where the registers are fewer, v,
/// at this place of the order, waits.
pub(crate) fn improve(
    row: &mut [Reach],
    waiting: &mut Waiting,
    v: VertexId,
    place: u32,
    new: (u32, u32),
) -> Result<(), AllocError>
    requires vertex { v < length row.old }
    requires waits { CanWait waiting.old (new.0, place) }
    ensures count { length row.new ≡ length row.old }
    ensures improves { OnOk result (Improves v place new row.old waiting.old row.new waiting.new) }
{
    let index = v.get() as usize;
    match compared(row[index].get(), new) {
        Improvement::Nothing => Ok(()),
        Improvement::Delay => {
            row[index] = Reach::some(new.0, new.1);
            Ok(())
        }
        Improvement::Weight => {
            row[index] = Reach::some(new.0, new.1);
            waiting.push(new.0, place)
        }
    }
}
