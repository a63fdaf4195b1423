// The delays that a table gives a machine.
ghost use Rattle.std.specs.Prelude.{◌≡◌, ◌⊎◌, IfErr, IfOk, IsErrOf, IsOk, List, None, Some, ℕ};
ghost use Rattle.cs_graph.specs.Period.{AreDelaysOf};
ghost use Rattle.cs_delay.specs.Assigned.{AreAssigned, missing};

use crate::error::DelayError;
use crate::missing::missing;
use crate::table::DelayTable;
use crate::vertices::delays_of;
use cs_base::Text;
use cs_graph::{Delays, Machine};
use std::alloc::Global;

/// The delays of a machine's vertices and pins by a table.
///
/// A gate has its type's delay for each pin, and the greatest of them at the vertex; a Read has that of `$mem_v2`,
/// for the pin `RD_ADDR`, at the vertex and at each pin; all others have 0. It errs where a type that a vertex has
/// lacks a delay, with the first such type in byte order, and where memory runs out.
pub fn assign(alloc: Global, table: &DelayTable, machine: &Machine) -> Result<Delays, DelayError>
    ensures ok { IfOk result (λ delays. AreAssigned table.now machine.now delays) }
    ensures complete { IfOk result (λ _. missing table.now machine.now ≡ None) }
    ensures fits { IfOk result (λ delays. AreDelaysOf machine.now delays) }
    ensures no_delay { (kind : List ℕ) → IsErrOf result (DelayError.NoDelay kind)
        → missing table.now machine.now ≡ Some kind }
    ensures only { IfErr result (λ e. (e ≡ DelayError.NoMemory) ⊎ ((kind : List ℕ) × (e ≡ DelayError.NoDelay kind))) }

    // The other way, each answer comes unless memory ran out.
    ensures ok_comes { missing table.now machine.now ≡ None
        → IsOk result ⊎ IsErrOf result DelayError.NoMemory }
    ensures no_delay_comes { (kind : List ℕ) → missing table.now machine.now ≡ Some kind
        → IsErrOf result (DelayError.NoDelay kind) ⊎ IsErrOf result DelayError.NoMemory }
{
    machine.keeps();
    match missing(table, machine) {
        Some(kind) => Err(DelayError::NoDelay {
            kind: Text::from_str(alloc, kind)?,
        }),
        None => Ok(delays_of(alloc, table, machine)?),
    }
}
