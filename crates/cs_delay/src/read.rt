// Bytes to a delay table.
ghost use Rattle.std.specs.Prelude.{◌≡◌, ◌⊎◌, IfOk, IsErrOf, IsOkAnd, List, ℕ};
ghost use Rattle.serde_json.specs.View.{view};
ghost use Rattle.cs_json.specs.declared.document.Place.{Place as PlaceValue};
ghost use Rattle.cs_json.proofs.Ordered.{IsOrdered};
ghost use Rattle.cs_delay.specs.Gives.{Answers};
ghost use Rattle.cs_delay.specs.Shape.{written, bounded, reading_of, table_of, parts, Says, RefusedAt, Exceeds, NoJson};
ghost use Rattle.cs_delay.specs.Tables.{HasPinsInOrder, HasTypesInOrder, too_large};
ghost use Rattle.cs_delay.specs.declared.written.Written.{Written as WrittenValue};

use crate::bound::too_large;
use crate::error::DelayError;
use crate::shape::written;
use crate::table::DelayTable;
use crate::written::Written;
use cs_base::Text;
use cs_json::{Place, ReadError, json_value};
use serde_json::Value;
use std::alloc::Global;

// The table, where no delay is too large.
fn bounded(alloc: Global, table: Written) -> Result<DelayTable, DelayError>
    requires types { HasTypesInOrder table.entries }
    requires pins { HasPinsInOrder table.entries }
    ensures { Answers result (bounded (too_large table.fallback table.entries) table) }
{
    if let Some(kind) = too_large(table.fallback, table.entries.as_slice()) {
        return Err(DelayError::TooLarge {
            kind: Text::from_str(alloc, kind)?,
        });
    }
    Ok(DelayTable {
        version: table.version,
        entries: table.entries,
        fallback: table.fallback,
    })
}

fn table(alloc: Global, value: &Value) -> Result<DelayTable, DelayError>
    requires { IsOrdered (view value.now) }
    ensures { Answers result (reading_of (written (view value.now))) }
{
    match written(alloc, value) {
        Ok(table) => bounded(alloc, table),
        Err(ReadError::NoMemory) => Err(DelayError::NoMemory),
        Err(ReadError::Refused(path)) => Err(DelayError::BadShape { at: Place { path } }),
    }
}

fn answer(alloc: Global, bytes: &[u8]) -> Result<DelayTable, DelayError>
    ensures { Answers result (table_of bytes.now) }
{
    let Some(value) = json_value(alloc, bytes)? else {
        return Err(DelayError::NotJson);
    };
    table(alloc, &value)
}

/// Reads a delay table from the bytes of a file.
///
/// It errs where the bytes are no JSON that `serde_json` reads, at the first place that no delay table may have,
/// then where a delay is above 1,000,000, and where memory runs out. The tree of values is walked once, in byte
/// order of keys.
pub fn read_delays(alloc: Global, bytes: &[u8]) -> Result<DelayTable, DelayError>
    ensures ok { IfOk result (λ table. table_of bytes.now ≡ Says (parts table)) }
    ensures not_json { IsErrOf result DelayError.NotJson → table_of bytes.now ≡ NoJson }
    ensures bad_shape { (at : PlaceValue) → IsErrOf result (DelayError.BadShape at)
        → table_of bytes.now ≡ RefusedAt at }
    ensures too_large { (kind : List ℕ) → IsErrOf result (DelayError.TooLarge kind)
        → table_of bytes.now ≡ Exceeds kind }
    ensures no_delay { (kind : List ℕ) → ¬ IsErrOf result (DelayError.NoDelay kind) }

    // The other way, each answer comes unless memory ran out.
    ensures ok_comes { (w : WrittenValue) → table_of bytes.now ≡ Says w
        → IsOkAnd result (λ table. parts table ≡ w) ⊎ IsErrOf result DelayError.NoMemory }
    ensures not_json_comes { table_of bytes.now ≡ NoJson
        → IsErrOf result DelayError.NotJson ⊎ IsErrOf result DelayError.NoMemory }
    ensures bad_shape_comes { (at : PlaceValue) → table_of bytes.now ≡ RefusedAt at
        → IsErrOf result (DelayError.BadShape at) ⊎ IsErrOf result DelayError.NoMemory }
    ensures too_large_comes { (kind : List ℕ) → table_of bytes.now ≡ Exceeds kind
        → IsErrOf result (DelayError.TooLarge kind) ⊎ IsErrOf result DelayError.NoMemory }
{
    answer(alloc, bytes)
}
