// The parameters of memories.
ghost use Rattle.std.specs.Prelude.{◌≡◌, ◌++◌, [], ◌∷◌, ◌<◌, ◌^◌, false, true, IfOk, OnOk, length};
ghost use Rattle.cs_circuit.specs.Cells.{text_entry};
ghost use Rattle.cs_circuit.specs.MemoryCells.{memory_entries, number_text, read_entries, same_digits, write_entries};

use crate::cells::{add_text, is_rising, numbered};
use crate::circuit::MemoryPart;
use crate::digits::{digits_text, number_text, priorities_text, same_digits};
use cs_base::{Sequence, Text};
use cs_json::Entry;
use cs_modules::Clock;
use std::alloc::{AllocError, Global};

fn add_zeros(
    alloc: Global,
    entries: &mut Sequence<Entry>,
    name: &str,
    count: usize,
) -> Result<(), AllocError>
    ensures { OnOk result (entries.new ≡ entries.old ++ text_entry name.now (same_digits count false) ∷ []) }
{
    let text = same_digits(alloc, count, false)?;
    add_text(alloc, entries, name, text)
}

fn add_number(
    alloc: Global,
    entries: &mut Sequence<Entry>,
    name: &str,
    number: usize,
) -> Result<(), AllocError>
    ensures { OnOk result (entries.new ≡ entries.old ++ text_entry name.now (number_text number) ∷ []) }
{
    let text = number_text(alloc, number)?;
    add_text(alloc, entries, name, text)
}

// The parameters of n read ports beside m write ports.
fn add_read_entries(
    alloc: Global,
    entries: &mut Sequence<Entry>,
    n: usize,
    m: usize,
    width: u32,
) -> Result<(), AllocError>
    requires reads { n < 2 ^ 32 }
    requires writes { m < 2 ^ 32 }
    ensures { OnOk result (entries.new ≡ entries.old ++ read_entries n m width) }
{
    let words = n * width as usize;
    let pairs = n * m;
    add_zeros(alloc, entries, "RD_ARST_VALUE", words)?;
    add_zeros(alloc, entries, "RD_CE_OVER_SRST", n)?;
    add_zeros(alloc, entries, "RD_CLK_ENABLE", n)?;
    add_zeros(alloc, entries, "RD_CLK_POLARITY", n)?;
    add_zeros(alloc, entries, "RD_COLLISION_X_MASK", pairs)?;
    add_zeros(alloc, entries, "RD_INIT_VALUE", words)?;
    add_number(alloc, entries, "RD_PORTS", n)?;
    add_zeros(alloc, entries, "RD_SRST_VALUE", words)?;
    add_zeros(alloc, entries, "RD_TRANSPARENCY_MASK", pairs)?;
    add_zeros(alloc, entries, "RD_WIDE_CONTINUATION", n)
}

// A digit 1 for each write port: all are clocked.
fn clock_enables(alloc: Global, m: usize) -> Result<Text, AllocError>
    ensures { IfOk result (λ text. text ≡ same_digits m true) }
{
    same_digits(alloc, m, true)
}

// The parameters of m write ports.
fn add_write_entries(
    alloc: Global,
    entries: &mut Sequence<Entry>,
    m: usize,
    rising: bool,
) -> Result<(), AllocError>
    ensures { OnOk result (entries.new ≡ entries.old ++ write_entries m rising) }
{
    let ones = clock_enables(alloc, m)?;
    add_text(alloc, entries, "WR_CLK_ENABLE", ones)?;
    let edges = same_digits(alloc, m, rising)?;
    add_text(alloc, entries, "WR_CLK_POLARITY", edges)?;
    add_number(alloc, entries, "WR_PORTS", m)?;
    let mask = priorities_text(alloc, m)?;
    add_text(alloc, entries, "WR_PRIORITY_MASK", mask)?;
    add_zeros(alloc, entries, "WR_WIDE_CONTINUATION", m)
}

/// The parameters of memory i.
pub(crate) fn memory_entries(
    alloc: Global,
    clock: Option<Clock>,
    i: usize,
    memory: &MemoryPart,
) -> Result<Sequence<Entry>, AllocError>
    requires reads { length memory.now.reads < 2 ^ 32 }
    requires writes { length memory.now.writes < 2 ^ 32 }
    ensures { IfOk result (λ entries. entries ≡ memory_entries clock i memory.now) }
{
    let reads = memory.reads.len();
    let writes = memory.writes.len();
    let mut entries = Sequence::new(alloc);
    add_number(alloc, &mut entries, "ABITS", memory.abits as usize)?;
    let start = digits_text(alloc, memory.start.as_slice())?;
    add_text(alloc, &mut entries, "INIT", start)?;
    let id = numbered(alloc, "\\cs_m", i)?;
    add_text(alloc, &mut entries, "MEMID", id)?;
    add_number(alloc, &mut entries, "OFFSET", 0)?;
    add_read_entries(alloc, &mut entries, reads, writes, memory.width)?;
    add_number(alloc, &mut entries, "SIZE", memory.words as usize)?;
    add_number(alloc, &mut entries, "WIDTH", memory.width as usize)?;
    add_write_entries(alloc, &mut entries, writes, is_rising(clock))?;
    Ok(entries)
}
