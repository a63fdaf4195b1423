// The initial value of each register: the first that a net's `init` gives its output.
ghost use Rattle.std.specs.Prelude.{◌≡◌, ℕ, IfOk, OnOk, [], codes, None, filter_map, flat_map, if◌then◌else◌, nat_eq, slice_get};
ghost use Rattle.std.specs.List.{enumerate_from};
ghost use Rattle.std.specs.Option.{option_or};
ghost use Rattle.std.specs.HashMap.{get};
ghost use Rattle.cs_net.specs.Build.{net_of};
ghost use Rattle.cs_modules.specs.Digits.{init_digit};
ghost use Rattle.cs_modules.specs.Signals.{is_bit};
ghost use Rattle.cs_modules.specs.Modules.{init_values_in, is_register};
ghost use Rattle.cs_net.specs.Netlist.{bit_at};
ghost use Rattle.cs_modules.specs.Pins.{class_at, pin_bits};
ghost use Rattle.cs_net.specs.Starts.{noted_value, start_by};

use crate::state::BitValue;
use cs_base::{Sequence, Signal};
use cs_json::{CellDecl, Module};
use cs_modules::{first_values, is_register, note, pin_bits};
use std::alloc::{AllocError, Global};
use std::collections::HashMap;

fn start_of(firsts: &HashMap<u32, bool>, signal: Signal) -> Option<BitValue>
    ensures { result ≡ start_by (noted_value firsts.now) signal }
{
    match signal {
        Signal::Bit(bit) => Some(BitValue {
            bit,
            value: firsts.get(&bit.get()).copied().unwrap_or(false),
        }),
        _ => None,
    }
}

// The starts of a register's output.
fn output_starts(
    alloc: Global,
    firsts: &HashMap<u32, bool>,
    cell: &CellDecl,
) -> Result<Vec<BitValue>, AllocError>
    ensures { IfOk result (λ starts. starts.items
        ≡ filter_map (start_by (noted_value firsts.now)) (pin_bits cell.now.pins (codes "Q"))) }
{
    pin_bits(cell.pins.as_slice(), "Q")
        .iter()
        .filter_map(|signal| start_of(firsts, *signal))
        .collect(alloc)
}

fn starts_by(
    alloc: Global,
    firsts: &HashMap<u32, bool>,
    cells: &[CellDecl],
) -> Result<Vec<BitValue>, AllocError>
    ensures { IfOk result (λ starts. starts.items
        ≡ flat_map (λ cell. if is_register (class_at cell) then filter_map (start_by (noted_value firsts.now)) (pin_bits cell.pins (codes "Q")) else []) cells.now) }
{
    let mut starts = Vec::new(alloc);
    for cell in cells {
        if is_register(cell) {
            starts.extend_from_slice(output_starts(alloc, firsts, cell)?.as_slice())?;
        }
    }
    Ok(starts)
}

/// Each register's output with its initial value, cell by cell.
pub(crate) fn initial_values(alloc: Global, top: &Module) -> Result<Sequence<BitValue>, AllocError>
    ensures { IfOk result (λ starts. starts ≡ (net_of top.now).starts) }
{
    let firsts = first_values(alloc, top.nets.as_slice())?;
    let starts = starts_by(alloc, &firsts, top.cells.as_slice())?;
    Ok(Sequence::from_vec(starts))
}

/// The first value that a list gives to each bit.
pub(crate) fn value_map(
    alloc: Global,
    values: &[BitValue],
) -> Result<HashMap<u32, bool>, AllocError>
    ensures { IfOk result (λ map. (b : ℕ) → noted_value map b ≡ bit_at values.now b) }
{
    let mut firsts = HashMap::new(alloc);
    for value in values {
        note(&mut firsts, Signal::Bit(value.bit), value.value)?;
    }
    Ok(firsts)
}
