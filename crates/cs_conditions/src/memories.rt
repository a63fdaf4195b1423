// Memories that break a rule of this project's profile of Yosys `$mem_v2`.
ghost use Rattle.std.specs.Prelude.{◌≡◌, ℕ, ◌&&◌, ◌==◌, IfOk, MatchOption, None, Some, false, find, nat_eq, nat_lt, not, option_map, take, true};
ghost use Rattle.std.specs.List.{list_all, list_any};
ghost use Rattle.indexmap.specs.IndexSet.{contains};
ghost use Rattle.cs_conditions.specs.Conditions.{are_one, are_zero, bad_pins, broken_rule, has_no_asynchronous_reset, is_broken, is_constant_zero, is_misformed, memory_form, memory_rules, port_rules};
ghost use Rattle.cs_modules.specs.Modules.{driven_signals, is_memory};
ghost use Rattle.cs_modules.specs.Pins.{has_right_pins, is_size, memory_sizes, number_at, parameter};
ghost use Rattle.cs_modules.specs.Digits.{is_nonzero};
ghost use Rattle.cs_modules.specs.Signals.{is_bit};

use crate::error::NetError;
use cs_base::{Signal, Text};
use cs_json::{CellDecl, Module};
use cs_modules::{is_memory, is_nonzero, is_one, is_scope, number_at, parameter, pin_bits};
use indexmap::IndexSet;
use std::alloc::{AllocError, Global};

// The first digits, so many, or all where there are fewer.
fn first_digits(digits: &[u8], count: u64) -> &[u8]
    ensures { result.now ≡ take count digits.now }
{
    if count < digits.len() as u64 {
        &digits[..count as usize]
    } else {
        digits
    }
}

fn are_zero(digits: &[u8], count: u64) -> bool
    ensures { result ≡ are_zero digits.now count }
{
    !is_nonzero(first_digits(digits, count))
}

fn all_one(digits: &[u8]) -> bool
    ensures { result ≡ list_all (λ d. d == 49) digits.now }
{
    digits.iter().all(|digit| *digit == b'1')
}

fn are_one(digits: &[u8], count: u64) -> bool
    ensures { result ≡ are_one digits.now count }
{
    count <= digits.len() as u64 && all_one(first_digits(digits, count))
}

fn is_positive(alloc: Global, cell: &CellDecl, name: &str) -> Result<bool, AllocError>
    ensures { IfOk result (λ is. is ≡ nat_lt 0 (number_at cell.now name.now)) }
{
    Ok(is_nonzero(parameter(alloc, cell, name)?.as_slice()))
}

fn is_zero(alloc: Global, cell: &CellDecl, name: &str) -> Result<bool, AllocError>
    ensures { IfOk result (λ is. is ≡ not (is_nonzero (parameter cell.now name.now))) }
{
    Ok(!is_nonzero(parameter(alloc, cell, name)?.as_slice()))
}

fn begins_with_zeros(
    alloc: Global,
    cell: &CellDecl,
    name: &str,
    count: u64,
) -> Result<bool, AllocError>
    ensures { IfOk result (λ is. is ≡ are_zero (parameter cell.now name.now) count) }
{
    Ok(are_zero(parameter(alloc, cell, name)?.as_slice(), count))
}

fn begins_with_ones(
    alloc: Global,
    cell: &CellDecl,
    name: &str,
    count: u64,
) -> Result<bool, AllocError>
    ensures { IfOk result (λ is. is ≡ are_one (parameter cell.now name.now) count) }
{
    Ok(are_one(parameter(alloc, cell, name)?.as_slice(), count))
}

fn is_constant_zero(signal: Signal, top: &Module, driven: &IndexSet<u32>) -> bool
    requires { (b : ℕ) → contains nat_eq driven.now b ≡ list_any (is_bit b) (driven_signals top.now) }
    ensures { result ≡ is_constant_zero top.now signal }
{
    let _ = top;
    match signal {
        Signal::Zero | Signal::Unknown => true,
        Signal::One | Signal::HighZ => false,
        Signal::Bit(bit) => !driven.contains(&bit.get()),
    }
}

// Whether no clocked read port has an asynchronous reset.
fn has_no_asynchronous_reset(
    alloc: Global,
    cell: &CellDecl,
    top: &Module,
    driven: &IndexSet<u32>,
) -> Result<bool, AllocError>
    requires { (b : ℕ) → contains nat_eq driven.now b ≡ list_any (is_bit b) (driven_signals top.now) }
    ensures { IfOk result (λ has. has ≡ has_no_asynchronous_reset top.now cell.now) }
{
    let clocked = parameter(alloc, cell, "RD_CLK_ENABLE")?;
    let clocked = clocked.as_slice();
    Ok(
        pin_bits(cell.pins.as_slice(), "RD_ARST")
            .iter()
            .enumerate()
            .all(|(port, signal)| !is_one(clocked, port) || is_constant_zero(*signal, top, driven)),
    )
}

// The first parameter of the ports of a memory that is not as it must be.
fn broken_port_parameter(
    alloc: Global,
    cell: &CellDecl,
    top: &Module,
    driven: &IndexSet<u32>,
) -> Result<Option<&'static str>, AllocError>
    requires sizes { list_all (is_size cell.now) memory_sizes ≡ true }
    requires driven { (b : ℕ) → contains nat_eq driven.now b ≡ list_any (is_bit b) (driven_signals top.now) }
    ensures { IfOk result (λ name. option_map (λ n. n.now) name ≡ option_map (λ rule. rule.0) (find is_broken (port_rules top.now cell.now))) }
{
    let reads = u64::from(number_at(alloc, cell, "RD_PORTS")?);
    let writes = u64::from(number_at(alloc, cell, "WR_PORTS")?);
    if !begins_with_zeros(alloc, cell, "RD_TRANSPARENCY_MASK", reads * writes)? {
        return Ok(Some("RD_TRANSPARENCY_MASK"));
    }
    if !begins_with_zeros(alloc, cell, "RD_WIDE_CONTINUATION", reads)? {
        return Ok(Some("RD_WIDE_CONTINUATION"));
    }
    if !begins_with_zeros(alloc, cell, "WR_WIDE_CONTINUATION", writes)? {
        return Ok(Some("WR_WIDE_CONTINUATION"));
    }
    if !has_no_asynchronous_reset(alloc, cell, top, driven)? {
        return Ok(Some("RD_ARST"));
    }
    if !begins_with_ones(alloc, cell, "WR_CLK_ENABLE", writes)? {
        return Ok(Some("WR_CLK_ENABLE"));
    }
    Ok(None)
}

// The first parameter of a memory that is not as it must be.
fn broken_parameter(
    alloc: Global,
    cell: &CellDecl,
    top: &Module,
    driven: &IndexSet<u32>,
) -> Result<Option<&'static str>, AllocError>
    requires sizes { list_all (is_size cell.now) memory_sizes ≡ true }
    requires driven { (b : ℕ) → contains nat_eq driven.now b ≡ list_any (is_bit b) (driven_signals top.now) }
    ensures { IfOk result (λ name. option_map (λ n. n.now) name ≡ option_map (λ rule. rule.0) (find is_broken (memory_rules top.now cell.now))) }
{
    if !is_positive(alloc, cell, "SIZE")? {
        return Ok(Some("SIZE"));
    }
    if !is_positive(alloc, cell, "WIDTH")? {
        return Ok(Some("WIDTH"));
    }
    if !is_zero(alloc, cell, "OFFSET")? {
        return Ok(Some("OFFSET"));
    }
    broken_port_parameter(alloc, cell, top, driven)
}

// Refuses a cell that is a memory and breaks a rule.
fn misformed(
    alloc: Global,
    cell: &CellDecl,
    top: &Module,
    driven: &IndexSet<u32>,
) -> Result<Option<NetError>, AllocError>
    requires right { has_right_pins cell.now ≡ true }
    requires driven { (b : ℕ) → contains nat_eq driven.now b ≡ list_any (is_bit b) (driven_signals top.now) }
    ensures { IfOk result (λ found. MatchOption found
        (is_misformed top.now cell.now ≡ false)
        (λ error. (is_misformed top.now cell.now ≡ true) × (broken_rule top.now cell.now ≡ Some error))) }
{
    if !is_memory(cell) {
        return Ok(None);
    }
    let Some(parameter) = broken_parameter(alloc, cell, top, driven)? else {
        return Ok(None);
    };
    Ok(Some(NetError::MemoryForm {
        name: cell.name.copy(alloc)?,
        parameter: Text::from_str(alloc, parameter)?,
    }))
}

/// Refuses a memory that breaks a rule.
pub(crate) fn memory_form(
    alloc: Global,
    top: &Module,
    driven: &IndexSet<u32>,
) -> Result<Option<NetError>, AllocError>
    requires right { bad_pins top.now ≡ None }
    requires driven { (b : ℕ) → contains nat_eq driven.now b ≡ list_any (is_bit b) (driven_signals top.now) }
    ensures { IfOk result (λ found. found ≡ memory_form top.now) }
{
    for cell in top.cells.as_slice() {
        if is_scope(cell) {
            continue;
        }
        if let Some(error) = misformed(alloc, cell, top, driven)? {
            return Ok(Some(error));
        }
    }
    Ok(None)
}
