// Initial values of registers: no bit is given both 0 and 1.
ghost use Rattle.std.specs.Prelude.{◌≡◌, ℕ, ◌==◌, filter, filter_map, IfOk, nat_eq};
ghost use Rattle.std.specs.List.{flat_map, list_any};
ghost use Rattle.indexmap.specs.IndexSet.{contains};
ghost use Rattle.cs_conditions.specs.Conditions.{has_two_starts, two_starts};
ghost use Rattle.cs_modules.specs.Modules.{is_register, register_bits};
ghost use Rattle.cs_modules.specs.Pins.{pin_bits};
ghost use Rattle.cs_conditions.specs.InitialNumbers.{given_number, numbers_given, register_numbers_of};

use crate::error::NetError;
use crate::numbers::least_of;
use cs_base::{BitId, Signal};
use cs_json::{CellDecl, Module, NetDecl};
use cs_modules::{digits_at, init_digit, is_register, number_in, number_set, numbers_in, pin_bits};
use indexmap::IndexSet;
use std::alloc::{AllocError, Global};

fn given_number(value: bool, digit: Option<bool>, signal: Signal) -> Option<u32>
    ensures { result ≡ given_number value digit signal }
{
    match digit {
        Some(found) => if found == value {
            number_in(signal)
        } else {
            None
        },
        None => None,
    }
}

fn numbers_given_by_net(alloc: Global, value: bool, net: &NetDecl) -> Result<Vec<u32>, AllocError>
    ensures { IfOk result (λ numbers. numbers.items ≡ numbers_given value net.now) }
{
    let digits = digits_at(alloc, "init", net.attributes.as_slice())?;
    let digits = digits.as_slice();
    net.bits
        .as_slice()
        .iter()
        .enumerate()
        .filter_map(|(place, signal)| given_number(value, init_digit(digits, place), *signal))
        .collect(alloc)
}

// The numbers of the bits to which nets give this initial value.
fn numbers_given(alloc: Global, value: bool, nets: &[NetDecl]) -> Result<Vec<u32>, AllocError>
    ensures { IfOk result (λ numbers. numbers.items ≡ flat_map (numbers_given value) nets.now) }
{
    let mut numbers = Vec::new(alloc);
    for net in nets {
        numbers.extend_from_slice(numbers_given_by_net(alloc, value, net)?.as_slice())?;
    }
    Ok(numbers)
}

fn register_numbers(alloc: Global, cells: &[CellDecl]) -> Result<Vec<u32>, AllocError>
    ensures { IfOk result (λ numbers. numbers.items ≡ register_numbers_of cells.now) }
{
    let mut numbers = Vec::new(alloc);
    for cell in cells {
        if is_register(cell) {
            numbers.extend_from_slice(numbers_in(
                alloc,
                pin_bits(cell.pins.as_slice(), "Q"),
            )?.as_slice())?;
        }
    }
    Ok(numbers)
}

// Those of some numbers that are in a set.
fn in_set(alloc: Global, numbers: &[u32], set: &IndexSet<u32>) -> Result<Vec<u32>, AllocError>
    ensures { IfOk result (λ found. found.items ≡ filter (contains nat_eq set.now) numbers.now) }
{
    numbers
        .iter()
        .copied()
        .filter(|number| set.contains(number))
        .collect(alloc)
}

// The set of the bits to which nets give this initial value.
fn given_set(alloc: Global, value: bool, nets: &[NetDecl]) -> Result<IndexSet<u32>, AllocError>
    ensures { IfOk result (λ set. (b : ℕ) → contains nat_eq set b ≡ list_any (λ a. a == b) (flat_map (numbers_given value) nets.now)) }
{
    let numbers = numbers_given(alloc, value, nets)?;
    number_set(alloc, numbers.as_slice())
}

// Those of some bits to which nets give this initial value.
fn given_among(
    alloc: Global,
    value: bool,
    nets: &[NetDecl],
    numbers: &[u32],
) -> Result<Vec<u32>, AllocError>
    ensures { IfOk result (λ found. found.items
        ≡ filter (λ b. list_any (λ a. a == b) (flat_map (numbers_given value) nets.now)) numbers.now) }
{
    let given = given_set(alloc, value, nets)?;
    in_set(alloc, numbers, &given)
}

// The registers' bits that are given both 0 and 1.
fn doubly_given(alloc: Global, top: &Module) -> Result<Vec<u32>, AllocError>
    ensures { IfOk result (λ bits. bits.items ≡ filter (has_two_starts top.now) (register_bits top.now)) }
{
    let nets = top.nets.as_slice();
    let registers = register_numbers(alloc, top.cells.as_slice())?;
    let zeros = given_among(alloc, false, nets, registers.as_slice())?;
    given_among(alloc, true, nets, zeros.as_slice())
}

/// Refuses a register whose bit Q is given both 0 and 1 as its initial value, the least such bit.
pub(crate) fn two_starts(alloc: Global, top: &Module) -> Result<Option<NetError>, AllocError>
    ensures { IfOk result (λ found. found ≡ two_starts top.now) }
{
    match least_of(doubly_given(alloc, top)?.as_slice()) {
        None => Ok(None),
        Some(bit) => Ok(Some(NetError::TwoStarts {
            bit: BitId::new(bit),
        })),
    }
}
