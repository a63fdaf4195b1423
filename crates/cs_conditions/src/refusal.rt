// The conditions on cells, ports, drivers, clocks, starts and memories, asked in order.
ghost use Rattle.std.specs.Prelude.{◌≡◌, IfOk, None, nat_eq, ℕ};
ghost use Rattle.std.specs.List.{list_any};
ghost use Rattle.indexmap.specs.IndexSet.{contains};
ghost use Rattle.cs_modules.specs.Signals.{is_bit};
ghost use Rattle.cs_conditions.specs.Conditions.{bad_pins, clock_as_data, clock_not_input, early_refusal, memory_form, mixed_edges, of_clock, two_clocks};
ghost use Rattle.cs_modules.specs.Modules.{driven_signals, input_bits};
ghost use Rattle.cs_modules.specs.PinBits.{bits_of_cells, clock_bits_of};
ghost use Rattle.cs_conditions.specs.Refusal.{bit_refusal, class_refusal, clock_refusal, driver_refusal, state_refusal, wiring_refusal};

use crate::classes::{asynchronous, not_fine, unknown_cell};
use crate::clocks::{clock_as_data, clock_not_input, mixed_edges, two_clocks};
use crate::constants::const_z;
use crate::drivers::two_drivers;
use crate::error::NetError;
use crate::memories::memory_form;
use crate::pins::bad_pins;
use crate::ports::inout;
use crate::starts::two_starts;
use cs_json::Module;
use cs_modules::{
    ClockBit, PinBit, bits_of_cells, clock_bits, clock_by_pins, driven_numbers, input_numbers,
    number_set,
};
use indexmap::IndexSet;
use std::alloc::{AllocError, Global};

/// The first of the conditions 2 to 14 that holds of a module, told as its refusal: a cell of an unknown type, a coarse or
/// an asynchronous one, a cell with other pins than its type, an inout port, `z` at an input, a bit with two drivers, a
/// clock that is no input bit, two clocks, mixed edges, a clock that is read as data, two starts of one register, or a
/// memory of another form. It errs only where memory runs out.
pub fn early_refusal(alloc: Global, top: &Module) -> Result<Option<NetError>, AllocError>
    ensures { IfOk result (λ found. found ≡ early_refusal top.now) }
{
    if let Some(error) = class_refusal(alloc, top)? {
        return Ok(Some(error));
    }
    wiring_refusal(alloc, top)
}

fn class_refusal(alloc: Global, top: &Module) -> Result<Option<NetError>, AllocError>
    ensures { IfOk result (λ found. found ≡ class_refusal top.now) }
{
    if let Some(error) = unknown_cell(alloc, top)? {
        return Ok(Some(error));
    }
    if let Some(error) = not_fine(alloc, top)? {
        return Ok(Some(error));
    }
    asynchronous(alloc, top)
}

fn wiring_refusal(alloc: Global, top: &Module) -> Result<Option<NetError>, AllocError>
    ensures { IfOk result (λ found. found ≡ wiring_refusal top.now) }
{
    if let Some(error) = bad_pins(alloc, top)? {
        return Ok(Some(error));
    }
    if let Some(error) = inout(alloc, top)? {
        return Ok(Some(error));
    }
    let bits = bits_of_cells(alloc, top.cells.as_slice())?;
    bit_refusal(alloc, top, bits.as_slice())
}

fn bit_refusal(alloc: Global, top: &Module, bits: &[PinBit]) -> Result<Option<NetError>, AllocError>
    requires pins { bad_pins top.now ≡ None }
    requires bits { bits.now ≡ bits_of_cells top.now.cells }
    ensures { IfOk result (λ found. found ≡ bit_refusal top.now) }
{
    if let Some(error) = driver_refusal(alloc, top, bits)? {
        return Ok(Some(error));
    }
    let pins = clock_bits(alloc, bits)?;
    if let Some(error) = clock_refusal(alloc, top, bits, pins.as_slice())? {
        return Ok(Some(error));
    }
    state_refusal(alloc, top, bits)
}

fn driver_refusal(
    alloc: Global,
    top: &Module,
    bits: &[PinBit],
) -> Result<Option<NetError>, AllocError>
    requires { bits.now ≡ bits_of_cells top.now.cells }
    ensures { IfOk result (λ found. found ≡ driver_refusal top.now) }
{
    if let Some(error) = const_z(alloc, top, bits)? {
        return Ok(Some(error));
    }
    let driven = driven_numbers(alloc, top, bits)?;
    two_drivers(alloc, top, driven.as_slice())
}

fn clock_refusal(
    alloc: Global,
    top: &Module,
    bits: &[PinBit],
    pins: &[ClockBit],
) -> Result<Option<NetError>, AllocError>
    requires bits { bits.now ≡ bits_of_cells top.now.cells }
    requires pins { pins.now ≡ clock_bits_of top.now.cells }
    ensures { IfOk result (λ found. found ≡ clock_refusal top.now) }
{
    if let Some(error) = stray_clock(alloc, top, pins)? {
        return Ok(Some(error));
    }
    if let Some(error) = other_clock(top, pins) {
        return Ok(Some(error));
    }
    if let Some(error) = other_edge(alloc, top, pins)? {
        return Ok(Some(error));
    }
    Ok(clock_in_data(top, bits, pins))
}

// The input ports' bits.
fn input_set(alloc: Global, top: &Module) -> Result<IndexSet<u32>, AllocError>
    ensures { IfOk result (λ set. (b : ℕ) → contains nat_eq set b ≡ list_any (is_bit b) (input_bits top.now)) }
{
    let numbers = input_numbers(alloc, top.ports.as_slice())?;
    let set = number_set(alloc, numbers.as_slice())?;
    Ok(set)
}

fn stray_clock(
    alloc: Global,
    top: &Module,
    pins: &[ClockBit],
) -> Result<Option<NetError>, AllocError>
    requires { pins.now ≡ clock_bits_of top.now.cells }
    ensures { IfOk result (λ found. found ≡ clock_not_input top.now) }
{
    let inputs = input_set(alloc, top)?;
    Ok(clock_not_input(top, pins, &inputs))
}

fn other_clock(top: &Module, pins: &[ClockBit]) -> Option<NetError>
    requires { pins.now ≡ clock_bits_of top.now.cells }
    ensures { result ≡ of_clock two_clocks top.now }
{
    match clock_by_pins(top, pins) {
        Some(clock) => two_clocks(clock, top, pins),
        None => None,
    }
}

fn other_edge(
    alloc: Global,
    top: &Module,
    pins: &[ClockBit],
) -> Result<Option<NetError>, AllocError>
    requires { pins.now ≡ clock_bits_of top.now.cells }
    ensures { IfOk result (λ found. found ≡ of_clock mixed_edges top.now) }
{
    match clock_by_pins(top, pins) {
        Some(clock) => mixed_edges(alloc, clock, top, pins),
        None => Ok(None),
    }
}

fn clock_in_data(top: &Module, bits: &[PinBit], pins: &[ClockBit]) -> Option<NetError>
    requires bits { bits.now ≡ bits_of_cells top.now.cells }
    requires pins { pins.now ≡ clock_bits_of top.now.cells }
    ensures { result ≡ of_clock clock_as_data top.now }
{
    match clock_by_pins(top, pins) {
        Some(clock) => clock_as_data(clock, top, bits),
        None => None,
    }
}

// The bits that input ports and cells drive.
fn driven_set(alloc: Global, top: &Module, bits: &[PinBit]) -> Result<IndexSet<u32>, AllocError>
    requires { bits.now ≡ bits_of_cells top.now.cells }
    ensures { IfOk result (λ set. (b : ℕ) → contains nat_eq set b ≡ list_any (is_bit b) (driven_signals top.now)) }
{
    let numbers = driven_numbers(alloc, top, bits)?;
    let set = number_set(alloc, numbers.as_slice())?;
    Ok(set)
}

fn state_refusal(
    alloc: Global,
    top: &Module,
    bits: &[PinBit],
) -> Result<Option<NetError>, AllocError>
    requires pins { bad_pins top.now ≡ None }
    requires bits { bits.now ≡ bits_of_cells top.now.cells }
    ensures { IfOk result (λ found. found ≡ state_refusal top.now) }
{
    match two_starts(alloc, top)? {
        Some(error) => Ok(Some(error)),
        None => memory_refusal(alloc, top, bits),
    }
}

fn memory_refusal(
    alloc: Global,
    top: &Module,
    bits: &[PinBit],
) -> Result<Option<NetError>, AllocError>
    requires pins { bad_pins top.now ≡ None }
    requires bits { bits.now ≡ bits_of_cells top.now.cells }
    ensures { IfOk result (λ found. found ≡ memory_form top.now) }
{
    let driven = driven_set(alloc, top, bits)?;
    memory_form(alloc, top, &driven)
}
