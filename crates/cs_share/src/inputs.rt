// The numbers that the bits of input ports get, from 2 on.
ghost use Rattle.std.specs.Prelude.{◌≡◌, ◌+◌, ◌<◌, ◌^◌, ◌∷◌, ◌++◌, [], IfOk, OnOk, length};
ghost use Rattle.cs_net.specs.Drivers.{is_clock};
ghost use Rattle.cs_share.specs.Inputs.{data_among, number_among, written_among};
ghost use Rattle.cs_share.specs.Ports.{input_signals};

use cs_base::{BitId, Signal};
use cs_modules::{Clock, is_bit, is_input};
use cs_net::Port;
use std::alloc::{AllocError, Global};

/// The number of the first bit.
pub(crate) const FIRST_NUMBER: u32 = 2;

/// The bits of the input ports, port by port and least first, the clock among them.
pub(crate) fn input_signals(alloc: Global, ports: &[Port]) -> Result<Vec<Signal>, AllocError>
    ensures { IfOk result (λ signals. signals.items ≡ input_signals ports.now) }
{
    let mut signals = Vec::new(alloc);
    for port in ports {
        if is_input(port.direction) {
            signals.extend_from_slice(port.bits.as_slice())?;
        }
    }
    Ok(signals)
}

fn is_clock(clock: Option<Clock>, signal: Signal) -> bool
    ensures { result ≡ is_clock clock signal }
{
    match clock {
        Some(clock) => is_bit(clock.bit.get(), signal),
        None => false,
    }
}

// Pushes the number of an input bit that is not the clock.
fn push_data(
    numbers: &mut Vec<u32>,
    clock: Option<Clock>,
    number: u32,
    signal: Signal,
) -> Result<(), AllocError>
    ensures { OnOk result (numbers.new.items ≡ numbers.old.items ++ data_among clock number (signal ∷ [])) }
{
    if is_clock(clock, signal) {
        return Ok(());
    }
    numbers.push(number)?;
    Ok(())
}

/// The numbers of those of these input bits that are not the clock.
pub(crate) fn data_numbers(
    alloc: Global,
    clock: &Option<Clock>,
    inputs: &[Signal],
) -> Result<Vec<u32>, AllocError>
    requires { 2 + length inputs.now < 2 ^ 32 }
    ensures { IfOk result (λ numbers. numbers.items ≡ data_among clock.now 2 inputs.now) }
{
    let mut numbers = Vec::new(alloc);
    for (i, signal) in inputs.iter().enumerate() {
        push_data(&mut numbers, *clock, i as u32 + FIRST_NUMBER, *signal)?;
    }
    Ok(numbers)
}

// The number of a bit, if it is one of these input bits.
fn number_among(inputs: &[Signal], bit: BitId) -> Option<BitId>
    requires { 2 + length inputs.now < 2 ^ 32 }
    ensures { result ≡ number_among bit 2 inputs.now }
{
    for (i, signal) in inputs.iter().enumerate() {
        if is_bit(bit.get(), *signal) {
            return Some(BitId::new(i as u32 + FIRST_NUMBER));
        }
    }
    None
}

/// The clock by its number among these input bits.
pub(crate) fn written_clock(inputs: &[Signal], clock: Option<Clock>) -> Option<Clock>
    requires { 2 + length inputs.now < 2 ^ 32 }
    ensures { result ≡ written_among clock inputs.now }
{
    match clock {
        Some(clock) => match number_among(inputs, clock.bit) {
            Some(bit) => Some(Clock {
                bit,
                rising: clock.rising,
            }),
            None => None,
        },
        None => None,
    }
}
