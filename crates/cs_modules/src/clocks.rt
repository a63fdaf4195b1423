// The clock of a module: the bit and the edge of its first clock pin.
ghost use Rattle.std.specs.Prelude.{◌≡◌, filter_map, IfOk, None};
ghost use Rattle.cs_modules.specs.Signals.{number_in};
ghost use Rattle.cs_modules.specs.Modules.{clock_of};
ghost use Rattle.cs_modules.specs.PinBits.{bits_of_cells, clock_bit_of, clock_bits_of, first_clock_of};

use crate::connection::{PinBit, Role, bits_of_cells};
use crate::signals::number_in;
use cs_base::{BitId, Signal};
use cs_json::Module;
use std::alloc::{AllocError, Global};

/// The clock: its bit, and whether registers take their next values at its rising edge.
#[derive(Clone, Copy)]
pub struct Clock {
    pub bit: BitId,
    pub rising: bool,
}

/// A clock pin: its cell's place among the module's cells, its signal, and whether its edge rises.
#[derive(Clone, Copy)]
pub struct ClockBit {
    pub cell: usize,
    pub signal: Signal,
    pub rising: bool,
}

fn clock_bit(bit: PinBit) -> Option<ClockBit>
    ensures { result ≡ clock_bit_of bit }
{
    match bit.role {
        Role::Clock { rising } => Some(ClockBit {
            cell: bit.cell,
            signal: bit.signal,
            rising,
        }),
        Role::Data => None,
        Role::Output => None,
        Role::Unused => None,
    }
}

/// The clock pins among bits of cells' pins.
pub fn clock_bits(alloc: Global, bits: &[PinBit]) -> Result<Vec<ClockBit>, AllocError>
    ensures { IfOk result (λ pins. pins.items ≡ filter_map clock_bit_of bits.now) }
{
    bits.iter().filter_map(|bit| clock_bit(*bit)).collect(alloc)
}

/// The bit and the edge of the first clock pin.
pub fn first_clock(pins: &[ClockBit]) -> Option<Clock>
    ensures { result ≡ first_clock_of pins.now }
{
    match pins {
        [] => None,
        [pin, ..] => number_in(pin.signal).map(|bit| Clock {
            bit: BitId::new(bit),
            rising: pin.rising,
        }),
    }
}

/// The clock of a module, by its clock pins.
pub fn clock_by_pins(top: &Module, pins: &[ClockBit]) -> Option<Clock>
    requires { pins.now ≡ clock_bits_of top.now.cells }
    ensures { result ≡ clock_of top.now }
{
    let _ = top;
    first_clock(pins)
}

/// The clock of a module.
pub fn clock_of(alloc: Global, top: &Module) -> Result<Option<Clock>, AllocError>
    ensures { IfOk result (λ found. found ≡ clock_of top.now) }
{
    let bits = bits_of_cells(alloc, top.cells.as_slice())?;
    let pins = clock_bits(alloc, bits.as_slice())?;
    Ok(clock_by_pins(top, pins.as_slice()))
}
