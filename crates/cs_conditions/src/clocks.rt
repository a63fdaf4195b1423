// The clock: one bit of an input port, one edge, and nothing else that reads it.
ghost use Rattle.std.specs.Prelude.{◌≡◌, ℕ, ◌==◌, ◌&&◌, ◌||◌, not, find, filter_map, nat_eq, IfOk};
ghost use Rattle.std.specs.List.{list_any};
ghost use Rattle.indexmap.specs.IndexSet.{contains};
ghost use Rattle.cs_modules.specs.Signals.{is_bit, is_output, is_bit_where, number_in, same};
ghost use Rattle.cs_conditions.specs.Conditions.{clock_as_data, clock_not_input, mixed_edges, two_clocks};
ghost use Rattle.cs_modules.specs.Modules.{input_bits, is_data_input};
ghost use Rattle.cs_modules.specs.PinBits.{bits_of_cells, clock_bits_of};

use crate::constants::name_at;
use crate::error::NetError;
use cs_base::{BitId, Signal};
use cs_json::{Module, PortDecl};
use cs_modules::{Clock, ClockBit, PinBit, Role, holds_bit, is_bit, is_output, number_in};
use indexmap::IndexSet;
use std::alloc::{AllocError, Global};

fn is_input_bit(inputs: &IndexSet<u32>, signal: Signal) -> bool
    ensures { result ≡ is_bit_where (contains nat_eq inputs.now) signal }
{
    match signal {
        Signal::Bit(bit) => inputs.contains(&bit.get()),
        Signal::Zero => false,
        Signal::One => false,
        Signal::Unknown => false,
        Signal::HighZ => false,
    }
}

fn stray_pin(pins: &[ClockBit], inputs: &IndexSet<u32>) -> Option<ClockBit>
    ensures { result ≡ find (λ pin. not (is_bit_where (contains nat_eq inputs.now) pin.signal)) pins.now }
{
    pins.iter()
        .copied()
        .find(|pin| !is_input_bit(inputs, pin.signal))
}

/// Refuses a clock pin whose signal is no bit of an input port.
pub(crate) fn clock_not_input(
    top: &Module,
    pins: &[ClockBit],
    inputs: &IndexSet<u32>,
) -> Option<NetError>
    requires pins { pins.now ≡ clock_bits_of top.now.cells }
    requires inputs { (b : ℕ) → contains nat_eq inputs.now b ≡ list_any (is_bit b) (input_bits top.now) }
    ensures { result ≡ clock_not_input top.now }
{
    let _ = top;
    match stray_pin(pins, inputs) {
        None => None,
        Some(pin) => Some(NetError::ClockNotInput { signal: pin.signal }),
    }
}

fn other_bit(clock: Clock, pins: &[ClockBit]) -> Option<u32>
    ensures { result ≡ find (λ b. not (b == clock.bit)) (filter_map (λ pin. number_in pin.signal) pins.now) }
{
    pins.iter()
        .filter_map(|pin| number_in(pin.signal))
        .find(|bit| !(*bit == clock.bit.get()))
}

/// Refuses a clock pin with another bit than the first one.
pub(crate) fn two_clocks(clock: Clock, top: &Module, pins: &[ClockBit]) -> Option<NetError>
    requires { pins.now ≡ clock_bits_of top.now.cells }
    ensures { result ≡ two_clocks clock top.now }
{
    let _ = top;
    let first = clock.bit;
    match other_bit(clock, pins) {
        None => None,
        Some(bit) => Some(NetError::TwoClocks {
            first,
            second: BitId::new(bit),
        }),
    }
}

fn other_edge(clock: Clock, pins: &[ClockBit]) -> Option<ClockBit>
    ensures { result ≡ find (λ pin. not (same pin.rising clock.rising)) pins.now }
{
    pins.iter()
        .copied()
        .find(|pin| !(pin.rising == clock.rising))
}

/// Refuses a clock pin with another edge than the first one.
pub(crate) fn mixed_edges(
    alloc: Global,
    clock: Clock,
    top: &Module,
    pins: &[ClockBit],
) -> Result<Option<NetError>, AllocError>
    requires { pins.now ≡ clock_bits_of top.now.cells }
    ensures { IfOk result (λ found. found ≡ mixed_edges clock top.now) }
{
    match other_edge(clock, pins) {
        None => Ok(None),
        Some(pin) => Ok(Some(NetError::MixedEdges {
            name: name_at(alloc, top.cells.as_slice(), pin.cell)?,
        })),
    }
}

fn is_data_input(role: Role) -> bool
    ensures { result ≡ is_data_input role }
{
    matches!(role, Role::Data)
}

fn is_read_by_cell(bit: u32, bits: &[PinBit]) -> bool
    ensures { result ≡ list_any (λ pin. is_data_input pin.role && is_bit bit pin.signal) bits.now }
{
    bits.iter()
        .any(|pin| is_data_input(pin.role) && is_bit(bit, pin.signal))
}

fn is_shown(bit: u32, ports: &[PortDecl]) -> bool
    ensures { result ≡ list_any (λ port. is_output port.direction && list_any (is_bit bit) port.bits) ports.now }
{
    ports.iter().any(|port| is_output(port.direction) && holds_bit(bit, port.bits.as_slice()))
}

fn is_read(bit: u32, top: &Module, bits: &[PinBit]) -> bool
    ensures { result ≡ (list_any (λ pin. is_data_input pin.role && is_bit bit pin.signal) bits.now || list_any (λ port. is_output port.direction && list_any (is_bit bit) port.bits) top.now.ports) }
{
    is_read_by_cell(bit, bits) || is_shown(bit, top.ports.as_slice())
}

/// Refuses the clock's bit at an input pin other than a clock pin, or in an output port.
pub(crate) fn clock_as_data(clock: Clock, top: &Module, bits: &[PinBit]) -> Option<NetError>
    requires { bits.now ≡ bits_of_cells top.now.cells }
    ensures { result ≡ clock_as_data clock top.now }
{
    if is_read(clock.bit.get(), top, bits) {
        Some(NetError::ClockAsData { bit: clock.bit })
    } else {
        None
    }
}
