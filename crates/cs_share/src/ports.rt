// The ports of the written netlist.
ghost use Rattle.std.specs.Prelude.{◌≡◌, ◌+◌, ◌<◌, ◌^◌, IfOk, length, map};
ghost use Rattle.cs_base.specs.declared.signal.Signal.TheVariants.{Bit};
ghost use Rattle.cs_modules.specs.Pins.{count_from};
ghost use Rattle.cs_share.specs.Ports.{input_signals, number_after, outputs_after, port_bits, with_bits, written_ports};

use crate::inputs::FIRST_NUMBER;
use crate::signals::{first_signals, signals_after};
use cs_base::{BitId, Sequence, Signal};
use cs_json::{Direction, PortDecl};
use cs_net::Port;
use std::alloc::{AllocError, Global};

// So many bits, numbered one after the other.
fn numbered_bits(alloc: Global, first: u32, count: usize) -> Result<Sequence<Signal>, AllocError>
    requires { first + count < 2 ^ 32 }
    ensures { IfOk result (λ bits. bits ≡ map Bit (count_from first count)) }
{
    let mut bits = Sequence::new(alloc);
    for i in 0..count {
        bits.push(Signal::Bit(BitId::new(first + i as u32)))?;
    }
    Ok(bits)
}

// The bits of a port of a width, where this is the next number and these signals are left for output ports.
fn port_bits(
    alloc: Global,
    direction: Direction,
    width: usize,
    next: u32,
    rest: &[Signal],
) -> Result<Sequence<Signal>, AllocError>
    requires { number_after direction width next < 2 ^ 32 }
    ensures { IfOk result (λ bits. bits ≡ port_bits direction width next rest.now) }
{
    match direction {
        Direction::Input => numbered_bits(alloc, next, width),
        Direction::Output => first_signals(alloc, rest, width),
        Direction::Inout => Ok(Sequence::new(alloc)),
    }
}

// The next number behind a port.
fn number_after(direction: Direction, width: usize, next: u32) -> u32
    requires { number_after direction width next < 2 ^ 32 }
    ensures { result ≡ number_after direction width next }
{
    match direction {
        Direction::Input => next + width as u32,
        Direction::Output => next,
        Direction::Inout => next,
    }
}

// The signals that are left behind a port.
fn outputs_after<'a>(direction: Direction, width: usize, rest: &'a [Signal]) -> &'a [Signal]
    ensures { result.now ≡ outputs_after direction width rest.now }
{
    match direction {
        Direction::Input => rest,
        Direction::Output => signals_after(rest, width),
        Direction::Inout => rest,
    }
}

// A port with its new bits.
fn written_port(
    alloc: Global,
    port: &Port,
    next: u32,
    rest: &[Signal],
) -> Result<PortDecl, AllocError>
    requires { number_after port.now.direction (length port.now.bits) next < 2 ^ 32 }
    ensures { IfOk result (λ written. written
        ≡ with_bits port.now (port_bits port.now.direction (length port.now.bits) next rest.now)) }
{
    let bits = port_bits(alloc, port.direction, port.bits.len(), next, rest)?;
    Ok(PortDecl {
        name: port.name.copy(alloc)?,
        direction: port.direction,
        bits,
    })
}

/// The ports with new bits: input ports have numbers from 2 on, output ports these signals.
pub(crate) fn written_ports(
    alloc: Global,
    ports: &[Port],
    outputs: &[Signal],
) -> Result<Sequence<PortDecl>, AllocError>
    requires { 2 + length (input_signals ports.now) < 2 ^ 32 }
    ensures { IfOk result (λ written. written ≡ written_ports 2 outputs.now ports.now) }
{
    let mut written = Sequence::new(alloc);
    let mut next = FIRST_NUMBER;
    let mut rest = outputs;
    for port in ports {
        written.push(written_port(alloc, port, next, rest)?)?;
        next = number_after(port.direction, port.bits.len(), next);
        rest = outputs_after(port.direction, port.bits.len(), rest);
    }
    Ok(written)
}
