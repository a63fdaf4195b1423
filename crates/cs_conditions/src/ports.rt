// Ports that no netlist has: of both directions, or with a name that written netlists use.
ghost use Rattle.std.specs.Prelude.{◌≡◌, find, option_map, IfOk};
ghost use Rattle.cs_conditions.specs.Conditions.{holds_clock, inout, is_inout, is_reserved, reserved};
ghost use Rattle.cs_modules.specs.Modules.{clock_of};

use crate::error::NetError;
use cs_base::Signal;
use cs_json::{Direction, Module, PortDecl};
use cs_modules::{Clock, holds_bit};
use std::alloc::{AllocError, Global};

fn first_inout(ports: &[PortDecl]) -> Option<&PortDecl>
    ensures { option_map (λ port. port.now) result ≡ find (λ port. is_inout port.direction) ports.now }
{
    ports
        .iter()
        .find(|port| matches!(port.direction, Direction::Inout))
}

/// Refuses a port of both directions.
pub(crate) fn inout(alloc: Global, top: &Module) -> Result<Option<NetError>, AllocError>
    ensures { IfOk result (λ found. found ≡ inout top.now) }
{
    match first_inout(top.ports.as_slice()) {
        None => Ok(None),
        Some(port) => Ok(Some(NetError::Inout {
            port: port.name.copy(alloc)?,
        })),
    }
}

fn holds_clock(clock: Option<Clock>, bits: &[Signal]) -> bool
    ensures { result ≡ holds_clock clock bits.now }
{
    match clock {
        None => false,
        Some(clock) => holds_bit(clock.bit.get(), bits),
    }
}

fn is_reserved(clock: Option<Clock>, port: &PortDecl) -> bool
    ensures { result ≡ is_reserved clock port.now }
{
    let name = port.name.as_str();
    name == "cslow_clk" && !holds_clock(clock, port.bits.as_slice())
        || name.as_bytes().starts_with("$cs$".as_bytes())
}

fn first_reserved(clock: Option<Clock>, ports: &[PortDecl]) -> Option<&PortDecl>
    ensures { option_map (λ port. port.now) result ≡ find (λ port. is_reserved clock port) ports.now }
{
    ports.iter().find(|port| is_reserved(clock, port))
}

/// Refuses a port with a name that written netlists use.
#[tactic(auto, unfolding(crate::specs::Conditions::reserved))]
pub fn reserved(
    alloc: Global,
    clock: Option<Clock>,
    top: &Module,
) -> Result<Option<NetError>, AllocError>
    requires { clock ≡ clock_of top.now }
    ensures { IfOk result (λ found. found ≡ reserved top.now) }
{
    match first_reserved(clock, top.ports.as_slice()) {
        None => Ok(None),
        Some(port) => Ok(Some(NetError::Reserved {
            port: port.name.copy(alloc)?,
        })),
    }
}
