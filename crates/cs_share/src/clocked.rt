// Names with a clock where a register needs one.
ghost use Rattle.std.specs.Prelude.{◌≡◌, ◌&&◌, ◌++◌, IfOk, OnOk, codes, filter, if◌then◌else◌, is_none, not};
ghost use Rattle.cs_json.specs.Readable.{is_below};
ghost use Rattle.cs_share.specs.Ports.{clock_port, with_clock, with_clock_port};

use crate::naming::{copy_port, copy_ports, copy_texts};
use crate::types::Names;
use cs_base::{BitId, Sequence, Signal, Text};
use cs_json::Direction;
use cs_modules::Clock;
use cs_net::Port;
use std::alloc::{AllocError, Global};

// The bit of an added clock, which no port of a netlist has.
const CLOCK_BIT: u32 = 0;

// The port of an added clock.
fn clock_port(alloc: Global) -> Result<Port, AllocError>
    ensures { IfOk result (λ port. port ≡ clock_port) }
{
    let bits = Vec::from_slice(alloc, &[Signal::Bit(BitId::new(CLOCK_BIT))])?;
    Ok(Port {
        name: Text::from_str(alloc, "cslow_clk")?,
        direction: Direction::Input,
        bits: Sequence::from_vec(bits),
    })
}

// Whether a port stands before that of an added clock.
fn is_before_clock(port: &Port) -> bool
    ensures { result ≡ is_below port.now.name (codes "cslow_clk") }
{
    port.name.as_str() < "cslow_clk"
}

// Pushes the ports before that of an added clock, or the others.
fn push_ports(
    alloc: Global,
    made: &mut Sequence<Port>,
    ports: &[Port],
    before: bool,
) -> Result<(), AllocError>
    ensures { OnOk result (made.new ≡ made.old
        ++ filter (λ p. if before then is_below p.name (codes "cslow_clk") else not (is_below p.name (codes "cslow_clk"))) ports.now) }
{
    for port in ports {
        if is_before_clock(port) == before {
            made.push(copy_port(alloc, port)?)?;
        }
    }
    Ok(())
}

// The ports with that of an added clock among them.
fn with_clock_port(alloc: Global, ports: &[Port]) -> Result<Sequence<Port>, AllocError>
    ensures { IfOk result (λ made. made ≡ with_clock_port ports.now) }
{
    let mut made = Sequence::new(alloc);
    push_ports(alloc, &mut made, ports, true)?;
    made.push(clock_port(alloc)?)?;
    push_ports(alloc, &mut made, ports, false)?;
    Ok(made)
}

// The names with a clock of their own.
fn with_clock(alloc: Global, names: &Names) -> Result<Names, AllocError>
    ensures { IfOk result (λ made. made ≡ with_clock names.now) }
{
    Ok(Names {
        module: names.module.copy(alloc)?,
        ports: with_clock_port(alloc, names.ports.as_slice())?,
        clock: Some(Clock {
            bit: BitId::new(CLOCK_BIT),
            rising: true,
        }),
        origins: copy_texts(alloc, names.origins.as_slice())?,
    })
}

fn copy_names(alloc: Global, names: &Names) -> Result<Names, AllocError>
    ensures { IfOk result (λ made. made ≡ names.now) }
{
    Ok(Names {
        module: names.module.copy(alloc)?,
        ports: copy_ports(alloc, names.ports.as_slice())?,
        clock: names.clock,
        origins: copy_texts(alloc, names.origins.as_slice())?,
    })
}

/// The names with a clock where there are registers; a clock that they have stays.
pub(crate) fn clocked_names(
    alloc: Global,
    names: &Names,
    has_registers: bool,
) -> Result<Names, AllocError>
    ensures { IfOk result (λ made. made
        ≡ if is_none names.now.clock && has_registers then with_clock names.now else names.now) }
{
    if names.clock.is_none() && has_registers {
        with_clock(alloc, names)
    } else {
        copy_names(alloc, names)
    }
}
