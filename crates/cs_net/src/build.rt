// The ports and the cells of a netlist.
ghost use Rattle.std.specs.Prelude.{◌≡◌, IfOk, filter, flat_map, length, map};
ghost use Rattle.cs_net.specs.Build.{cell_of, pin_of, port_of};
ghost use Rattle.cs_modules.specs.Modules.{cells_in};
ghost use Rattle.cs_modules.specs.Signals.{is_output};

use crate::netlist::{Cell, PinBits, Port};
use cs_base::{Sequence, Signal};
use cs_json::{CellDecl, PinDecl, PortDecl};
use cs_modules::{class_at, is_output, is_scope};
use std::alloc::{AllocError, Global};

fn signals(alloc: Global, bits: &[Signal]) -> Result<Sequence<Signal>, AllocError>
    ensures { IfOk result (λ made. made ≡ bits.now) }
{
    Ok(Sequence::from_vec(Vec::from_slice(alloc, bits)?))
}

fn port(alloc: Global, port: &PortDecl) -> Result<Port, AllocError>
    ensures { IfOk result (λ made. made ≡ port_of port.now) }
{
    Ok(Port {
        name: port.name.copy(alloc)?,
        direction: port.direction,
        bits: signals(alloc, port.bits.as_slice())?,
    })
}

/// The ports of a netlist.
pub(crate) fn ports(alloc: Global, ports: &[PortDecl]) -> Result<Sequence<Port>, AllocError>
    ensures { IfOk result (λ made. made ≡ map port_of ports.now) }
{
    let mut made = Sequence::new(alloc);
    for decl in ports {
        made.push(port(alloc, decl)?)?;
    }
    Ok(made)
}

fn pin(alloc: Global, pin: &PinDecl) -> Result<PinBits, AllocError>
    ensures { IfOk result (λ made. made ≡ pin_of pin.now) }
{
    Ok(PinBits {
        name: pin.name.copy(alloc)?,
        bits: signals(alloc, pin.bits.as_slice())?,
    })
}

fn pins(alloc: Global, pins: &[PinDecl]) -> Result<Sequence<PinBits>, AllocError>
    ensures { IfOk result (λ made. made ≡ map pin_of pins.now) }
{
    let mut made = Sequence::new(alloc);
    for decl in pins {
        made.push(pin(alloc, decl)?)?;
    }
    Ok(made)
}

fn cell(alloc: Global, cell: &CellDecl) -> Result<Cell, AllocError>
    ensures { IfOk result (λ made. made ≡ cell_of cell.now) }
{
    Ok(Cell {
        name: cell.name.copy(alloc)?,
        class: class_at(cell),
        pins: pins(alloc, cell.pins.as_slice())?,
    })
}

/// The cells of a netlist.
pub(crate) fn cells(alloc: Global, cells: &[CellDecl]) -> Result<Sequence<Cell>, AllocError>
    ensures { IfOk result (λ made. made ≡ map cell_of (cells_in cells.now)) }
{
    let mut made = Sequence::new(alloc);
    for decl in cells {
        if !is_scope(decl) {
            made.push(cell(alloc, decl)?)?;
        }
    }
    Ok(made)
}

/// The bits of the output ports, port by port.
pub(crate) fn output_bits(alloc: Global, ports: &[Port]) -> Result<Vec<Signal>, AllocError>
    ensures { IfOk result (λ bits. bits.items
        ≡ flat_map (λ p. p.bits) (filter (λ p. is_output p.direction) ports.now)) }
{
    let mut bits = Vec::new(alloc);
    for port in ports {
        if is_output(port.direction) {
            bits.extend_from_slice(port.bits.as_slice())?;
        }
    }
    Ok(bits)
}

/// The number of data output bits.
pub(crate) fn output_count(alloc: Global, ports: &[Port]) -> Result<usize, AllocError>
    ensures { IfOk result (λ count. count
        ≡ length (flat_map (λ p. p.bits) (filter (λ p. is_output p.direction) ports.now))) }
{
    let outputs = output_bits(alloc, ports)?;
    Ok(outputs.len())
}
