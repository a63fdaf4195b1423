// Copies of the parts of a netlist.
ghost use Rattle.std.specs.Prelude.{◌≡◌, IfOk};

use crate::netlist::{Cell, PinBits, Port};
use cs_base::Sequence;
use cs_cells::{MemShape, ReadShape};
use std::alloc::{AllocError, Global};

/// Another list of the same items.
pub(crate) fn copied<T: Copy>(alloc: Global, items: &[T]) -> Result<Sequence<T>, AllocError>
    ensures { IfOk result (λ copy. copy ≡ items.now) }
{
    Ok(Sequence::from_vec(Vec::from_slice(alloc, items)?))
}

/// Other ports of the same names, directions and bits.
pub(crate) fn copy_ports(alloc: Global, ports: &[Port]) -> Result<Sequence<Port>, AllocError>
    ensures { IfOk result (λ copies. copies ≡ ports.now) }
{
    let mut copies = Sequence::new(alloc);
    for port in ports {
        copies.push(copy_port(alloc, port)?)?;
    }
    Ok(copies)
}

fn copy_port(alloc: Global, port: &Port) -> Result<Port, AllocError>
    ensures { IfOk result (λ copy. copy ≡ port.now) }
{
    let bits = copied(alloc, port.bits.as_slice())?;
    Ok(Port {
        name: port.name.copy(alloc)?,
        direction: port.direction,
        bits,
    })
}

/// Other cells of the same names, classes and pins.
pub(crate) fn copy_cells(alloc: Global, cells: &[Cell]) -> Result<Sequence<Cell>, AllocError>
    ensures { IfOk result (λ copies. copies ≡ cells.now) }
{
    let mut copies = Sequence::new(alloc);
    for cell in cells {
        copies.push(copy_cell(alloc, cell)?)?;
    }
    Ok(copies)
}

fn copy_cell(alloc: Global, cell: &Cell) -> Result<Cell, AllocError>
    ensures { IfOk result (λ copy. copy ≡ cell.now) }
{
    let pins = copy_pins(alloc, cell.pins.as_slice())?;
    Ok(Cell {
        name: cell.name.copy(alloc)?,
        class: cell.class,
        pins,
    })
}

fn copy_pins(alloc: Global, pins: &[PinBits]) -> Result<Sequence<PinBits>, AllocError>
    ensures { IfOk result (λ copies. copies ≡ pins.now) }
{
    let mut copies = Sequence::new(alloc);
    for pin in pins {
        copies.push(copy_pin(alloc, pin)?)?;
    }
    Ok(copies)
}

fn copy_pin(alloc: Global, pin: &PinBits) -> Result<PinBits, AllocError>
    ensures { IfOk result (λ copy. copy ≡ pin.now) }
{
    let bits = copied(alloc, pin.bits.as_slice())?;
    Ok(PinBits {
        name: pin.name.copy(alloc)?,
        bits,
    })
}

/// The same shapes again, for each cell one or none.
pub(crate) fn copy_shapes(
    alloc: Global,
    shapes: &[Option<MemShape>],
) -> Result<Sequence<Option<MemShape>>, AllocError>
    ensures { IfOk result (λ copies. copies ≡ shapes.now) }
{
    let mut copies = Sequence::new(alloc);
    for shape in shapes {
        copies.push(copy_shape(alloc, shape)?)?;
    }
    Ok(copies)
}

fn copy_shape(alloc: Global, shape: &Option<MemShape>) -> Result<Option<MemShape>, AllocError>
    ensures { IfOk result (λ copy. copy ≡ shape.now) }
{
    match shape {
        Some(shape) => Ok(Some(MemShape {
            size: shape.size,
            abits: shape.abits,
            width: shape.width,
            reads: copy_reads(alloc, shape.reads.as_slice())?,
            writes: shape.writes,
        })),
        None => Ok(None),
    }
}

fn copy_reads(alloc: Global, reads: &[ReadShape]) -> Result<Sequence<ReadShape>, AllocError>
    ensures { IfOk result (λ copies. copies ≡ reads.now) }
{
    let mut copies = Sequence::new(alloc);
    for read in reads {
        copies.push(copy_read(alloc, read)?)?;
    }
    Ok(copies)
}

fn copy_read(alloc: Global, read: &ReadShape) -> Result<ReadShape, AllocError>
    ensures { IfOk result (λ copy. copy ≡ read.now) }
{
    let reset_value = copied(alloc, read.reset_value.as_slice())?;
    Ok(ReadShape {
        clocked: read.clocked,
        enable_over_reset: read.enable_over_reset,
        reset_value,
        start: copied(alloc, read.start.as_slice())?,
    })
}
