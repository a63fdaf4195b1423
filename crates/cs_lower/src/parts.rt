// The vertices before ring buffers and constants, and what drives each bit.
ghost use Rattle.std.specs.Prelude.{◌≡◌, ◌+◌, ◌<◌, ◌∷◌, [], IfOk, OnOk, if◌then◌else◌, is_some, length, map};
ghost use Rattle.cs_graph.specs.declared.vertex.VertexKind.TheVariants.{Output};
ghost use Rattle.cs_lower.specs.declared.taps.Tap.TheVariants.{Signal as of_signal};
ghost use Rattle.cs_lower.specs.Cells.{cell_parts, placed_cells};
ghost use Rattle.cs_lower.specs.Taps.{both, in_turn, piece, with_pieces};
ghost use Rattle.cs_lower.specs.Wires.{input_part, parts_of, port_parts};

use crate::cells::push_cell;
use crate::driven::DrivenBits;
use crate::taps::{Parts, Piece, Tap, Wire};
use cs_base::{MemId, Sequence, Signal};
use cs_cells::MemShape;
use cs_graph::VertexKind;
use cs_net::Netlist;
use std::alloc::{AllocError, Global};

// ---- ports

// Pushes an input, which drives a signal.
fn push_input(alloc: Global, parts: &mut Parts, signal: Signal) -> Result<(), AllocError>
    ensures { OnOk result (parts.new ≡ both parts.old (input_part (length parts.old.pieces) signal)) }
{
    let piece = Piece::new(alloc, VertexKind::Input, Sequence::new(alloc));
    let vertex = parts.push(piece)?;
    parts.drive(signal, Wire::Vertex { vertex, output: 0 })
}

fn push_inputs(alloc: Global, parts: &mut Parts, inputs: &[Signal]) -> Result<(), AllocError>
    ensures { OnOk result (parts.new ≡ both parts.old (in_turn input_part (length parts.old.pieces) inputs.now)) }
{
    for signal in inputs {
        push_input(alloc, parts, *signal)?;
    }
    Ok(())
}

fn output_piece(alloc: Global, signal: Signal) -> Result<Piece, AllocError>
    ensures { IfOk result (λ made. made ≡ piece Output (of_signal signal ∷ [])) }
{
    let pins = Vec::from_slice(alloc, &[Tap::Signal(signal)])?;
    Ok(Piece::new(alloc, VertexKind::Output, Sequence::from_vec(pins)))
}

fn push_outputs(alloc: Global, parts: &mut Parts, outputs: &[Signal]) -> Result<(), AllocError>
    ensures { OnOk result (parts.new ≡ with_pieces parts.old (map (λ s. piece Output (of_signal s ∷ [])) outputs.now)) }
{
    for signal in outputs {
        let piece = output_piece(alloc, *signal)?;
        parts.push(piece)?;
    }
    Ok(())
}

// The host, the data inputs, the data outputs.
fn port_parts(alloc: Global, net: &Netlist) -> Result<Parts, AllocError>
    ensures { IfOk result (λ parts. parts ≡ port_parts net.now) }
{
    let inputs = net.data_inputs(alloc)?;
    let outputs = net.data_outputs(alloc)?;
    let mut parts = Parts::new(alloc);
    parts.push(Piece::new(alloc, VertexKind::Host, Sequence::new(alloc)))?;
    push_inputs(alloc, &mut parts, inputs.as_slice())?;
    push_outputs(alloc, &mut parts, outputs.as_slice())?;
    Ok(parts)
}

// ---- cells

// How many memories there are with this cell, of which so many stand before it.
fn memories_with(count: u32, shape: &Option<MemShape>) -> u32
    requires { count < 65536 }
    ensures { result ≡ count + (if is_some shape.now then 1 else 0) }
{
    if shape.is_some() { count + 1 } else { count }
}

// Pushes the cells in order.
#[tactic(auto, using(crate::proofs::FewReads::few_reads, crate::proofs::FewReads::few_shapes))]
fn push_cells(alloc: Global, parts: &mut Parts, net: &DrivenBits) -> Result<(), AllocError>
    ensures { OnOk result (parts.new ≡ both parts.old
        (in_turn (cell_parts net.now) (length parts.old.pieces) (placed_cells net.now))) }
{
    let netlist = net.netlist();
    netlist.keeps();
    let mut count = 0;
    for (cell, shape) in netlist.cells().iter().zip(netlist.shapes()) {
        push_cell(alloc, parts, net, MemId::new(count), cell, shape)?;
        count = memories_with(count, shape);
    }
    Ok(())
}

/// The vertices before ring buffers and constants, and what drives each bit. It errs only where memory runs out.
#[tactic(auto, unfolding(crate::specs::Wires::parts_of))]
pub(crate) fn parts_of(alloc: Global, net: &Netlist) -> Result<Parts, AllocError>
    ensures { IfOk result (λ parts. parts ≡ parts_of net.now) }
{
    let driven = DrivenBits::of(alloc, net)?;
    let mut parts = port_parts(alloc, net)?;
    push_cells(alloc, &mut parts, &driven)?;
    Ok(parts)
}
