// From an accepted netlist to its machine.
ghost use Rattle.std.specs.Prelude.{◌≡◌, ◌++◌, IfErr, IfOk, None, OnOk, map};
ghost use Rattle.cs_lower.specs.Alike.{AnswersAlike};
ghost use Rattle.cs_lower.specs.LowerFaults.{TellsLowerFault, lower_fault};
ghost use Rattle.cs_lower.specs.Lowered.{buffer, constants, lowered, origins, pieces_of};

use crate::contents::memories_of;
use crate::error::LowerError;
use crate::laws::keeps_answers;
use crate::parts::parts_of;
use crate::plan::{MadeVertices, Plan};
use crate::sizes::lower_fault;
use crate::taps::{Parts, Piece, Tap};
use crate::trails::Trails;
use cs_base::{BitId, Sequence, Text};
use cs_cells::Kind;
use cs_graph::{Machine, VertexKind, assemble};
use cs_net::Netlist;
use std::alloc::{AllocError, Global};

/// The machine of a netlist, and for each vertex the name of the gate cell that it is, which is empty for every other
/// vertex.
#[derive(Drop)]
pub struct Lowered {
    pub machine: Machine,
    pub origins: Sequence<Text>,
}

// The buffer of a ring.
fn buffer(alloc: Global, bit: u32) -> Result<Piece, AllocError>
    ensures { IfOk result (λ piece. piece ≡ buffer bit) }
{
    let pins = Vec::from_slice(alloc, &[Tap::Register(BitId::new(bit))])?;
    Ok(Piece::new(alloc, VertexKind::Gate(Kind::Buf), Sequence::from_vec(pins)))
}

// Puts the buffers of these rings behind the other vertices.
fn push_buffers(
    alloc: Global,
    pieces: &mut Sequence<Piece>,
    rings: &[u32],
) -> Result<(), AllocError>
    ensures { OnOk result (pieces.new ≡ pieces.old ++ map buffer rings.now) }
{
    for bit in rings {
        pieces.push(buffer(alloc, *bit)?)?;
    }
    Ok(())
}

// The vertices of a netlist, and what their pins read.
fn planned(alloc: Global, net: &Netlist) -> Result<(Plan, Sequence<Piece>), AllocError>
    ensures plan { IfOk result (λ made. made.0 ≡ net.now) }
    ensures pieces { IfOk result (λ made. made.1 ≡ pieces_of net.now ++ constants net.now) }
{
    let parts = parts_of(alloc, net)?;
    parts.keeps();
    let first_buffer = parts.pieces.len();
    let trails = Trails::of(alloc, net, parts.wires, first_buffer)?;
    let mut pieces = parts.pieces;
    push_buffers(alloc, &mut pieces, trails.rings())?;
    let plan = Plan::of(trails, pieces.as_slice());
    plan.push_constants(alloc, &mut pieces)?;
    Ok((plan, pieces))
}

// The machine of a netlist that is within the limits.
fn machine_of(
    alloc: Global,
    net: &Netlist,
    plan: &Plan,
    pieces: Sequence<Piece>,
) -> Result<Lowered, AllocError>
    requires plan { plan.now ≡ net.now }
    requires pieces { pieces ≡ pieces_of net.now ++ constants net.now }
    requires within { lower_fault net.now ≡ None }
    ensures machine { IfOk result (λ made. made.machine ≡ lowered net.now) }
    ensures origins { IfOk result (λ made. made.origins ≡ origins net.now) }
{
    net.keeps();
    let memories = memories_of(alloc, net.memories(), net.shapes())?;
    let made = plan.vertices(alloc, pieces)?;
    let machine = assemble(alloc, made.vertices, memories)?;
    Ok(Lowered {
        machine,
        origins: made.origins,
    })
}

/// The machine of a netlist: a vertex for each data port bit and each gate, those of each register's enable and reset
/// and of each memory port, a buffer for each ring of registers, and constants that registers read; chains of registers
/// between them are the contents of edges. `Limit` comes exactly where there would be more vertices, edges or registers
/// than a machine may have, in this order, and tells how many there would be.
pub fn lower(alloc: Global, net: &Netlist) -> Result<Lowered, LowerError>
    ensures machine { IfOk result (λ made. made.machine ≡ lowered net.now) }
    ensures origins { IfOk result (λ made. made.origins ≡ origins net.now) }
    ensures within { OnOk result (lower_fault net.now ≡ None) }
    ensures cause { IfErr result (TellsLowerFault (lower_fault net.now)) }
    ensures alike { IfOk result (λ made. AnswersAlike net.now made.machine) }
{
    keeps_answers(net);
    let (plan, pieces) = planned(alloc, net)?;
    if let Some(fault) = lower_fault(&plan, pieces.as_slice()) {
        return Err(LowerError::Limit(fault));
    }
    Ok(machine_of(alloc, net, &plan, pieces)?)
}
