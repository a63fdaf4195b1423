// From a machine to the document of its netlist.
ghost use Rattle.std.specs.Prelude.{◌≡◌, ◌≤◌, ◌-◌, ◌^◌, IfErr, IfOk, None, OnOk, length, min};
ghost use Rattle.cs_base.specs.declared.contexts.Mode.TheVariants.{Any};
ghost use Rattle.cs_graph.specs.Lags.{HasLengths, IsLegal, retimed};
ghost use Rattle.cs_graph.specs.OtherContents.{register_count, weight_fault};
ghost use Rattle.cs_prefix.specs.Prefixes.{IsPlan};
ghost use Rattle.cs_share.specs.EmitFaults.{TellsEmitFault};
ghost use Rattle.cs_share.specs.Emission.{IsEmission};
ghost use Rattle.cs_share.specs.Names.{AreNamesFor};
ghost use Rattle.cs_share.specs.Registers.{edge_drivers};

use crate::assembly::planned_circuit;
use crate::clocked::clocked_names;
use crate::error::EmitError;
use crate::types::Names;
use cs_base::{Counted, EdgeId, LimitFault, Sequence};
use cs_circuit::circuit_document;
use cs_graph::{Contents, MOST_WEIGHT, Machine};
use cs_json::Document;
use cs_prefix::{DriverId, Plan, plan_registers};
use std::alloc::{AllocError, Global};

/// The document of a machine under legal lags, one for each vertex, with contents for each edge, as many as it has
/// registers under these lags. The names are those of a netlist with as many data inputs and outputs as the machine, and
/// with a clock where the machine has a Write. Edges of one driver share the registers in which their contents begin
/// alike. `Limit` comes exactly where these are more registers than a machine may have, before memory is taken.
pub fn emit(
    alloc: Global,
    machine: &Machine,
    lags: &[i64],
    contents: &Contents,
    names: &Names,
) -> Result<Document, EmitError>
    requires legal { IsLegal machine.now Any lags.now }
    requires lengths { HasLengths machine.now lags.now contents.now }
    requires names { AreNamesFor machine.now names.now }
    ensures ok { IfOk result (IsEmission (retimed lags.now contents.now machine.now) names.now) }
    ensures within { OnOk result (weight_fault contents.now ≡ None) }
    ensures cause { IfErr result (TellsEmitFault (weight_fault contents.now)) }
{
    if let Some(fault) = weight_fault(contents) {
        return Err(EmitError::Limit(fault));
    }
    let plan = plan_of(alloc, machine, contents)?;
    Ok(document_of(alloc, machine, lags, contents, names, &plan)?)
}

// The document of a machine by the plan of its registers.
fn document_of(
    alloc: Global,
    machine: &Machine,
    lags: &[i64],
    contents: &Contents,
    names: &Names,
    plan: &Plan,
) -> Result<Document, AllocError>
    requires legal { IsLegal machine.now Any lags.now }
    requires lengths { HasLengths machine.now lags.now contents.now }
    requires few { register_count contents.now ≤ 65536 }
    requires names { AreNamesFor machine.now names.now }
    requires plan { IsPlan (edge_drivers machine.now) contents.now.of plan.now }
    ensures { IfOk result (IsEmission (retimed lags.now contents.now machine.now) names.now) }
{
    let _ = (lags.len(), contents.of.len());
    machine.keeps();
    let clocked = clocked_names(alloc, names, !plan.registers.is_empty())?;
    let circuit = planned_circuit(alloc, machine, clocked, plan)?;
    circuit_document(alloc, circuit)
}

// How many registers hold the contents; 2^64 - 1 where there are more.
fn register_count(contents: &Contents) -> u64
    ensures { result ≡ min (register_count contents.now) (2 ^ 64 - 1) }
{
    let mut count = 0u64;
    for list in contents.of.as_slice() {
        count = count.saturating_add(list.len() as u64);
    }
    count
}

// The fault of more registers than a machine may have, if they are so many.
fn weight_fault(contents: &Contents) -> Option<LimitFault>
    ensures { result ≡ weight_fault contents.now }
{
    let found = register_count(contents);
    if found > MOST_WEIGHT {
        Some(LimitFault {
            what: Counted::Weight,
            found,
            most: MOST_WEIGHT,
        })
    } else {
        None
    }
}

// The registers that edges share.
fn plan_of(alloc: Global, machine: &Machine, contents: &Contents) -> Result<Plan, AllocError>
    requires { length contents.now.of ≡ length machine.now.edges }
    ensures { IfOk result (λ plan. IsPlan (edge_drivers machine.now) contents.now.of plan) }
{
    machine.keeps();
    let drivers = edge_drivers(alloc, machine)?;
    plan_registers(alloc, drivers.as_slice(), contents.of.as_slice())
}

// The drivers of the edges.
fn edge_drivers(alloc: Global, machine: &Machine) -> Result<Sequence<DriverId>, AllocError>
    ensures { IfOk result (λ drivers. drivers ≡ edge_drivers machine.now) }
{
    let mut drivers = Sequence::new(alloc);
    for e in 0..machine.edge_count() {
        let edge = machine.edge(EdgeId::new(e));
        drivers.push(DriverId {
            vertex: edge.from,
            output: edge.output,
        })?;
    }
    Ok(drivers)
}
