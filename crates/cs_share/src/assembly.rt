// The circuit of a machine, by the plan of its registers.
ghost use Rattle.std.specs.Prelude.{◌≡◌, ◌+◌, ◌<◌, ◌^◌, IfOk, length};
ghost use Rattle.cs_prefix.specs.declared.plan.Plan.{Plan as PlanValue};
ghost use Rattle.cs_share.specs.Assembled.{AreTables, FitsPlan, keeps_clock, planned_circuit, planned_gates, planned_memories, planned_ports, planned_registers};
ghost use Rattle.cs_share.specs.Planned.{HaveSources, vertex_numbers};
ghost use Rattle.cs_share.specs.Ports.{input_signals, written_clock};
ghost use Rattle.cs_share.specs.Shared.{first_register, has_write, is_write};
ghost use Rattle.cs_share.specs.declared.types.Names.{Names as NamesValue};

use crate::gates::{GateTables, gate_parts};
use crate::inputs::{FIRST_NUMBER, data_numbers, input_signals, written_clock};
use crate::memories::memory_parts;
use crate::numbers::{Numbers, vertex_numbers};
use crate::ports::written_ports;
use crate::registers::register_parts;
use crate::signals::{end_signals, shown_signals};
use crate::types::Names;
use cs_base::{Sequence, Signal, VertexId};
use cs_circuit::{Circuit, GatePart, MemoryPart, RegisterPart};
use cs_graph::{Machine, VertexKind};
use cs_json::PortDecl;
use cs_modules::Clock;
use cs_prefix::Plan;
use std::alloc::{AllocError, Global};

/// The clock with its new number, the numbers of what vertices drive, and what the ends of the edges read.
#[derive(Drop)]
pub(crate) struct Tables {
    pub clock: Option<Clock>,
    pub numbers: Numbers,
    pub signals: Sequence<Signal>,
}

// The clock with its new number, and the numbers of what vertices drive.
#[derive(Drop)]
struct Numbering {
    clock: Option<Clock>,
    numbers: Numbers,
}

fn numbered(
    alloc: Global,
    machine: &Machine,
    names: &Names,
    plan: &Plan,
) -> Result<Numbering, AllocError>
    requires { FitsPlan machine.now names.now plan.now }
    ensures clock { IfOk result (λ made. made.clock ≡ written_clock names.now) }
    ensures vertices { IfOk result (λ made. made.numbers.vertices ≡ vertex_numbers machine.now names.now) }
    ensures register { IfOk result (λ made. made.numbers.first_register ≡ first_register machine.now names.now) }
{
    let inputs = input_signals(alloc, names.ports.as_slice())?;
    let data = data_numbers(alloc, &names.clock, inputs.as_slice())?;
    let first = inputs.len() as u32 + FIRST_NUMBER;
    Ok(Numbering {
        clock: written_clock(inputs.as_slice(), names.clock),
        numbers: vertex_numbers(alloc, machine, data.as_slice(), first)?,
    })
}

fn is_write(kind: VertexKind) -> bool
    ensures { result ≡ is_write kind }
{
    matches!(kind, VertexKind::Write { .. })
}

// Whether a vertex is a write port.
fn has_write(machine: &Machine) -> bool
    ensures { result ≡ has_write machine.now }
{
    for v in 0..machine.vertex_count() {
        if is_write(machine.vertex(VertexId::new(v)).kind) {
            return true;
        }
    }
    false
}

// What a circuit's parts are made of.
fn planned_tables(
    alloc: Global,
    machine: &Machine,
    names: &Names,
    plan: &Plan,
) -> Result<Tables, AllocError>
    requires { FitsPlan machine.now names.now plan.now }
    ensures { IfOk result (AreTables machine.now names.now plan.now) }
{
    let made = numbered(alloc, machine, names, plan)?;
    let signals = end_signals(alloc, machine, &made.numbers, plan.ends.as_slice())?;
    Ok(Tables {
        clock: made.clock,
        numbers: made.numbers,
        signals,
    })
}

fn planned_ports(
    alloc: Global,
    machine: &Machine,
    names: &Names,
    tables: &Tables,
) -> Result<Sequence<PortDecl>, AllocError>
    requires { 2 + length (input_signals names.now.ports) < 2 ^ 32 }
    ensures { IfOk result (λ ports. (plan : PlanValue) → AreTables machine.now names.now plan tables.now
        → ports ≡ planned_ports machine.now names.now plan) }
{
    let shown = shown_signals(alloc, machine, tables.signals.as_slice())?;
    written_ports(alloc, names.ports.as_slice(), shown.as_slice())
}

fn planned_gates(
    alloc: Global,
    machine: &Machine,
    names: &Names,
    tables: &Tables,
) -> Result<Sequence<GatePart>, AllocError>
    ensures { IfOk result (λ gates. (plan : PlanValue) → AreTables machine.now names.now plan tables.now
        → gates ≡ planned_gates machine.now names.now plan) }
{
    let gate_tables = GateTables {
        origins: names.origins.as_slice(),
        numbers: tables.numbers.vertices.as_slice(),
        signals: tables.signals.as_slice(),
    };
    gate_parts(alloc, machine, &gate_tables)
}

fn planned_memories(
    alloc: Global,
    machine: &Machine,
    tables: &Tables,
) -> Result<Sequence<MemoryPart>, AllocError>
    ensures { IfOk result (λ memories. (names : NamesValue) (plan : PlanValue) → AreTables machine.now names plan tables.now
        → memories ≡ planned_memories machine.now names plan) }
{
    let numbers = tables.numbers.vertices.as_slice();
    memory_parts(alloc, machine, numbers, tables.signals.as_slice())
}

fn planned_registers(
    alloc: Global,
    machine: &Machine,
    plan: &Plan,
    tables: &Tables,
) -> Result<Sequence<RegisterPart>, AllocError>
    requires { HaveSources machine.now.vertices tables.now.numbers.vertices tables.now.numbers.first_register plan.now.registers }
    ensures { IfOk result (λ registers. (names : NamesValue) → AreTables machine.now names plan.now tables.now
        → registers ≡ planned_registers machine.now names plan.now) }
{
    register_parts(alloc, machine, &tables.numbers, plan.registers.as_slice())
}

// Whether a further register keeps the clock.
fn keeps_clock(machine: &Machine, names: &Names, plan: &Plan) -> bool
    ensures { result ≡ keeps_clock machine.now names.now plan.now }
{
    names.clock.is_some() && plan.registers.is_empty() && !has_write(machine)
}

/// The circuit of a machine with these names, by the plan of its registers. It errs only where memory runs out.
pub(crate) fn planned_circuit(
    alloc: Global,
    machine: &Machine,
    names: Names,
    plan: &Plan,
) -> Result<Circuit, AllocError>
    requires { FitsPlan machine.now names plan.now }
    ensures { IfOk result (λ circuit. circuit ≡ planned_circuit machine.now names plan.now) }
{
    let tables = planned_tables(alloc, machine, &names, plan)?;
    let ports = planned_ports(alloc, machine, &names, &tables)?;
    let gates = planned_gates(alloc, machine, &names, &tables)?;
    let memories = planned_memories(alloc, machine, &tables)?;
    let registers = planned_registers(alloc, machine, plan, &tables)?;
    let keeps_clock = keeps_clock(machine, &names, plan);
    Ok(Circuit {
        name: names.module,
        ports,
        clock: tables.clock,
        gates,
        memories,
        registers,
        first_register: tables.numbers.first_register as usize,
        keeps_clock,
    })
}
