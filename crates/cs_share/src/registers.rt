// The registers of the written netlist.
ghost use Rattle.std.specs.Prelude.{◌≡◌, IfOk, map};
ghost use Rattle.cs_share.specs.Planned.{HasSignal, HaveSources, planned_register, signal_after};

use crate::numbers::Numbers;
use crate::signals::signal_after;
use cs_base::{Sequence, Signal};
use cs_circuit::RegisterPart;
use cs_graph::Machine;
use cs_prefix::Planned;
use std::alloc::{AllocError, Global};

// What a register reads.
fn source_of(machine: &Machine, numbers: &Numbers, register: &Planned) -> Signal
    requires { HasSignal machine.now.vertices numbers.now.vertices numbers.now.first_register
        register.now.driver.vertex register.now.driver.output register.now.behind }
    ensures { result ≡ signal_after machine.now.vertices numbers.now.vertices numbers.now.first_register
        register.now.driver.vertex register.now.driver.output register.now.behind }
{
    signal_after(machine, numbers, register.driver, register.behind)
}

/// The registers, in the order in which they are planned.
pub(crate) fn register_parts(
    alloc: Global,
    machine: &Machine,
    numbers: &Numbers,
    registers: &[Planned],
) -> Result<Sequence<RegisterPart>, AllocError>
    requires { HaveSources machine.now.vertices numbers.now.vertices numbers.now.first_register registers.now }
    ensures { IfOk result (λ parts. parts
        ≡ map (planned_register machine.now.vertices numbers.now.vertices numbers.now.first_register) registers.now) }
{
    let mut parts = Sequence::new(alloc);
    for n in 0..registers.len() {
        let source: Signal = source_of(machine, numbers, &registers[n]);
        parts.push(RegisterPart {
            source,
            start: registers[n].start,
        })?;
    }
    Ok(parts)
}
