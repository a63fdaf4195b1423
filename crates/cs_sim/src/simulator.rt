// Steps a netlist clock by clock.
ghost use Rattle.std.specs.Prelude.{◌≡◌, IfOk, length, map};
ghost use Rattle.cs_net.specs.Drivers.{data_inputs, data_outputs, own_start};
ghost use Rattle.cs_net.specs.Trace.{IsStep};
ghost use Rattle.cs_sim.specs.Layout.{driven_signals};
ghost use Rattle.cs_sim.specs.Slots.{slot_of, value_at};

use crate::held::Held;
use crate::layout::Layout;
use crate::settle::settle;
use crate::slots::value;
use crate::wiring::Wiring;
use cs_base::Sequence;
use cs_net::Netlist;
use std::alloc::{AllocError, Global};
use std::marker::Model;

/// A netlist that is simulated, and the state that it is in: what its registers, clocked reads and memories hold.
#[derive(Drop)]
pub struct Sim<'a> {
    net: &'a Netlist,
    layout: Layout,
    outputs: Sequence<usize>,
    held: Held,
    values: Vec<bool>,
}

impl<'a> Model for Sim<'a> {
    ghost use Rattle.std.specs.Prelude.{◌≡◌, length, map};
    ghost use Rattle.cs_net.specs.Drivers.{data_outputs};
    ghost use Rattle.cs_sim.specs.Layout.{driven_signals, layout_of};
    ghost use Rattle.cs_sim.specs.Simulation.{Simulation};
    ghost use Rattle.cs_sim.specs.Slots.{slot_of};
    ghost use Rattle.cs_sim.specs.Start.{Fits, snapshot_of};

    ghost Value = { Simulation };

    ghost view = { λ s. record { net = s.net.now; state = snapshot_of s.net.now s.layout s.held } };

    ghost invariant = { λ s.
        (s.layout ≡ layout_of s.net.now)
        × (s.outputs ≡ map (slot_of (driven_signals s.net.now)) (data_outputs s.net.now))
        × Fits s.layout s.held
        × (length s.values.items ≡ s.layout.slots) };
}

fn output_slots(alloc: Global, net: &Netlist) -> Result<Sequence<usize>, AllocError>
    ensures { IfOk result (λ slots. slots ≡ map (slot_of (driven_signals net.now)) (data_outputs net.now)) }
{
    let wiring = Wiring::of(alloc, net)?;
    wiring.slots(alloc, net.data_outputs(alloc)?.as_slice())
}

fn show(values: &[bool], slots: &[usize], output: &mut [bool])
    requires { length output.old ≡ length slots.now }
    ensures { output.new ≡ map (value_at values.now) slots.now }
{
    for i in 0..output.len() {
        output[i] = value(values, slots[i]);
    }
}

impl<'a> Sim<'a> {
    /// A netlist at its start: what is laid out once here is what each clock goes through. It errs only where memory
    /// runs out.
    pub fn new(alloc: Global, net: &'a Netlist) -> Result<Self, AllocError>
        ensures net { IfOk result (λ sim. sim.net ≡ net.now) }
        ensures start { IfOk result (λ sim. sim.state ≡ own_start net.now) }
    {
        net.keeps();
        let outputs = output_slots(alloc, net)?;
        let layout = Layout::of(alloc, net)?;
        let values = vec![in alloc; false; layout.slots.count()]?;
        let held = Held::at_start(alloc, net, &layout)?;
        Ok(Sim {
            net,
            outputs,
            layout,
            held,
            values,
        })
    }

    /// Goes through one clock: given a bit for each data input, it gives one for each data output, and goes on to the
    /// state after the clock's edge.
    pub fn step(&mut self, input: &[bool], output: &mut [bool])
        requires inputs { length input.now ≡ length (data_inputs self.old.net) }
        requires outputs { length output.old ≡ length (data_outputs self.old.net) }
        ensures net { self.new.net ≡ self.old.net }
        ensures step { IsStep self.old.net self.old.state self.new.state input.now output.new }
    {
        self.net.keeps();
        settle(
            &self.held,
            input,
            self.layout.parts.as_slice(),
            self.net.order(),
            self.values.as_mut_slice(),
        );
        show(self.values.as_slice(), self.outputs.as_slice(), output);
        self.held.advance(&self.layout, self.values.as_slice());
    }
}
