// A netlist with its wires.
ghost use Rattle.std.specs.Prelude.{◌≡◌, ◌<◌, ◌^◌, IfOk, length};
ghost use Rattle.cs_lower.specs.Rings.{bit_behind};
ghost use Rattle.cs_lower.specs.Walks.{numbers};
ghost use Rattle.cs_lower.specs.Wires.{parts_of, wire_in};

use crate::taps::Wire;
use crate::wires::Wires;
use cs_base::{BitId, Sequence, Signal};
use cs_net::Netlist;
use std::alloc::{AllocError, Global};
use std::marker::Model;
use std::mem::size_of_val;

/// A netlist in which what drives a bit is found at once; contracts see the netlist.
#[derive(Drop)]
pub(crate) struct WiredNet<'a> {
    net: &'a Netlist,
    wires: Wires,
}

impl<'a> Model for WiredNet<'a> {
    ghost use Rattle.std.specs.Prelude.{◌≡◌, ◌<◌, ◌^◌, length};
    ghost use Rattle.cs_net.specs.Netlist.{Net};
    ghost use Rattle.cs_lower.specs.Wires.{parts_of};

    ghost Value = { Net };

    ghost view = { λ w. w.net.now };

    ghost invariant = { λ w. (w.wires ≡ (parts_of w.net.now).wires) × (length (parts_of w.net.now).wires < 2 ^ 63) };
}

impl<'a> WiredNet<'a> {
    /// A netlist with its wires. It errs only where memory runs out.
    pub fn of(
        alloc: Global,
        net: &'a Netlist,
        wires: Sequence<(Signal, Wire)>,
    ) -> Result<Self, AllocError>
        requires { wires ≡ (parts_of net.now).wires }
        ensures { IfOk result (λ wired. wired ≡ net.now) }
    {
        let _bytes = size_of_val(wires.as_slice());
        let wires = Wires::new(alloc, wires)?;
        Ok(WiredNet { net, wires })
    }

    /// There are few wires, since a wire takes more than one byte.
    pub fn keeps(&self)
        ensures { length (parts_of self.now).wires < 2 ^ 63 }
    {
        let _ = &self.net;
    }

    /// The netlist itself.
    pub fn netlist(&self) -> &'a Netlist
        ensures { result.now ≡ self.now }
    {
        self.net
    }

    /// The wires in order.
    pub fn wires(&self) -> &Wires
        ensures { result.now ≡ (parts_of self.now).wires }
    {
        &self.wires
    }

    /// A size for tables of the bits that are driven.
    pub fn table_size(&self) -> usize {
        self.wires.table_size()
    }

    /// What drives a bit.
    pub fn wire(&self, bit: BitId) -> Wire
        ensures { result ≡ wire_in (parts_of self.now).wires bit }
    {
        self.wires.wire(bit)
    }

    /// The bit behind the register that drives a bit, if a register does and takes a bit.
    pub fn behind(&self, bit: BitId) -> Option<BitId>
        ensures { result ≡ bit_behind (wire_in (parts_of self.now).wires bit) }
    {
        self.wires.behind(bit)
    }

    /// The numbers of the bits that are driven, in order. It errs only where memory runs out.
    pub fn numbers(&self, alloc: Global) -> Result<Vec<u32>, AllocError>
        ensures { IfOk result (λ found. found.items ≡ numbers (parts_of self.now).wires) }
    {
        self.wires.numbers(alloc)
    }
}
