// Why a document is no netlist.
ghost use Rattle.std.specs.Prelude.{◌≡◌};
ghost use Rattle.cs_conditions.specs.declared.error.NetError.TheVariants.{NoMemory};

use cs_base::{BitId, LimitFault, Sequence, Signal, Text};
use std::alloc::AllocError;

/// The refusals of a document, in the order in which their causes are looked for.
#[derive(Debug, Drop)]
pub enum NetError {
    /// No module is the top.
    NoTop,
    /// A cell's type is no gate, register or memory.
    UnknownCell { name: Text, kind: Text },
    /// A cell is coarse, as `$and`.
    NotFine { name: Text, kind: Text },
    /// A latch, a tristate buffer, or a register with an asynchronous pin or no clock.
    Asynchronous { name: Text, kind: Text },
    /// A cell has other pins than its type, or a memory lacks a size.
    BadPins { name: Text },
    /// A port has both directions.
    Inout { port: Text },
    /// An input pin of a cell, or an output port, holds `z`.
    ConstZ { name: Text },
    /// A bit is driven twice.
    TwoDrivers { bit: BitId },
    /// A clock pin's signal is no bit of an input port.
    ClockNotInput { signal: Signal },
    /// Two clock pins have different bits.
    TwoClocks { first: BitId, second: BitId },
    /// A clock pin has another edge than the first one.
    MixedEdges { name: Text },
    /// The clock's bit is read as data.
    ClockAsData { bit: BitId },
    /// A register is given both 0 and 1 as its initial value.
    TwoStarts { bit: BitId },
    /// A memory's parameter is not as it must be.
    MemoryForm { name: Text, parameter: Text },
    /// Gates and unclocked reads form a loop of these cells.
    GateLoop { cells: Sequence<Text> },
    /// A port has a name that written netlists use.
    Reserved { port: Text },
    /// A count is above the program's limit.
    Limit(LimitFault),
    NoMemory,
}

impl From<AllocError> for NetError {
    ghost from_gives = { λ _ error. error ≡ NoMemory };

    fn from(_: AllocError) -> Self {
        NetError::NoMemory
    }
}
