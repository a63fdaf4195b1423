// An accepted netlist.
ghost use Rattle.std.specs.Prelude.{◌≡◌, ◌<◌, [], IfOk, Some, bytes_eq, false, find, get_or, length, option_map, slice_get};
ghost use Rattle.cs_cells.specs.declared.memory.MemShape.{MemShape};
ghost use Rattle.std.specs.Option.{option_and_then, option_copied};
ghost use Rattle.cs_net.specs.declared.netlist.Cell.{Cell};
ghost use Rattle.cs_order.specs.Graphs.{IsOrder};
ghost use Rattle.cs_net.specs.Drivers.{bits_of, data_inputs, data_outputs, port_part, signal_of};
ghost use Rattle.cs_net.specs.Elements.{elements_of, graph_of};
ghost use Rattle.cs_net.specs.Netlist.{Net, bit_at, words_at};
ghost use Rattle.cs_net.specs.Invariant.{IsMemoryBit, IsWellFormed};
ghost use Rattle.cs_net.specs.Starts.{noted_value};

use crate::build::output_bits;
use crate::elements::data_inputs;
use crate::state::{BitValue, MemoryWords};
use cs_base::{BitId, Sequence, Signal, Text};
use cs_cells::{Class, MemShape};
use cs_json::Direction;
use cs_modules::Clock;
use std::alloc::{AllocError, Global};
use std::collections::HashMap;
use std::marker::Model;

/// A cell with its class and its pins, in order of their names.
#[derive(Drop)]
pub struct Cell {
    pub name: Text,
    pub class: Class,
    pub pins: Sequence<PinBits>,
}

impl Cell {
    /// The bits of the pin of a name, and none where it is missing.
    pub fn bits(&self, name: &str) -> &[Signal]
        ensures { result.now ≡ bits_of self.now name.now }
    {
        match pin_named(self.pins.as_slice(), name) {
            Some(pin) => pin.bits.as_slice(),
            None => &[],
        }
    }

    /// The signal of a pin of one bit, and 0 where it is missing.
    pub fn signal(&self, name: &str) -> Signal
        ensures { result ≡ signal_of self.now name.now }
    {
        self.bits(name).first().copied().unwrap_or(Signal::Zero)
    }

    /// The part of a memory's port among the bits of a pin, `width` bits for each port.
    pub fn port_part(&self, name: &str, width: u32, port: usize) -> &[Signal]
        ensures { result.now ≡ port_part self.now name.now width port }
    {
        let bits = self.bits(name);
        let start = port.saturating_mul(width as usize).min(bits.len());
        let end = start.saturating_add(width as usize).min(bits.len());
        &bits[start..end]
    }
}

fn pin_named<'a>(pins: &'a [PinBits], name: &str) -> Option<&'a PinBits>
    ensures { option_copied result ≡ find (λ p. bytes_eq p.name name.now) pins.now }
{
    pins.iter().find(|pin| pin.name.as_str() == name)
}

/// A pin and what each of its bits is connected to, least significant first.
#[derive(Drop)]
pub struct PinBits {
    pub name: Text,
    pub bits: Sequence<Signal>,
}

/// A port and its bits, least significant first.
#[derive(Drop)]
pub struct Port {
    pub name: Text,
    pub direction: Direction,
    pub bits: Sequence<Signal>,
}

/// An accepted netlist.
#[derive(Drop)]
pub struct Netlist {
    pub(crate) name: Text,
    pub(crate) ports: Sequence<Port>,
    pub(crate) cells: Sequence<Cell>,
    pub(crate) shapes: Sequence<Option<MemShape>>,
    pub(crate) clock: Option<Clock>,
    pub(crate) starts: Sequence<BitValue>,
    pub(crate) memories: Sequence<MemoryWords>,
    /// The numbers of the elements, each after those that drive its inputs.
    pub(crate) order: Sequence<usize>,
    /// The starts by the numbers of their bits.
    pub(crate) start_values: HashMap<u32, bool>,
    /// For each cell that is a memory, where its words stand among the memories.
    pub(crate) memory_places: Sequence<usize>,
    pub(crate) input_count: usize,
    pub(crate) output_count: usize,
}

impl Model for Netlist {
    ghost use Rattle.cs_net.specs.Netlist.{Net, bit_at};

    ghost Value = { Net };

    ghost view = { λ n. record { name = n.name; ports = n.ports; cells = n.cells; shapes = n.shapes; clock = n.clock; starts = n.starts; memories = n.memories } };

    ghost use Rattle.std.specs.Prelude.{◌≡◌, ℕ, length};
    ghost use Rattle.cs_order.specs.Graphs.{IsOrder};
    ghost use Rattle.cs_net.specs.Drivers.{data_inputs, data_outputs};
    ghost use Rattle.cs_net.specs.Elements.{elements_of, graph_of};
    ghost use Rattle.cs_net.specs.Invariant.{AreMemoryPlaces, IsWellFormed};
    ghost use Rattle.cs_net.specs.Starts.{noted_value};

    ghost invariant = { λ n.
        let net : Net = record { name = n.name; ports = n.ports; cells = n.cells; shapes = n.shapes; clock = n.clock; starts = n.starts; memories = n.memories } in
        IsWellFormed net
        × ((b : ℕ) → noted_value n.start_values b ≡ bit_at n.starts b)
        × AreMemoryPlaces net n.memory_places
        × (n.input_count ≡ length (data_inputs net))
        × (n.output_count ≡ length (data_outputs net))
        × IsOrder (graph_of (elements_of net)) n.order };
}

impl Netlist {
    /// What every netlist keeps: it is that of a module that no condition refuses.
    pub fn keeps(&self)
        ensures { IsWellFormed self.now }
    {
        let _ = &self.name;
    }

    pub fn module_name(&self) -> &Text
        ensures { result.now ≡ self.now.name }
    {
        &self.name
    }

    pub fn cell_count(&self) -> usize
        ensures { result ≡ length self.now.cells }
    {
        self.cells.len()
    }

    pub fn cell(&self, i: usize) -> &Cell
        requires { i < length self.now.cells }
        ensures { slice_get self.now.cells i ≡ Some result.now }
    {
        &self.cells.as_slice()[i]
    }

    /// The cells, in order of their names.
    pub fn cells(&self) -> &[Cell]
        ensures { result.now ≡ self.now.cells }
    {
        self.cells.as_slice()
    }

    pub fn port_count(&self) -> usize
        ensures { result ≡ length self.now.ports }
    {
        self.ports.len()
    }

    pub fn port(&self, i: usize) -> &Port
        requires { i < length self.now.ports }
        ensures { slice_get self.now.ports i ≡ Some result.now }
    {
        &self.ports.as_slice()[i]
    }

    /// The ports, in order of their names.
    pub fn ports(&self) -> &[Port]
        ensures { result.now ≡ self.now.ports }
    {
        self.ports.as_slice()
    }

    pub fn clock(&self) -> Option<Clock>
        ensures { result ≡ self.now.clock }
    {
        self.clock
    }

    /// The numbers of the netlist's elements, in an order in which each stands after those that drive its inputs. Element
    /// 0 is the data inputs; the others are numbered cell by cell from 1 on: a gate and a register are one each, a memory
    /// has one for each read port, in order. Registers and clocked reads depend on nothing.
    pub fn order(&self) -> &[usize]
        ensures { IsOrder (graph_of (elements_of self.now)) result.now }
    {
        self.order.as_slice()
    }

    /// The shapes of the memories: for each cell one, of a memory alone, in order of the cells.
    pub fn shapes(&self) -> &[Option<MemShape>]
        ensures { result.now ≡ self.now.shapes }
    {
        self.shapes.as_slice()
    }

    /// The bit Q of each register with its start, in order of the cells.
    pub fn starts(&self) -> &[BitValue]
        ensures { result.now ≡ self.now.starts }
    {
        self.starts.as_slice()
    }

    /// The words of each memory at the start, in order of the cells.
    pub fn memories(&self) -> &[MemoryWords]
        ensures { result.now ≡ self.now.memories }
    {
        self.memories.as_slice()
    }

    /// The start of a register's bit Q, and false for every other bit.
    pub fn start(&self, bit: BitId) -> bool
        ensures { result ≡ bit_at self.now.starts bit }
    {
        self.start_values.get(&bit.get()).copied().unwrap_or(false)
    }

    /// The data input bits: those of the input ports without the clock, port by port, least first. It errs only where
    /// memory runs out.
    pub fn data_inputs(&self, alloc: Global) -> Result<Vec<Signal>, AllocError>
        ensures { IfOk result (λ inputs. inputs.items ≡ data_inputs self.now) }
    {
        data_inputs(alloc, self.ports.as_slice(), self.clock)
    }

    /// The data output bits: those of the output ports, port by port, least first. It errs only where memory runs out.
    pub fn data_outputs(&self, alloc: Global) -> Result<Vec<Signal>, AllocError>
        ensures { IfOk result (λ outputs. outputs.items ≡ data_outputs self.now) }
    {
        output_bits(alloc, self.ports.as_slice())
    }

    /// The number of data input bits: the bits of the input ports without the clock.
    pub fn input_count(&self) -> usize
        ensures { result ≡ length (data_inputs self.now) }
    {
        self.input_count
    }

    /// The number of data output bits.
    pub fn output_count(&self) -> usize
        ensures { result ≡ length (data_outputs self.now) }
    {
        self.output_count
    }

    /// The shape of cell i, where that is a memory.
    pub fn memory(&self, i: usize) -> Option<&MemShape>
        ensures { option_copied result ≡ option_and_then (λ shape. shape) (slice_get self.now.shapes i) }
    {
        match self.shapes.as_slice().get(i) {
            Some(shape) => shape.as_ref(),
            None => None,
        }
    }

    /// A bit of a word of the memory that cell i is, at the start.
    pub fn memory_bit(&self, i: usize, word: u32, bit: u32) -> bool
        requires { IsMemoryBit self.now i word bit }
        ensures { (cell : Cell) → slice_get self.now.cells i ≡ Some cell
            → result ≡ get_or (get_or (words_at self.now.memories cell.name) word []) bit false }
    {
        match self.words_at(i) {
            Some(memory) => word_bit(memory, word as usize, bit as usize),
            None => false,
        }
    }

    // The words of the memory that cell i is.
    fn words_at(&self, i: usize) -> Option<&MemoryWords>
        ensures { (cell : Cell) (shape : MemShape) → slice_get self.now.cells i ≡ Some cell → slice_get self.now.shapes i ≡ Some (Some shape)
            → option_map (λ m. m.now.words) result ≡ Some (words_at self.now.memories cell.name) }
    {
        let place = place_at(self.memory_places.as_slice(), i);
        self.memories.as_slice().get(place)
    }
}

fn place_at(places: &[usize], i: usize) -> usize
    ensures { result ≡ get_or places.now i 0 }
{
    places.get(i).copied().unwrap_or(0)
}

fn word_bit(memory: &MemoryWords, word: usize, bit: usize) -> bool
    ensures { result ≡ get_or (get_or memory.now.words word []) bit false }
{
    memory.words.word(word).get(bit).copied().unwrap_or(false)
}
