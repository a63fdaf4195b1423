// Laws of traces, of parts, of isolation and of what an accepted netlist lists. Each is a function without effect, whose
// clauses are the law.
ghost use Rattle.std.specs.Prelude.{◌≡◌, ◌+◌, ◌-◌, ◌*◌, ◌/◌, ◌<◌, ◌⊎◌, ◌↔◌, ℕ, List, [], Option, Some, None, bytes_eq, find, flat_map, get_or, is_some, length, map, option_and_then, option_map, replicate, slice_get, slice_index_or, false, true};
ghost use Rattle.std.specs.List.{AllByRecursion, IsDistinct, zip};
ghost use Rattle.cs_base.specs.declared.signal.Signal.TheVariants.{Bit};
ghost use Rattle.cs_cells.specs.declared.class.Class.TheVariants.{Register};
ghost use Rattle.cs_cells.specs.declared.register.FfKind.{FfKind};
ghost use Rattle.cs_cells.specs.declared.memory.MemShape.{MemShape};
ghost use Rattle.cs_cells.specs.Memories.{word_count};
ghost use Rattle.cs_net.specs.declared.netlist.Cell.{Cell};
ghost use Rattle.cs_net.specs.declared.state.MemoryWords.{MemoryWords};
ghost use Rattle.cs_conditions.specs.declared.error.NetError.{NetError};
ghost use Rattle.cs_json.specs.declared.document.Document.{Document};
ghost use Rattle.cs_modules.specs.Memories.{shapes_in};
ghost use Rattle.cs_net.specs.Accept.{Refuses, is_loop};
ghost use Rattle.cs_net.specs.Build.{places_from};
ghost use Rattle.cs_modules.specs.Modules.{is_memory};
ghost use Rattle.cs_modules.specs.declared.clocks.Clock.{Clock};
ghost use Rattle.cs_modules.specs.Signals.{holds_bit, is_bit};
ghost use Rattle.cs_net.specs.Clocks.{clock_signals, data_signals, input_signals};
ghost use Rattle.cs_net.specs.Drivers.{DrivenSignal, bits_of, data_outputs, drivers};
ghost use Rattle.cs_modules.specs.Pins.{width_at};
ghost use Rattle.cs_net.specs.Starts.{starts_of_cell};
ghost use Rattle.cs_net.specs.Widths.{widths_by};
ghost use Rattle.cs_base.specs.Parts.{part};
ghost use Rattle.cs_net.specs.Invariant.{HasBitOrder};
ghost use Rattle.cs_net.specs.Netlist.{Net, NetState, words_at};
ghost use Rattle.cs_net.specs.Trace.{Row, HasOneTrace};
ghost use Rattle.cs_net.specs.Contexts.{no_images};
ghost use Rattle.cs_net.specs.Isolates.{Isolates};

use crate::netlist::Netlist;

/// How many rows a context has, and which they are.
pub fn rows_of_a_part()
    ensures count { (rows : List Row) (k c : ℕ) → k < c → length (part k c rows) ≡ (length rows + c - 1 - k) / c }
    ensures each { (rows : List Row) (k c i : ℕ) (none : Row) → k < c
        → slice_index_or (part k c rows) i none ≡ slice_index_or rows (i * c + k) none }
{}

/// A netlist whose bits have an order, as an accepted one's have, has exactly one trace over any rows, from any state.
pub fn one_trace()
    ensures { (net : Net) (from : NetState) (rows : List Row) → HasBitOrder net → HasOneTrace net from rows }
{}

/// A netlist whose bits have an order isolates itself in one context, without images.
pub fn isolates_itself()
    ensures { (net : Net) → HasBitOrder net → Isolates net net (no_images net) 1 }
{}

/// A document has at most one refusal, but for which loop is named.
pub fn one_refusal()
    ensures { (doc : Document) (top : Option (List ℕ)) (e f : NetError) → Refuses doc top e → Refuses doc top f
        → (e ≡ f) ⊎ ((is_loop e ≡ true) × (is_loop f ≡ true)) }
{}

/// Each cell has one entry among the shapes, and a memory alone has a shape. The words of the memories stand in order of
/// the cells, under the cells' names, no two of which are equal.
pub fn memories_in_order(net: &Netlist)
    ensures one_for_each { length net.now.shapes ≡ length net.now.cells }
    ensures of_memories { (i : ℕ) (cell : Cell) (shape : Option MemShape) → slice_get net.now.cells i ≡ Some cell
        → slice_get net.now.shapes i ≡ Some shape → is_some shape ≡ is_memory cell.class }
    ensures count { length net.now.memories ≡ length (shapes_in net.now.shapes) }
    ensures distinct { IsDistinct bytes_eq (map (λ m. m.name) net.now.memories) }
    ensures named { (i : ℕ) (cell : Cell) (shape : MemShape) → slice_get net.now.cells i ≡ Some cell
        → slice_get net.now.shapes i ≡ Some (Some shape)
        → option_map (λ m. m.name) (slice_get net.now.memories (get_or (places_from 0 net.now.shapes) i 0)) ≡ Some cell.name }
{
    net.keeps();
}

/// The memories of a netlist stand in order of its shapes; each starts with as many words as the lesser of SIZE and
/// 2^ABITS, each of WIDTH bits.
pub fn memories_are_wide(net: &Netlist)
    ensures { (i : ℕ) (shape : MemShape) (memory : MemoryWords) → slice_get (shapes_in net.now.shapes) i ≡ Some shape
        → slice_get net.now.memories i ≡ Some memory
        → map length memory.words ≡ replicate (word_count shape) shape.width }
{
    net.keeps();
}

/// Words that stand under the names of a netlist's memories, as those of each state of it do, are found by the name of a
/// cell where the place of its memory is, and by no other name.
pub fn words_by_name(net: &Netlist)
    ensures found { (ms : List MemoryWords) (i : ℕ) (cell : Cell) (shape : MemShape)
        → map (λ m. m.name) ms ≡ map (λ m. m.name) net.now.memories → slice_get net.now.cells i ≡ Some cell
        → slice_get net.now.shapes i ≡ Some (Some shape)
        → option_map (λ m. m.words) (slice_get ms (get_or (places_from 0 net.now.shapes) i 0)) ≡ Some (words_at ms cell.name) }
    ensures no_other { (ms : List MemoryWords) (name : List ℕ) → map (λ m. m.name) ms ≡ map (λ m. m.name) net.now.memories
        → option_and_then (λ c. c.1) (find (λ c. bytes_eq c.0.name name) (zip net.now.cells net.now.shapes)) ≡ None
        → words_at ms name ≡ [] }
{
    net.keeps();
}

/// The starts of a netlist stand cell by cell, one for each register's bit Q.
pub fn starts_in_order(net: &Netlist)
    ensures { net.now.starts ≡ flat_map (starts_of_cell net.now.starts) net.now.cells }
{
    net.keeps();
}

/// No bit of a netlist is driven twice.
pub fn driven_once(net: &Netlist)
    ensures { (b i j : ℕ) (d e : DrivenSignal) → slice_get (drivers net.now) i ≡ Some d → slice_get (drivers net.now) j ≡ Some e
        → is_bit b d.0 ≡ true → is_bit b e.0 ≡ true → i ≡ j }
{
    net.keeps();
}

/// Each pin of a cell has as many bits as the cell's class gives it, a memory's as its shape does.
pub fn pins_are_wide(net: &Netlist)
    ensures { (i : ℕ) (cell : Cell) (shape : Option MemShape) → slice_get net.now.cells i ≡ Some cell
        → slice_get net.now.shapes i ≡ Some shape
        → (name : List ℕ) (n : ℕ) → width_at (widths_by cell.class shape) name ≡ Some n → length (bits_of cell name) ≡ n }
{
    net.keeps();
}

/// A netlist has a clock exactly where something clocks a cell. Each register then has the clock's edge, all that clocks a
/// cell is the clock's bit, and that is a bit of an input port, which no cell reads beside and no output port has.
pub fn one_clock(net: &Netlist)
    ensures exactly { (net.now.clock ≡ None) ↔ (clock_signals net.now ≡ []) }
    ensures all { (clock : Clock) → net.now.clock ≡ Some clock
        → AllByRecursion (λ s. s ≡ Bit clock.bit) (clock_signals net.now) }
    ensures edges { (clock : Clock) → net.now.clock ≡ Some clock
        → (i : ℕ) (cell : Cell) (kind : FfKind) → slice_get net.now.cells i ≡ Some cell → cell.class ≡ Register kind
        → kind.rising ≡ clock.rising }
    ensures input { (clock : Clock) → net.now.clock ≡ Some clock → holds_bit clock.bit (input_signals net.now) ≡ true }
    ensures not_read { (clock : Clock) → net.now.clock ≡ Some clock → holds_bit clock.bit (data_signals net.now) ≡ false }
    ensures not_output { (clock : Clock) → net.now.clock ≡ Some clock → holds_bit clock.bit (data_outputs net.now) ≡ false }
{
    net.keeps();
}
