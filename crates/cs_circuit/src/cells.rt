// The cells and the nets of gates and registers.
ghost use Rattle.std.specs.Prelude.{◌≡◌, ◌++◌, ◌<◌, ◌^◌, [], ◌∷◌, false, IfOk, OnOk, codes, if◌then◌else◌};
ghost use Rattle.cs_base.specs.declared.signal.Signal.TheVariants.{Bit};
ghost use Rattle.cs_circuit.specs.Cells.{clock_signal, gate_cell, gate_pins, is_rising, numbered, origin_entries, pin, register_cell, text_entry};

use crate::circuit::GatePart;
use cs_base::{BitId, Sequence, Signal, Text};
use cs_json::{CellDecl, Datum, Entry, PinDecl};
use cs_modules::Clock;
use std::alloc::{AllocError, Global};

/// A name by its number.
pub(crate) fn numbered(alloc: Global, front: &str, n: usize) -> Result<Text, AllocError>
    ensures name { IfOk result (λ name. name ≡ numbered front.now n) }
    ensures fits { OnOk result (n < 2 ^ 64) }
{
    Ok(Text::from_string(format!(in alloc; "{front}{n}")?))
}

pub(crate) fn one_signal(alloc: Global, signal: Signal) -> Result<Sequence<Signal>, AllocError>
    ensures { IfOk result (λ signals. signals ≡ signal ∷ []) }
{
    let mut signals = Sequence::new(alloc);
    signals.push(signal)?;
    Ok(signals)
}

/// Puts a pin behind the others.
pub(crate) fn add_pin(
    alloc: Global,
    pins: &mut Sequence<PinDecl>,
    name: &str,
    bits: Sequence<Signal>,
    output: bool,
) -> Result<(), AllocError>
    ensures { OnOk result (pins.new ≡ pins.old ++ pin name.now bits output ∷ []) }
{
    let name = Text::from_str(alloc, name)?;
    pins.push(PinDecl { name, bits, output })
}

/// Puts a pin of one bit behind the others.
fn add_bit(
    alloc: Global,
    pins: &mut Sequence<PinDecl>,
    name: &str,
    bit: Signal,
    output: bool,
) -> Result<(), AllocError>
    ensures { OnOk result (pins.new ≡ pins.old ++ pin name.now (bit ∷ []) output ∷ []) }
{
    let bits = one_signal(alloc, bit)?;
    add_pin(alloc, pins, name, bits, output)
}

/// Puts an entry whose value is a text behind the others.
pub(crate) fn add_text(
    alloc: Global,
    entries: &mut Sequence<Entry>,
    name: &str,
    text: Text,
) -> Result<(), AllocError>
    ensures { OnOk result (entries.new ≡ entries.old ++ text_entry name.now text ∷ []) }
{
    let name = Text::from_str(alloc, name)?;
    let datum = Datum::Digits(text);
    entries.push(Entry { name, datum })
}

/// The only entry, whose value is a text.
pub(crate) fn one_text(alloc: Global, name: &str, text: &str) -> Result<Sequence<Entry>, AllocError>
    ensures { IfOk result (λ entries. entries ≡ text_entry name.now text.now ∷ []) }
{
    let text = Text::from_str(alloc, text)?;
    let mut entries = Sequence::new(alloc);
    add_text(alloc, &mut entries, name, text)?;
    Ok(entries)
}

/// The signal that clocks everything.
pub(crate) fn clock_signal(clock: Option<Clock>) -> Signal
    ensures { result ≡ clock_signal clock }
{
    match clock {
        Some(clock) => Signal::Bit(clock.bit),
        None => Signal::Zero,
    }
}

/// Whether the clock's edge rises.
pub(crate) fn is_rising(clock: Option<Clock>) -> bool
    ensures { result ≡ is_rising clock }
{
    match clock {
        Some(clock) => clock.rising,
        None => true,
    }
}

fn origin_entries(alloc: Global, origin: &str) -> Result<Sequence<Entry>, AllocError>
    ensures { IfOk result (λ entries. entries ≡ origin_entries origin.now) }
{
    if origin.is_empty() {
        Ok(Sequence::new(alloc))
    } else {
        one_text(alloc, "cslow_cell", origin)
    }
}

fn gate_pins(alloc: Global, gate: &GatePart) -> Result<Sequence<PinDecl>, AllocError>
    ensures { IfOk result (λ pins. pins ≡ gate_pins gate.now) }
{
    let signals = gate.pins.as_slice();
    let mut pins = Sequence::new(alloc);
    for i in 0..gate.kind.pin_count() {
        let signal = signals.get(i).copied().unwrap_or(Signal::Zero);
        add_bit(alloc, &mut pins, gate.kind.pin_name(i), signal, false)?;
    }
    add_bit(alloc, &mut pins, "Y", Signal::Bit(gate.output), true)?;
    Ok(pins)
}

/// The cell of a gate.
pub(crate) fn gate_cell(alloc: Global, gate: &GatePart) -> Result<CellDecl, AllocError>
    ensures cell { IfOk result (λ cell. cell ≡ gate_cell gate.now) }
    ensures fits { OnOk result (gate.now.number < 2 ^ 64) }
{
    Ok(CellDecl {
        name: numbered(alloc, "$cs$g", gate.number)?,
        kind: Text::from_str(alloc, gate.kind.name())?,
        parameters: Sequence::new(alloc),
        attributes: origin_entries(alloc, gate.origin.as_str())?,
        pins: gate_pins(alloc, gate)?,
    })
}

fn register_type(clock: Option<Clock>) -> &'static str
    ensures { result.now ≡ (if is_rising clock then codes "$_DFF_P_" else codes "$_DFF_N_") }
{
    if is_rising(clock) {
        "$_DFF_P_"
    } else {
        "$_DFF_N_"
    }
}

fn register_pins(
    alloc: Global,
    clock: Option<Clock>,
    source: Signal,
    q: BitId,
) -> Result<Sequence<PinDecl>, AllocError>
    ensures { IfOk result (λ pins. pins ≡ (register_cell clock [] source q).pins) }
{
    let mut pins = Sequence::new(alloc);
    add_bit(alloc, &mut pins, "C", clock_signal(clock), false)?;
    add_bit(alloc, &mut pins, "D", source, false)?;
    add_bit(alloc, &mut pins, "Q", Signal::Bit(q), true)?;
    Ok(pins)
}

/// The cell of a register without reset and enable that has this signal at D and drives the bit q.
pub(crate) fn register_cell(
    alloc: Global,
    clock: Option<Clock>,
    name: Text,
    source: Signal,
    q: BitId,
) -> Result<CellDecl, AllocError>
    ensures { IfOk result (λ cell. cell ≡ register_cell clock name source q) }
{
    Ok(CellDecl {
        name,
        kind: Text::from_str(alloc, register_type(clock))?,
        parameters: Sequence::new(alloc),
        attributes: Sequence::new(alloc),
        pins: register_pins(alloc, clock, source, q)?,
    })
}
