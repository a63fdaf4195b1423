// Why a document is no netlist, in words.
ghost use Rattle.std.specs.Prelude.{◌≡◌, ◌++◌, IfOk};
ghost use Rattle.cs_report.specs.Limits.{limit_words};
ghost use Rattle.cs_report.specs.Refused.{bit_refused_words, bit_words, cell_words, clock_words, loop_words, memory_words, name_words, refused_words, signal_words, two_bits};

use crate::fault::limit_text;
use crate::words::{quoted, text_after};
use cs_base::{BitId, Signal, Text};
use cs_conditions::NetError;
use std::alloc::{AllocError, Global};

fn name_text(alloc: Global, words: &str, name: &Text) -> Result<Text, AllocError>
    ensures { IfOk result (λ text. text ≡ name_words words.now name.now) }
{
    let name = quoted(alloc, name.as_str())?;
    let name = name.as_str();
    Ok(Text::from_string(format!(in alloc; "netlist: {words} {name}")?))
}

fn cell_text(alloc: Global, words: &str, name: &Text, kind: &Text) -> Result<Text, AllocError>
    ensures { IfOk result (λ text. text ≡ cell_words words.now name.now kind.now) }
{
    let name = quoted(alloc, name.as_str())?;
    let kind = quoted(alloc, kind.as_str())?;
    let name = name.as_str();
    let kind = kind.as_str();
    Ok(Text::from_string(format!(in alloc; "netlist: {words} cell {name} of type {kind}")?))
}

fn bit_text(alloc: Global, before: &str, bit: BitId, after: &str) -> Result<Text, AllocError>
    ensures { IfOk result (λ text. text ≡ bit_words before.now bit after.now) }
{
    let number = bit.get();
    Ok(Text::from_string(format!(in alloc; "netlist: {before} bit {number}{after}")?))
}

fn two_bits(alloc: Global, first: BitId, second: BitId) -> Result<Text, AllocError>
    ensures { IfOk result (λ text. text ≡ two_bits first second) }
{
    let first = first.get();
    let second = second.get();
    Ok(Text::from_string(format!(in alloc; "netlist: two clocks {first} and {second}")?))
}

fn signal_text(alloc: Global, signal: Signal) -> Result<Text, AllocError>
    ensures { IfOk result (λ text. text ≡ signal_words signal) }
{
    match signal {
        Signal::Zero => Text::from_str(alloc, "0"),
        Signal::One => Text::from_str(alloc, "1"),
        Signal::Unknown => Text::from_str(alloc, "x"),
        Signal::HighZ => Text::from_str(alloc, "z"),
        Signal::Bit(bit) => {
            let number = bit.get();
            Ok(Text::from_string(format!(in alloc; "{number}")?))
        }
    }
}

fn clock_text(alloc: Global, signal: Signal) -> Result<Text, AllocError>
    ensures { IfOk result (λ text. text ≡ clock_words signal) }
{
    let signal = signal_text(alloc, signal)?;
    let signal = signal.as_str();
    Ok(Text::from_string(format!(in alloc; "netlist: clock {signal} is no input")?))
}

fn memory_text(alloc: Global, name: &Text, parameter: &Text) -> Result<Text, AllocError>
    ensures { IfOk result (λ text. text ≡ memory_words name.now parameter.now) }
{
    let name = quoted(alloc, name.as_str())?;
    let name = name.as_str();
    let parameter = parameter.as_str();
    Ok(Text::from_string(format!(in alloc; "netlist: memory {name} by {parameter}")?))
}

fn loop_text(alloc: Global, cells: &[Text]) -> Result<Text, AllocError>
    ensures { IfOk result (λ text. text ≡ loop_words cells.now) }
{
    let mut text = String::from_str(alloc, "netlist: loop")?;
    for cell in cells {
        let name = quoted(alloc, cell.as_str())?;
        text.push_str(" ")?;
        text.push_str(name.as_str())?;
    }
    Ok(Text::from_string(text))
}

fn bit_refused_text(alloc: Global, error: &NetError) -> Result<Text, AllocError>
    ensures { IfOk result (λ text. text ≡ bit_refused_words error.now) }
{
    match error {
        NetError::TwoDrivers { bit } => bit_text(alloc, "two drivers of", *bit, ""),
        NetError::ClockNotInput { signal } => clock_text(alloc, *signal),
        NetError::TwoClocks { first, second } => two_bits(alloc, *first, *second),
        NetError::ClockAsData { bit } => bit_text(alloc, "clock", *bit, " is read as data"),
        NetError::TwoStarts { bit } => bit_text(alloc, "two starts at", *bit, ""),
        NetError::Limit(fault) => limit_text(alloc, *fault),
        _ => Text::from_str(alloc, "out of memory"),
    }
}

/// Why a document is no netlist, in words.
pub(crate) fn refused_text(alloc: Global, error: &NetError) -> Result<Text, AllocError>
    ensures { IfOk result (λ text. text ≡ refused_words error.now) }
{
    match error {
        NetError::NoTop => Text::from_str(alloc, "netlist: no top module"),
        NetError::UnknownCell { name, kind } => cell_text(alloc, "unknown", name, kind),
        NetError::NotFine { name, kind } => cell_text(alloc, "not fine", name, kind),
        NetError::Asynchronous { name, kind } => cell_text(alloc, "asynchronous", name, kind),
        NetError::BadPins { name } => name_text(alloc, "pins of", name),
        NetError::Inout { port } => name_text(alloc, "inout port", port),
        NetError::ConstZ { name } => name_text(alloc, "constant z at", name),
        NetError::MixedEdges { name } => name_text(alloc, "other clock edge at", name),
        NetError::MemoryForm { name, parameter } => memory_text(alloc, name, parameter),
        NetError::GateLoop { cells } => loop_text(alloc, cells.as_slice()),
        NetError::Reserved { port } => name_text(alloc, "reserved port", port),
        _ => bit_refused_text(alloc, error),
    }
}
