// The pins of a cell by its type, and the numbers that give a memory its own.
ghost use Rattle.std.specs.Prelude.{◌≡◌, ◌&&◌, ◌<◌, ◌^◌, IfOk, MatchOption, bytes_eq, false, find, is_some, option_map, true, ◌==◌, None, Some};
ghost use Rattle.std.specs.List.{list_all};
ghost use Rattle.std.specs.Option.{option_copied};
ghost use Rattle.cs_cells.specs.declared.class.Class.TheVariants.{Memory};
ghost use Rattle.cs_modules.specs.Pins.{has_right_pins, class_at, gate_widths, has_pin, has_pins, is_pin_of, is_size, memory_sizes, memory_widths, number_at, register_widths, width_at, widths_of, pin_bits, parameter};
ghost use Rattle.cs_modules.specs.Digits.{datum_at, value_of};
ghost use Rattle.cs_modules.specs.PinBits.{widths_in};

use crate::classes::class_at;
use crate::digits::{datum_at, digits_at, digits_of, value_of};
use cs_base::Signal;
use cs_cells::{Class, FfKind, Kind};
use cs_json::{CellDecl, PinDecl};
use std::alloc::{AllocError, Global};

/// The digits of a parameter of a cell.
pub fn parameter(alloc: Global, cell: &CellDecl, name: &str) -> Result<Vec<u8>, AllocError>
    ensures { IfOk result (λ digits. digits.items ≡ parameter cell.now name.now) }
{
    digits_at(alloc, name, cell.parameters.as_slice())
}

/// The bits of the pin of a name, and none where it is missing.
pub fn pin_bits<'a>(pins: &'a [PinDecl], name: &str) -> &'a [Signal]
    ensures { result.now ≡ pin_bits pins.now name.now }
{
    match pins.iter().find(|pin| pin.name.as_str() == name) {
        Some(pin) => pin.bits.as_slice(),
        None => &[],
    }
}

// The name of a pin and its number of bits.
type PinWidth = (&'static str, u64);

fn gate_widths(alloc: Global, kind: Kind) -> Result<Vec<PinWidth>, AllocError>
    ensures { IfOk result (λ v. widths_in v.items ≡ gate_widths kind) }
{
    let mut widths = Vec::new(alloc);
    for i in 0..kind.pin_count() {
        widths.push((kind.pin_name(i), 1u64))?;
    }
    widths.push(("Y", 1u64))?;
    Ok(widths)
}

fn register_widths(alloc: Global, kind: FfKind) -> Result<Vec<PinWidth>, AllocError>
    ensures { IfOk result (λ v. widths_in v.items ≡ register_widths kind) }
{
    let mut widths = vec![in alloc; ("C", 1u64), ("D", 1), ("Q", 1)]?;
    if kind.enable.is_some() {
        widths.push(("E", 1u64))?;
    }
    if kind.reset.is_some() {
        widths.push(("R", 1u64))?;
    }
    Ok(widths)
}

fn width_named(widths: &[PinWidth], name: &str) -> Option<u64>
    ensures { result ≡ option_map (λ w. w.1) (find (λ w. bytes_eq w.0.now name.now) widths.now) }
{
    widths
        .iter()
        .find(|width| width.0 == name)
        .map(|width| width.1)
}

fn width_at(widths: &[PinWidth], name: &str) -> Option<u64>
    ensures { result ≡ width_at (widths_in widths.now) name.now }
{
    width_named(widths, name)
}

fn is_pin_of(widths: &[PinWidth], pin: &PinDecl) -> bool
    ensures { result ≡ is_pin_of (widths_in widths.now) pin.now }
{
    match width_at(widths, pin.name.as_str()) {
        Some(width) => pin.bits.len() as u64 == width,
        None => false,
    }
}

fn pin_named<'a>(name: &str, pins: &'a [PinDecl]) -> Option<&'a PinDecl>
    ensures { option_copied result ≡ find (λ p. bytes_eq p.name name.now) pins.now }
{
    pins.iter().find(|pin| pin.name.as_str() == name)
}

fn has_pin(pins: &[PinDecl], name: &str) -> bool
    ensures { result ≡ has_pin pins.now name.now }
{
    pin_named(name, pins).is_some()
}

fn are_pins_of(widths: &[PinWidth], pins: &[PinDecl]) -> bool
    ensures { result ≡ list_all (is_pin_of (widths_in widths.now)) pins.now }
{
    pins.iter().all(|pin| is_pin_of(widths, pin))
}

fn has_each_named(widths: &[PinWidth], pins: &[PinDecl]) -> bool
    ensures { result ≡ list_all (λ w. has_pin pins.now w.0.now) widths.now }
{
    widths.iter().all(|width| has_pin(pins, width.0))
}

fn has_each(widths: &[PinWidth], pins: &[PinDecl]) -> bool
    ensures { result ≡ list_all (λ w. has_pin pins.now w.0) (widths_in widths.now) }
{
    has_each_named(widths, pins)
}

fn has_pins(widths: &[PinWidth], pins: &[PinDecl]) -> bool
    ensures { result ≡ has_pins (widths_in widths.now) pins.now }
{
    are_pins_of(widths, pins) && has_each(widths, pins)
}

// The number that a size of a memory spells, where it is there and below 2^32.
fn size(alloc: Global, cell: &CellDecl, name: &str) -> Result<Option<u32>, AllocError>
    ensures { IfOk result (λ found. MatchOption found
        (is_size cell.now name.now ≡ false)
        (λ number. (is_size cell.now name.now ≡ true) × (number ≡ number_at cell.now name.now))) }
{
    match datum_at(name, cell.parameters.as_slice()) {
        Some(datum) => {
            let digits = digits_of(alloc, datum)?;
            Ok(value_of(digits.as_slice()))
        }
        None => Ok(None),
    }
}

/// The number that a size of a memory spells.
pub fn number_at(alloc: Global, cell: &CellDecl, name: &str) -> Result<u32, AllocError>
    requires { is_size cell.now name.now ≡ true }
    ensures { IfOk result (λ number. number ≡ number_at cell.now name.now) }
{
    let number = size(alloc, cell, name)?;
    Ok(number.unwrap_or(0))
}

// What gives a memory its pins: its numbers of read ports, write ports and address bits, and the width of a word.
#[derive(Clone, Copy, Drop)]
struct Sizes {
    reads: u32,
    writes: u32,
    address_bits: u32,
    width: u32,
}

// The sizes of a memory, where none is missing.
fn sizes_of(alloc: Global, cell: &CellDecl) -> Result<Option<Sizes>, AllocError>
    ensures { IfOk result (λ found. MatchOption found
        (list_all (is_size cell.now) memory_sizes ≡ false)
        (λ s. (list_all (is_size cell.now) memory_sizes ≡ true) × (widths_of Memory cell.now
        ≡ memory_widths s.reads s.writes s.address_bits s.width))) }
{
    let Some(_words) = size(alloc, cell, "SIZE")? else {
        return Ok(None);
    };
    let Some(address_bits) = size(alloc, cell, "ABITS")? else {
        return Ok(None);
    };
    let Some(width) = size(alloc, cell, "WIDTH")? else {
        return Ok(None);
    };
    let Some(reads) = size(alloc, cell, "RD_PORTS")? else {
        return Ok(None);
    };
    let Some(writes) = size(alloc, cell, "WR_PORTS")? else {
        return Ok(None);
    };
    Ok(Some(Sizes {
        reads,
        writes,
        address_bits,
        width,
    }))
}

fn memory_widths(alloc: Global, sizes: Sizes) -> Result<Vec<PinWidth>, AllocError>
    ensures { IfOk result (λ v. widths_in v.items
        ≡ memory_widths sizes.reads sizes.writes sizes.address_bits sizes.width) }
{
    let reads = u64::from(sizes.reads);
    let writes = u64::from(sizes.writes);
    let address_bits = u64::from(sizes.address_bits);
    let width = u64::from(sizes.width);
    let widths = vec![in alloc;
        ("RD_CLK", reads),
        ("RD_EN", reads),
        ("RD_ARST", reads),
        ("RD_SRST", reads),
        ("RD_ADDR", reads * address_bits),
        ("RD_DATA", reads * width),
        ("WR_CLK", writes),
        ("WR_EN", writes * width),
        ("WR_ADDR", writes * address_bits),
        ("WR_DATA", writes * width),
    ]?;
    Ok(widths)
}

fn has_memory_pins(alloc: Global, cell: &CellDecl) -> Result<bool, AllocError>
    ensures { IfOk result (λ has. has ≡ (list_all (is_size cell.now) memory_sizes
        && has_pins (widths_of Memory cell.now) cell.now.pins)) }
{
    let Some(sizes) = sizes_of(alloc, cell)? else {
        return Ok(false);
    };
    let widths = memory_widths(alloc, sizes)?;
    Ok(has_pins(widths.as_slice(), cell.pins.as_slice()))
}

fn has_gate_pins(alloc: Global, kind: Kind, cell: &CellDecl) -> Result<bool, AllocError>
    ensures { IfOk result (λ has. has ≡ has_pins (gate_widths kind) cell.now.pins) }
{
    let widths = gate_widths(alloc, kind)?;
    Ok(has_pins(widths.as_slice(), cell.pins.as_slice()))
}

fn has_register_pins(alloc: Global, kind: FfKind, cell: &CellDecl) -> Result<bool, AllocError>
    ensures { IfOk result (λ has. has ≡ has_pins (register_widths kind) cell.now.pins) }
{
    let widths = register_widths(alloc, kind)?;
    Ok(has_pins(widths.as_slice(), cell.pins.as_slice()))
}

/// Whether a cell has just the pins of its type, each as wide, and, of a memory, its sizes below 2^32. It errs only where
/// memory runs out.
pub fn has_right_pins(alloc: Global, cell: &CellDecl) -> Result<bool, AllocError>
    ensures { IfOk result (λ has. has ≡ has_right_pins cell.now) }
{
    match class_at(cell) {
        Class::Gate(kind) => has_gate_pins(alloc, kind, cell),
        Class::Register(kind) => has_register_pins(alloc, kind, cell),
        Class::Memory => has_memory_pins(alloc, cell),
        Class::Scope | Class::Asynchronous | Class::NotFine | Class::Unknown => {
            Ok(has_pins(&[], cell.pins.as_slice()))
        }
    }
}
