// The bits that input ports and cells drive.
ghost use Rattle.std.specs.Prelude.{◌≡◌, filter, filter_map, IfOk};
ghost use Rattle.cs_modules.specs.Modules.{driven_signals, is_cell_output};
ghost use Rattle.cs_modules.specs.Signals.{number_in, is_input};
ghost use Rattle.cs_modules.specs.PinBits.{bits_of_cells, input_numbers_of};

use crate::connection::{PinBit, Role};
use crate::signals::{is_input, number_in, numbers_in};
use cs_json::{Module, PortDecl};
use std::alloc::{AllocError, Global};

/// The numbers of the input ports' bits, port by port.
pub fn input_numbers(alloc: Global, ports: &[PortDecl]) -> Result<Vec<u32>, AllocError>
    ensures { IfOk result (λ numbers. numbers.items ≡ input_numbers_of ports.now) }
{
    let mut numbers = Vec::new(alloc);
    for port in ports {
        if is_input(port.direction) {
            numbers.extend_from_slice(numbers_in(alloc, port.bits.as_slice())?.as_slice())?;
        }
    }
    Ok(numbers)
}

fn is_cell_output(role: Role) -> bool
    ensures { result ≡ is_cell_output role }
{
    matches!(role, Role::Output)
}

fn output_numbers(alloc: Global, bits: &[PinBit]) -> Result<Vec<u32>, AllocError>
    ensures { IfOk result (λ numbers. numbers.items ≡ filter_map (λ bit. number_in bit.signal) (filter (λ bit. is_cell_output bit.role) bits.now)) }
{
    bits.iter()
        .filter(|bit| is_cell_output(bit.role))
        .filter_map(|bit| number_in(bit.signal))
        .collect(alloc)
}

/// The number of each bit as often as an input port or an output pin drives it.
pub fn driven_numbers(alloc: Global, top: &Module, bits: &[PinBit]) -> Result<Vec<u32>, AllocError>
    requires { bits.now ≡ bits_of_cells top.now.cells }
    ensures { IfOk result (λ numbers. numbers.items ≡ filter_map number_in (driven_signals top.now)) }
{
    let mut numbers = input_numbers(alloc, top.ports.as_slice())?;
    numbers.extend_from_slice(output_numbers(alloc, bits)?.as_slice())?;
    Ok(numbers)
}
