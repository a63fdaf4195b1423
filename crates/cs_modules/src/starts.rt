// The first value that the nets' `init` give to each bit.
ghost use Rattle.std.specs.Prelude.{if◌then◌else◌, ◌≡◌, ℕ, IfOk, OnOk, None, filter_map, flat_map, nat_eq, slice_get};
ghost use Rattle.std.specs.List.{enumerate_from};
ghost use Rattle.std.specs.Option.{option_or};
ghost use Rattle.std.specs.HashMap.{get};
ghost use Rattle.cs_modules.specs.Digits.{init_digit};
ghost use Rattle.cs_modules.specs.Signals.{is_bit};
ghost use Rattle.cs_modules.specs.Modules.{init_values_in};

use crate::digits::{digits_at, init_digit};
use crate::places::note;
use cs_base::Signal;
use cs_json::NetDecl;
use std::alloc::{AllocError, Global};
use std::collections::HashMap;

// Notes the value that each digit gives the bit at its place.
fn note_values(
    firsts: &mut HashMap<u32, bool>,
    digits: &[u8],
    bits: &[Signal],
) -> Result<(), AllocError>
    ensures { OnOk result ((b : ℕ) → get nat_eq firsts.new b
        ≡ option_or (get nat_eq firsts.old b)
        (slice_get (filter_map (λ e. if is_bit b e.1 then init_digit digits.now e.0 else None) (enumerate_from 0 bits.now)) 0)) }
{
    for (i, signal) in bits.iter().enumerate() {
        if let Some(value) = init_digit(digits, i) {
            note(firsts, *signal, value)?;
        }
    }
    Ok(())
}

fn note_net(alloc: Global, firsts: &mut HashMap<u32, bool>, net: &NetDecl) -> Result<(), AllocError>
    ensures { OnOk result ((b : ℕ) → get nat_eq firsts.new b
        ≡ option_or (get nat_eq firsts.old b) (slice_get (init_values_in b net.now) 0)) }
{
    let digits = digits_at(alloc, "init", net.attributes.as_slice())?;
    note_values(firsts, digits.as_slice(), net.bits.as_slice())
}

/// The first value that the nets give to each bit. It errs only where memory runs out.
pub fn first_values(alloc: Global, nets: &[NetDecl]) -> Result<HashMap<u32, bool>, AllocError>
    ensures { IfOk result (λ firsts. (b : ℕ) → get nat_eq firsts b
        ≡ slice_get (flat_map (init_values_in b) nets.now) 0) }
{
    let mut firsts = HashMap::new(alloc);
    for net in nets {
        note_net(alloc, &mut firsts, net)?;
    }
    Ok(firsts)
}
