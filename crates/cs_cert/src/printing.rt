// What prints as an item of a list, and what prints under a key.
ghost use Rattle.std.specs.Prelude.{◌≡◌, if◌then◌else◌, IfOk, OnOk, map, string_bytes};
ghost use Rattle.std.specs.List.{AllByRecursion};
ghost use Rattle.serde_json.specs.Data.{Data, put, string as string_data};
ghost use Rattle.serde_json.specs.View.{members_view, view};
ghost use Rattle.cs_cert.specs.Papers.{items_data, signed, whole_data};
ghost use Rattle.cs_cert.specs.Fits.{IsSmall, IsWord};

use cs_base::{Clause, EdgeId, Lit, Sequence};
use cs_json::members::Members;
use serde_json::Value;
use std::alloc::{AllocError, Global};

pub(crate) trait Printing {
    // The value that it prints as.
    ghost shown: { Self → Data };

    // Its numbers fit their types.
    ghost fits: { Self → Type 0 };

    fn value(&self, alloc: Global) -> Result<Value, AllocError>
        ensures value { IfOk result (λ v. view v ≡ shown self.now) }
        ensures fits { OnOk result (fits self.now) };
}

/// A list.
pub(crate) fn array_of<T: Printing>(alloc: Global, items: &[T]) -> Result<Value, AllocError>
    ensures value { IfOk result (λ v. view v ≡ items_data T.shown items.now) }
    ensures fits { OnOk result (AllByRecursion T.fits items.now) }
{
    let mut values = Vec::with_capacity(alloc, items.len())?;
    for item in items {
        values.push(item.value(alloc)?)?;
    }
    Ok(Value::Array(values))
}

/// Puts a list.
pub(crate) fn put_list<T: Printing>(
    alloc: Global,
    members: &mut Members,
    key: &str,
    items: &[T],
) -> Result<(), AllocError>
    ensures put { OnOk result (members_view members.new.entries
        ≡ put key.now (items_data T.shown items.now) (members_view members.old.entries)) }
    ensures fits { OnOk result (AllByRecursion T.fits items.now) }
{
    let value = array_of(alloc, items)?;
    serde_json::put(members, alloc, key, value)
}

/// Puts a text.
pub(crate) fn put_text(
    alloc: Global,
    members: &mut Members,
    key: &str,
    text: &str,
) -> Result<(), AllocError>
    ensures { OnOk result (members_view members.new.entries
        ≡ put key.now (string_data text.now) (members_view members.old.entries)) }
{
    let value = Value::try_from_str(alloc, text)?;
    serde_json::put(members, alloc, key, value)
}

/// Puts a whole number.
pub(crate) fn put_whole(
    alloc: Global,
    members: &mut Members,
    key: &str,
    number: u64,
) -> Result<(), AllocError>
    ensures put { OnOk result (members_view members.new.entries
        ≡ put key.now (whole_data number) (members_view members.old.entries)) }
    ensures fits { IsWord number }
{
    serde_json::put(members, alloc, key, Value::from(number))
}

fn digits(alloc: Global, bits: &[bool]) -> Result<String, AllocError>
    ensures { IfOk result (λ text. string_bytes text ≡ map (λ bit. if bit then 49 else 48) bits.now) }
{
    let mut text = String::with_capacity(alloc, bits.len())?;
    for bit in bits {
        text.push(if *bit { '1' } else { '0' })?;
    }
    Ok(text)
}

impl Printing for Sequence<bool> {
    ghost use Rattle.std.specs.Prelude.{⊤};
    ghost use Rattle.cs_cert.specs.Papers.{bits_data};

    ghost shown = { bits_data };

    ghost fits = { λ _. ⊤ };

    fn value(&self, alloc: Global) -> Result<Value, AllocError> {
        Ok(Value::String(digits(alloc, self.as_slice())?))
    }
}

impl Printing for i64 {
    ghost use Rattle.cs_cert.specs.Papers.{lag_data};
    ghost use Rattle.cs_cert.specs.Fits.{IsSigned};

    ghost shown = { lag_data };

    ghost fits = { IsSigned };

    fn value(&self, _: Global) -> Result<Value, AllocError> {
        Ok(Value::from(*self))
    }
}

impl Printing for EdgeId {
    ghost use Rattle.cs_cert.specs.Papers.{whole_data};
    ghost use Rattle.cs_cert.specs.Fits.{IsId};

    ghost shown = { whole_data };

    ghost fits = { IsId };

    fn value(&self, _: Global) -> Result<Value, AllocError> {
        Ok(Value::from(self.get()))
    }
}

// A variable, or what is below 0 for its negation.
fn signed(literal: Lit) -> i64
    ensures value { result ≡ signed literal.positive literal.var }
    ensures fits { IsSmall literal }
{
    if literal.positive {
        i64::from(literal.var)
    } else {
        -i64::from(literal.var)
    }
}

impl Printing for Lit {
    ghost use Rattle.cs_cert.specs.Papers.{literal_data};
    ghost use Rattle.cs_cert.specs.Fits.{IsSmall};

    ghost shown = { literal_data };

    ghost fits = { IsSmall };

    fn value(&self, _: Global) -> Result<Value, AllocError> {
        Ok(Value::from(signed(*self)))
    }
}

impl Printing for Clause {
    ghost use Rattle.cs_cert.specs.Papers.{line_data};
    ghost use Rattle.cs_cert.specs.Fits.{IsSmallLine};

    ghost shown = { line_data };

    ghost fits = { IsSmallLine };

    fn value(&self, alloc: Global) -> Result<Value, AllocError> {
        array_of(alloc, self.lits.as_slice())
    }
}
