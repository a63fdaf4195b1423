// What the name of a cell's type says.
ghost use Rattle.std.specs.Prelude.{◌≡◌};
ghost use Rattle.cs_cells.specs.Classes.{begins_with as begins, class_of as class_of_name, other_class as class_of_other, is_asynchronous as is_asynchronous_name, is_not_fine as is_not_fine_name};

use crate::gate::Kind;
use crate::register::FfKind;

/// The class of a type name.
#[derive(Clone, Copy, Debug, PartialEq, Eq)]
pub enum Class {
    Gate(Kind),
    Register(FfKind),
    /// `$mem_v2`
    Memory,
    /// `$scopeinfo`, which is passed over
    Scope,
    /// a latch, a tristate buffer, or a register with an asynchronous pin or no clock
    Asynchronous,
    /// a coarse cell, as `$and`
    NotFine,
    Unknown,
}

/// The class of a type name: the first that fits.
#[tactic(auto, unfolding(crate::specs::Classes::class_of))]
pub fn class_of(name: &str) -> Class
    ensures { result ≡ class_of_name name.now }
{
    if let Some(kind) = Kind::of(name) {
        return Class::Gate(kind);
    }
    match FfKind::of(name) {
        Some(kind) => Class::Register(kind),
        None => other_class(name),
    }
}

fn other_class(name: &str) -> Class
    ensures { result ≡ class_of_other name.now }
{
    if name == "$mem_v2" {
        Class::Memory
    } else if name == "$scopeinfo" {
        Class::Scope
    } else if is_asynchronous(name) {
        Class::Asynchronous
    } else if is_not_fine(name) {
        Class::NotFine
    } else {
        Class::Unknown
    }
}

fn begins_with(name: &str, front: &str) -> bool
    ensures { result ≡ begins name.now front.now }
{
    name.as_bytes().starts_with(front.as_bytes())
}

fn is_asynchronous(name: &str) -> bool
    ensures { result ≡ is_asynchronous_name name.now }
{
    name == "$_TBUF_"
        || begins_with(name, "$_DFF")
        || begins_with(name, "$_ALDFF")
        || begins_with(name, "$_DLATCH")
        || begins_with(name, "$_SR_")
        || begins_with(name, "$_FF_")
}

fn is_not_fine(name: &str) -> bool
    ensures { result ≡ is_not_fine_name name.now }
{
    begins_with(name, "$") && !begins_with(name, "$_") && !begins_with(name, "$paramod")
}
