// What a clause asks for under a setting. The search for literals that are not false begins where it ended before.
ghost use Rattle.std.specs.Prelude.{◌≡◌, ℕ, ◌≤◌, ◌<◌, true, false, length, slice_get, Some, Contains, IfSome, IfNone};
ghost use Rattle.cs_base.specs.declared.formula.Lit.{Lit as Literal};
ghost use Rattle.cs_rup.specs.Settings.{setting_of, is_same as is_same_lit, is_sought as is_sought_in, Asks};

use crate::values::Values;
use crate::watch::{Spot, Watch};
use cs_base::Lit;

/// What a clause asks for: nothing, since this literal is true or since two are not false; that a literal is set
/// true; or it is a conflict.
#[derive(Clone, Copy)]
pub enum Status {
    Satisfied(Lit),
    Open(Watch),
    Unit(Lit),
    Falsified,
}

/// Whether two literals are one and the same.
pub fn is_same(a: Lit, b: Lit) -> bool
    ensures { result ≡ is_same_lit a b }
{
    a.var == b.var && a.positive == b.positive
}

// Whether a literal is not false, and is not the one to skip.
fn is_sought(values: &Values, skip: Option<Lit>, lit: Lit) -> bool
    ensures { result ≡ is_sought_in (setting_of values.now) skip lit }
{
    match skip {
        Some(first) => !is_same(lit, first) && !values.is_false(lit),
        None => !values.is_false(lit),
    }
}

// The first literal that is sought from `start` to before `end`.
fn sought_in(
    values: &Values,
    lits: &[Lit],
    skip: Option<Lit>,
    start: usize,
    end: usize,
) -> Option<Spot>
    requires { end ≤ length lits.now }
    ensures among { IfSome result (λ spot. Contains lits.now spot.lit) }
    ensures is { IfSome result (λ spot. is_sought_in (setting_of values.now) skip spot.lit ≡ true) }
    ensures none { IfNone result ((k : ℕ) (lit : Literal) → start ≤ k → k < end
        → slice_get lits.now k ≡ Some lit → is_sought_in (setting_of values.now) skip lit ≡ false) }
{
    for at in start..end {
        let lit = lits[at];
        if is_sought(values, skip, lit) {
            return Some(Spot { at, lit });
        }
    }
    None
}

// The first literal that is sought from this place on, and round to it again.
fn sought_from(values: &Values, lits: &[Lit], skip: Option<Lit>, from: usize) -> Option<Spot>
    ensures among { IfSome result (λ spot. Contains lits.now spot.lit) }
    ensures is { IfSome result (λ spot. is_sought_in (setting_of values.now) skip spot.lit ≡ true) }
    ensures none { IfNone result ((lit : Literal) → Contains lits.now lit
        → is_sought_in (setting_of values.now) skip lit ≡ false) }
{
    let middle = from.min(lits.len());
    match sought_in(values, lits, skip, middle, lits.len()) {
        Some(spot) => Some(spot),
        None => sought_in(values, lits, skip, 0, middle),
    }
}

/// What a clause of these literals asks for. The search begins at the places of `watch`, if there is one.
pub fn status_of(values: &Values, lits: &[Lit], watch: Option<Watch>) -> Status
    ensures { Asks (setting_of values.now) lits.now result }
{
    let (first, second) = match watch {
        Some(watch) => (watch.one.at, watch.other.at),
        None => (0, 1),
    };
    let Some(one) = sought_from(values, lits, None, first) else {
        return Status::Falsified;
    };
    if values.is_true(one.lit) {
        return Status::Satisfied(one.lit);
    }
    match sought_from(values, lits, Some(one.lit), second) {
        Some(other) => Status::Open(Watch { one, other }),
        None => Status::Unit(one.lit),
    }
}
