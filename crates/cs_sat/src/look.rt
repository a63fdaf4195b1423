// What a clause asks for: a literal of it is true, another one can watch it, its last open literal is to be set, or it
// is falsified.
ghost use Rattle.std.specs.Prelude.{◌≡◌, ℕ, true, Some, None, IfSome, IfNone, slice_get, Contains};
ghost use Rattle.cs_base.specs.declared.formula.Lit.{Lit as Literal};
ghost use Rattle.cs_sat.specs.Trails.{is_false, AllFalse};
ghost use Rattle.cs_sat.specs.Looks.{is_same as is_same_lit, Asks};

use crate::trail::Trail;
use cs_base::Lit;

/// What a clause asks for.
#[derive(Clone, Copy)]
pub enum Status {
    /// Nothing: a literal of it is true.
    Satisfied,
    /// To be watched by the literal at this place, which isn't false.
    Open(usize),
    /// To set its one literal that isn't false.
    Unit(Lit),
    /// All its literals are false.
    Falsified,
}

/// Whether two literals are one and the same.
pub fn is_same(a: Lit, b: Lit) -> bool
    ensures { result ≡ is_same_lit a b }
{
    a.var == b.var && a.positive == b.positive
}

// The place of a literal that isn't false, and another one than the first.
fn other_open(trail: &Trail, lits: &[Lit], first: Lit) -> Option<usize>
    ensures some { IfSome result (λ place. (lit : Literal) × (slice_get lits.now place ≡ Some lit)
        × (lit ≡ first → ⊥) × (is_false trail.now lit ≡ true → ⊥)) }
    ensures none { IfNone result ((lit : Literal) → Contains lits.now lit → (lit ≡ first → ⊥)
        → is_false trail.now lit ≡ true) }
{
    for (place, lit) in lits.iter().enumerate() {
        if !is_same(*lit, first) && !trail.is_false(*lit) {
            return Some(place);
        }
    }
    None
}

// What a clause asks for, which is watched by this literal of it.
fn look_beside(trail: &Trail, lits: &[Lit], first: Lit) -> Status
    requires { Contains lits.now first }
    ensures { Asks trail.now lits.now result }
{
    if trail.is_true(first) {
        return Status::Satisfied;
    }
    match other_open(trail, lits, first) {
        Some(place) => Status::Open(place),
        None => {
            if trail.is_false(first) {
                Status::Falsified
            } else {
                Status::Unit(first)
            }
        }
    }
}

/// What a clause of these literals asks for, which is watched by the one at this place.
pub fn look(trail: &Trail, lits: &[Lit], place: usize) -> Status
    ensures { Asks trail.now lits.now result }
{
    if place < lits.len() {
        return look_beside(trail, lits, lits[place]);
    }
    match lits.first() {
        Some(first) => look_beside(trail, lits, *first),
        None => Status::Falsified,
    }
}
