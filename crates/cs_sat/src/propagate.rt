// Unit propagation by two watched literals (Moskewicz et al. 2001): where a literal becomes false, the clauses that it
// watches are looked at. Each gets another watching literal, is satisfied, sets its last open literal, or is a conflict.
ghost use Rattle.std.specs.Prelude.{◌≡◌, ◌++◌, ◌<◌, Some, IfOk, IfSome, length, slice_get, Contains};
ghost use Rattle.cs_base.specs.declared.formula.Clause.{Clause as Lits};
ghost use Rattle.cs_sat.specs.Trails.{Grows, AllFalse};
ghost use Rattle.cs_sat.specs.Reasons.{IsOver, IsConflict};
ghost use Rattle.cs_sat.specs.Looks.{Asks};
ghost use Rattle.cs_sat.specs.Visits.{IsVisit};

use crate::look::{Status, look};
use crate::store::{Store, Watch, Watched, clause_at};
use crate::trail::Trail;
use cs_base::{Clause, Lit};
use std::alloc::AllocError;

/// What becomes of a clause in the list of a literal that is false.
#[derive(Clone, Copy)]
pub enum Visit {
    /// It stays there.
    Stays,
    /// Another literal watches it.
    Moves,
    /// It is falsified.
    Conflict,
}

// Does what a clause asks for, which `watch.other` goes on watching.
fn follow(
    trail: &mut Trail,
    store: &mut Store,
    base: &[Clause],
    number: usize,
    status: Status,
    watch: Watch,
    next: Lit,
    other: Lit,
) -> Result<Visit, AllocError>
    requires over { IsOver (base.now ++ store.old.lines) trail.old }
    requires asks { (clause : Lits) × (slice_get (base.now ++ store.old.lines) number ≡ Some clause)
        × Asks trail.old clause.lits status }
    ensures over { IsOver (base.now ++ store.old.lines) trail.new }
    ensures lines { store.new.lines ≡ store.old.lines }
    ensures grows { Grows trail.old trail.new }
    ensures conflict { IfOk result (IsVisit (base.now ++ store.old.lines) trail.new number) }
{
    match status {
        Status::Satisfied => Ok(Visit::Stays),
        Status::Open(_) => {
            store.rewatch(number, watch, next, other)?;
            Ok(Visit::Moves)
        }
        Status::Unit(lit) => {
            trail.imply(lit, number)?;
            Ok(Visit::Stays)
        }
        Status::Falsified => Ok(Visit::Conflict),
    }
}

// Looks at a clause that is watched by a false literal.
fn look_at(
    trail: &mut Trail,
    store: &mut Store,
    base: &[Clause],
    number: usize,
    lit: Lit,
) -> Result<Visit, AllocError>
    requires over { IsOver (base.now ++ store.old.lines) trail.old }
    ensures over { IsOver (base.now ++ store.old.lines) trail.new }
    ensures lines { store.new.lines ≡ store.old.lines }
    ensures grows { Grows trail.old trail.new }
    ensures conflict { IfOk result (IsVisit (base.now ++ store.old.lines) trail.new number) }
{
    let Some(clause) = clause_at(base, store.lines.as_slice(), number) else {
        return Ok(Visit::Stays);
    };
    let lits = clause.lits.as_slice();
    let mut watch = store.watch_of(number, lits, lit);
    let status = look(trail, lits, watch.other);
    let mut next = lit;
    if let Status::Open(place) = status {
        watch.one = place;
        next = lit_at(lits, place, lit);
    }
    let other = lit_at(lits, watch.other, lit);
    follow(trail, store, base, number, status, watch, next, other)
}

// Looks at a clause that is watched by a false literal, unless another literal of it is known to be true.
fn look_past(
    trail: &mut Trail,
    store: &mut Store,
    base: &[Clause],
    watched: Watched,
    lit: Lit,
) -> Result<Visit, AllocError>
    requires over { IsOver (base.now ++ store.old.lines) trail.old }
    ensures over { IsOver (base.now ++ store.old.lines) trail.new }
    ensures lines { store.new.lines ≡ store.old.lines }
    ensures grows { Grows trail.old trail.new }
    ensures conflict { IfOk result (IsVisit (base.now ++ store.old.lines) trail.new watched.number) }
{
    if trail.is_true(watched.other) {
        return Ok(Visit::Stays);
    }
    look_at(trail, store, base, watched.number, lit)
}

// The literal at a place, or this one where there is none.
fn lit_at(lits: &[Lit], place: usize, lit: Lit) -> Lit {
    lits.get(place).copied().unwrap_or(lit)
}

// Looks at the clauses that a false literal watches, to the first conflict.
fn look_at_watched(
    trail: &mut Trail,
    store: &mut Store,
    base: &[Clause],
    lit: Lit,
) -> Result<Option<usize>, AllocError>
    requires over { IsOver (base.now ++ store.old.lines) trail.old }
    ensures over { IsOver (base.now ++ store.old.lines) trail.new }
    ensures lines { store.new.lines ≡ store.old.lines }
    ensures grows { Grows trail.old trail.new }
    ensures conflict { IfOk result (λ found. IfSome found (IsConflict (base.now ++ store.old.lines) trail.new)) }
{
    for at in (0..store.watched_by(lit)).rev() {
        if let Some(watched) = store.watched_at(lit, at) {
            match look_past(trail, store, base, watched, lit)? {
                Visit::Stays => {}
                Visit::Moves => store.forget(lit, at),
                Visit::Conflict => return Ok(Some(watched.number)),
            }
        }
    }
    Ok(None)
}

/// Propagates from this place of the trail on, to the end or the first conflict, whose number it gives.
pub fn propagate(
    trail: &mut Trail,
    store: &mut Store,
    base: &[Clause],
    start: usize,
) -> Result<Option<usize>, AllocError>
    requires over { IsOver (base.now ++ store.old.lines) trail.old }
    ensures over { IsOver (base.now ++ store.old.lines) trail.new }
    ensures lines { store.new.lines ≡ store.old.lines }
    ensures grows { Grows trail.old trail.new }
    ensures conflict { IfOk result (λ found. IfSome found (IsConflict (base.now ++ store.old.lines) trail.new)) }
{
    let mut next = start;
    while next < trail.steps.len() {
        let lit = trail.steps[next].lit.negated();
        if let Some(number) = look_at_watched(trail, store, base, lit)? {
            return Ok(Some(number));
        }
        next += 1;
    }
    Ok(None)
}

/// Looks at each clause of the formula once, to the first conflict, whose number it gives.
pub fn look_at_base(
    trail: &mut Trail,
    store: &mut Store,
    base: &[Clause],
) -> Result<Option<usize>, AllocError>
    requires over { IsOver (base.now ++ store.old.lines) trail.old }
    ensures over { IsOver (base.now ++ store.old.lines) trail.new }
    ensures lines { store.new.lines ≡ store.old.lines }
    ensures grows { Grows trail.old trail.new }
    ensures conflict { IfOk result (λ found. IfSome found (IsConflict (base.now ++ store.old.lines) trail.new)) }
{
    for number in 0..base.len() {
        if let Visit::Conflict = examine(trail, store, base, number)? {
            return Ok(Some(number));
        }
    }
    Ok(None)
}

// Looks at a clause of the formula; its watches stay.
fn examine(
    trail: &mut Trail,
    store: &mut Store,
    base: &[Clause],
    number: usize,
) -> Result<Visit, AllocError>
    requires over { IsOver (base.now ++ store.old.lines) trail.old }
    requires within { number < length base.now }
    ensures over { IsOver (base.now ++ store.old.lines) trail.new }
    ensures lines { store.new.lines ≡ store.old.lines }
    ensures grows { Grows trail.old trail.new }
    ensures conflict { IfOk result (IsVisit (base.now ++ store.old.lines) trail.new number) }
{
    match look(trail, base[number].lits.as_slice(), 0) {
        Status::Satisfied => Ok(Visit::Stays),
        Status::Open(_) => Ok(Visit::Stays),
        Status::Unit(lit) => {
            trail.imply(lit, number)?;
            Ok(Visit::Stays)
        }
        Status::Falsified => Ok(Visit::Conflict),
    }
}
