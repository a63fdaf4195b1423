// A learned clause is made shorter: a literal is left out where each other literal of its reason became false at level 0
// or has its negation in the clause's marks too (Sörensson and Biere 2009, local minimization).
ghost use Rattle.std.specs.Prelude.{◌≡◌, ℕ, ◌<◌, ◌++◌, [], ◌∷◌, true, length, Contains};
ghost use Rattle.cs_base.specs.declared.formula.Lit.{Lit as Literal};
ghost use Rattle.cs_sat.specs.Trails.{IsTrail, is_false};
ghost use Rattle.cs_sat.specs.Reasons.{IsOver};
ghost use Rattle.cs_sat.specs.Analyses.{IsResolved, IsRedundant, AreCovered};

use crate::analyse::is_marked;
use crate::look::is_same;
use crate::marks::Marks;
use crate::store::clause_at;
use crate::trail::{Reason, Trail};
use cs_base::{Clause, Lit};

// Whether a literal is the one to skip, or became false at a marked place or at level 0.
fn is_covered(marks: &Marks, trail: &Trail, lit: Lit, skip: Lit) -> bool
    requires trail { IsTrail trail.now }
    requires falsified { (lit ≡ skip → ⊥) → is_false trail.now lit ≡ true }
    ensures { result ≡ true → AreCovered trail.now marks.now (lit ∷ []) skip }
{
    if is_same(lit, skip) {
        return true;
    }
    is_false_covered(marks, trail, lit)
}

// Whether a false literal became false at a marked place or at level 0.
fn is_false_covered(marks: &Marks, trail: &Trail, lit: Lit) -> bool
    requires trail { IsTrail trail.now }
    requires falsified { is_false trail.now lit ≡ true }
    ensures { result ≡ true → (skip : Literal) → AreCovered trail.now marks.now (lit ∷ []) skip }
{
    let Some(setting) = trail.setting(lit.var) else {
        return false;
    };
    if is_marked(marks, setting.place) {
        return true;
    }
    if trail.steps[setting.place].level == 0 {
        return true;
    }
    false
}

// Whether all these literals are, but for the one to skip.
fn are_covered(marks: &Marks, trail: &Trail, lits: &[Lit], skip: Lit) -> bool
    requires trail { IsTrail trail.now }
    requires falsified { (lit : Literal) → Contains lits.now lit → (lit ≡ skip → ⊥) → is_false trail.now lit ≡ true }
    ensures { result ≡ true → AreCovered trail.now marks.now lits.now skip }
{
    for lit in lits {
        if !is_covered(marks, trail, *lit, skip) {
            return false;
        }
    }
    true
}

// Whether the literal at a place can be left out.
fn is_redundant(
    marks: &Marks,
    trail: &Trail,
    base: &[Clause],
    lines: &[Clause],
    place: usize,
) -> bool
    requires over { IsOver (base.now ++ lines.now) trail.now }
    requires within { place < length trail.now.steps.items }
    ensures { result ≡ true → IsRedundant (base.now ++ lines.now) trail.now marks.now place }
{
    let step = trail.steps[place];
    let Reason::Propagated(number) = step.reason else {
        return false;
    };
    let Some(clause) = clause_at(base, lines, number) else {
        return false;
    };
    are_covered(marks, trail, clause.lits.as_slice(), step.lit)
}

// Leaves the literal at a place out, if it can be and isn't the first unique implication point's.
fn shorten_at(
    marks: &mut Marks,
    trail: &Trail,
    base: &[Clause],
    lines: &[Clause],
    at: usize,
    place: usize,
)
    requires over { IsOver (base.now ++ lines.now) trail.now }
    ensures { (level : ℕ) → IsResolved (base.now ++ lines.now) trail.now level at marks.old at
        → IsResolved (base.now ++ lines.now) trail.now level at marks.new at }
{
    if place == at || place >= trail.steps.len() || place >= marks.marked.len() {
        return;
    }
    if is_redundant(marks, trail, base, lines, place) {
        marks.unmark(place);
    }
}

// The place that was marked as the one of this number, or the other one where there are fewer.
fn touched_at(marks: &Marks, index: usize, other: usize) -> usize {
    marks
        .touched
        .as_slice()
        .get(index)
        .copied()
        .unwrap_or(other)
}

/// Leaves literals out of the clause that the marks stand for.
pub fn shorten(marks: &mut Marks, trail: &Trail, base: &[Clause], lines: &[Clause], at: usize)
    requires over { IsOver (base.now ++ lines.now) trail.now }
    ensures { (level : ℕ) → IsResolved (base.now ++ lines.now) trail.now level at marks.old at
        → IsResolved (base.now ++ lines.now) trail.now level at marks.new at }
{
    for index in 0..marks.touched.len() {
        let place = touched_at(marks, index, at);
        shorten_at(marks, trail, base, lines, at, place);
    }
}
