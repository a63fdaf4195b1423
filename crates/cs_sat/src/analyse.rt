// The analysis of a conflict: literals of its level are resolved with their reasons, from the last on, until one is
// left, the first unique implication point (Marques-Silva and Sakallah 1999; Zhang et al. 2001).
ghost use Rattle.std.specs.Prelude.{◌≡◌, ℕ, ◌+◌, ◌-◌, ◌<◌, ◌≤◌, ◌++◌, [], ◌∷◌, true, List, Some, None, IfOk, IfSome, IfNone, OnOk, length, slice_get, slice_index_or, false, Contains};
ghost use Rattle.cs_base.specs.declared.formula.Lit.{Lit as Literal};
ghost use Rattle.cs_base.specs.declared.formula.Clause.{Clause as Lits};
ghost use Rattle.cs_base.specs.Derivations.{negated as negated_lit, IsRup};
ghost use Rattle.cs_sat.specs.declared.trail.Step.{Step as Set};
ghost use Rattle.cs_sat.specs.Trails.{IsTrail, IsStep, AllFalse, is_false};
ghost use Rattle.cs_sat.specs.Reasons.{IsOver, IsConflict, Clash};
ghost use Rattle.cs_sat.specs.Analyses.{IsAt, IsMarked, IsMarking, IsClear, AreMarkedFalse, IsResolved, IsLatest, IsCollected, IsLearned};

use crate::look::is_same;
use crate::marks::Marks;
use crate::order::Order;
use crate::shorten::shorten;
use crate::store::{Watch, clause_at};
use crate::trail::{Reason, Trail};
use cs_base::{Clause, Lit};
use std::alloc::{AllocError, Global};

/// A learned clause: its literals, first that of the first unique implication point; the level of the latest other one;
/// and the places of these two.
#[derive(Drop)]
pub struct Learned {
    pub lits: Vec<Lit>,
    pub first: Lit,
    pub level: usize,
    pub watch: Watch,
}

// Marks the place where a literal became false, but not at level 0; gives the lowest marked place of the level.
fn mark_false(
    marks: &mut Marks,
    trail: &Trail,
    lit: Lit,
    skip: Lit,
    level: usize,
    lowest: usize,
) -> Result<usize, AllocError>
    requires trail { IsTrail trail.now }
    requires falsified { is_false trail.now lit ≡ true }
    requires other { lit ≡ skip → ⊥ }
    requires size { length marks.old.marked.items ≡ length trail.now.table.items }
    ensures { IfOk result (AreMarkedFalse trail.now level lowest (lit ∷ []) skip marks.old marks.new) }
{
    let Some(setting) = trail.setting(lit.var) else {
        return Ok(lowest);
    };
    let step = trail.steps[setting.place];
    if step.level == 0 {
        return Ok(lowest);
    }
    marks.mark(setting.place)?;
    if step.level < level {
        return Ok(lowest);
    }
    if lowest <= setting.place {
        return Ok(lowest);
    }
    Ok(setting.place)
}

// The same, but for the literal to skip.
fn mark_other(
    marks: &mut Marks,
    trail: &Trail,
    lit: Lit,
    skip: Lit,
    level: usize,
    lowest: usize,
) -> Result<usize, AllocError>
    requires trail { IsTrail trail.now }
    requires falsified { (lit ≡ skip → ⊥) → is_false trail.now lit ≡ true }
    requires size { length marks.old.marked.items ≡ length trail.now.table.items }
    ensures { IfOk result (AreMarkedFalse trail.now level lowest (lit ∷ []) skip marks.old marks.new) }
{
    if is_same(lit, skip) {
        return Ok(lowest);
    }
    mark_false(marks, trail, lit, skip, level, lowest)
}

// Marks where the literals of a clause became false, but for one.
fn mark_others(
    marks: &mut Marks,
    trail: &Trail,
    lits: &[Lit],
    skip: Lit,
    level: usize,
    lowest: usize,
) -> Result<usize, AllocError>
    requires trail { IsTrail trail.now }
    requires falsified { (lit : Literal) → Contains lits.now lit → (lit ≡ skip → ⊥) → is_false trail.now lit ≡ true }
    requires size { length marks.old.marked.items ≡ length trail.now.table.items }
    ensures { IfOk result (AreMarkedFalse trail.now level lowest lits.now skip marks.old marks.new) }
{
    let mut low = lowest;
    for lit in lits {
        low = mark_other(marks, trail, *lit, skip, level, low)?;
    }
    Ok(low)
}

// Resolves the literal at a marked place with its reason; gives the lowest marked place of the level.
fn resolve(
    marks: &mut Marks,
    trail: &Trail,
    base: &[Clause],
    lines: &[Clause],
    level: usize,
    at: usize,
    lowest: usize,
) -> Result<usize, AllocError>
    requires over { IsOver (base.now ++ lines.now) trail.now }
    requires resolved { IsResolved (base.now ++ lines.now) trail.now level at marks.old lowest }
    requires marked { IsAt marks.old at }
    requires lower { lowest < at }
    ensures { IfOk result (IsResolved (base.now ++ lines.now) trail.now level (at - 1) marks.new) }
{
    let step = trail.steps[at];
    let Reason::Propagated(number) = step.reason else {
        return Ok(lowest);
    };
    let Some(clause) = clause_at(base, lines, number) else {
        return Ok(lowest);
    };
    marks.unmark(at);
    mark_others(
        marks,
        trail,
        clause.lits.as_slice(),
        step.lit,
        level,
        lowest,
    )
}

// Goes one place back: the literal there is resolved if it is marked.
fn go_back(
    marks: &mut Marks,
    trail: &Trail,
    base: &[Clause],
    lines: &[Clause],
    level: usize,
    at: usize,
    lowest: usize,
) -> Result<usize, AllocError>
    requires over { IsOver (base.now ++ lines.now) trail.now }
    requires resolved { IsResolved (base.now ++ lines.now) trail.now level at marks.old lowest }
    requires lower { lowest < at }
    requires within { at < length trail.now.steps.items }
    ensures { IfOk result (IsResolved (base.now ++ lines.now) trail.now level (at - 1) marks.new) }
{
    if !marks.marked[at] {
        return Ok(lowest);
    }
    resolve(marks, trail, base, lines, level, at, lowest)
}

// The place of the first unique implication point, from the latest literal of the conflict on.
fn first_point(
    marks: &mut Marks,
    trail: &Trail,
    base: &[Clause],
    lines: &[Clause],
    level: usize,
    top: usize,
    lowest: usize,
) -> Result<usize, AllocError>
    requires over { IsOver (base.now ++ lines.now) trail.now }
    requires resolved { IsResolved (base.now ++ lines.now) trail.now level top marks.old lowest }
    requires within { top < length trail.now.steps.items }
    ensures { IfOk result (λ at. IsResolved (base.now ++ lines.now) trail.now level at marks.new at) }
{
    let mut at = top;
    let mut low = lowest;
    while low < at {
        low = go_back(marks, trail, base, lines, level, at, low)?;
        at -= 1;
    }
    Ok(at)
}

// Marks where the literals of a falsified clause became false, of which `top` is the latest place.
fn mark_conflict(
    marks: &mut Marks,
    trail: &Trail,
    lits: &[Lit],
    level: usize,
    top: usize,
) -> Result<usize, AllocError>
    requires trail { IsTrail trail.now }
    requires clear { IsClear trail.now marks.old }
    requires falsified { AllFalse trail.now lits.now }
    requires latest { IsLatest trail.now.steps.items lits.now (Some top) }
    requires level { (s : Set) → slice_get trail.now.steps.items top ≡ Some s → s.level ≡ level }
    requires decided { 0 < level }
    ensures { IfOk result (λ low. (clauses : List Lits) (clause : Lits) → Contains clauses clause
        → clause.lits ≡ lits.now → IsOver clauses trail.now → IsResolved clauses trail.now level top marks.new low) }
{
    let skip = trail.steps[top].lit.negated();
    marks.mark(top)?;
    mark_others(marks, trail, lits, skip, level, top)
}

impl Learned {
    // Takes the negation of the literal at a place into the clause, where the place is marked.
    fn take(
        &mut self,
        marks: &Marks,
        trail: &Trail,
        at: usize,
        place: usize,
    ) -> Result<(), AllocError>
        requires trail { IsTrail trail.now }
        ensures { OnOk result ((level : ℕ) (places : List ℕ) → IsMarking trail.now level at at marks.now
            → IsCollected trail.now marks.now level at places self.old
            → IsCollected trail.now marks.now level at (places ++ place ∷ []) self.new) }
    {
        if place == at || place >= trail.steps.len() || !is_marked(marks, place) {
            return Ok(());
        }
        let step = trail.steps[place];
        let index = self.lits.len();
        self.lits.push(step.lit.negated())?;
        if self.level < step.level {
            self.level = step.level;
            self.watch.other = index;
        }
        Ok(())
    }
}

// Whether a place is marked.
pub fn is_marked(marks: &Marks, place: usize) -> bool
    ensures { result ≡ slice_index_or marks.now.marked.items place false }
{
    match marks.marked.as_slice().get(place) {
        Some(marked) => *marked,
        None => false,
    }
}

// The learned clause: the negations of the marked literals.
fn collect(
    alloc: Global,
    marks: &Marks,
    trail: &Trail,
    level: usize,
    at: usize,
) -> Result<Learned, AllocError>
    requires trail { IsTrail trail.now }
    requires marking { IsMarking trail.now level at at marks.now }
    requires decided { 0 < level }
    ensures { IfOk result (IsCollected trail.now marks.now level at marks.now.touched.items) }
{
    let first = trail.steps[at].lit.negated();
    let mut lits = Vec::new(alloc);
    lits.push(first)?;
    let mut learned = Learned {
        lits,
        first,
        level: 0,
        watch: Watch { one: 0, other: 1 },
    };
    for place in marks.touched.as_slice() {
        learned.take(marks, trail, at, *place)?;
    }
    Ok(learned)
}

// The latest of two places, or the one that there is.
fn latest_of(trail: &Trail, lit: Lit, top: Option<usize>) -> Option<usize>
    requires trail { IsTrail trail.now }
    requires falsified { is_false trail.now lit ≡ true }
    ensures { (lits : List Literal) → IsLatest trail.now.steps.items lits top
        → IsLatest trail.now.steps.items (lits ++ lit ∷ []) result }
{
    let Some(setting) = trail.setting(lit.var) else {
        return top;
    };
    match top {
        Some(place) => Some(place.max(setting.place)),
        None => Some(setting.place),
    }
}

/// The latest place where a literal of a falsified clause became false.
pub fn latest(trail: &Trail, lits: &[Lit]) -> Option<usize>
    requires trail { IsTrail trail.now }
    requires falsified { AllFalse trail.now lits.now }
    ensures { IsLatest trail.now.steps.items lits.now result }
{
    let mut top = None;
    for lit in lits {
        top = latest_of(trail, *lit, top);
    }
    top
}

/// Learns a clause from a falsified clause whose latest literal became false at `top`, at a level that a decision began.
pub fn analyse(
    alloc: Global,
    order: &mut Order,
    marks: &mut Marks,
    trail: &Trail,
    base: &[Clause],
    lines: &[Clause],
    lits: &[Lit],
    top: usize,
) -> Result<Learned, AllocError>
    requires over { IsOver (base.now ++ lines.now) trail.now }
    requires clear { IsClear trail.now marks.old }
    requires among { (clause : Lits) × Contains (base.now ++ lines.now) clause × (clause.lits ≡ lits.now) }
    requires falsified { AllFalse trail.now lits.now }
    requires latest { IsLatest trail.now.steps.items lits.now (Some top) }
    requires decided { (s : Set) → slice_get trail.now.steps.items top ≡ Some s → 0 < s.level }
    ensures clear { OnOk result (IsClear trail.now marks.new) }
    ensures learned { IfOk result (IsLearned (base.now ++ lines.now) trail.now) }
{
    let level = trail.steps[top].level;
    let lowest = mark_conflict(marks, trail, lits, level, top)?;
    let at = first_point(marks, trail, base, lines, level, top, lowest)?;
    shorten(marks, trail, base, lines, at);
    let learned = collect(alloc, marks, trail, level, at)?;
    order.bump(trail, marks.touched.as_slice())?;
    marks.clear();
    Ok(learned)
}
