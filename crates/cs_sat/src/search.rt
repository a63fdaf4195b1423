// The search: propagation, and then a decision, or from a conflict a learned clause and a return to the level where it
// sets a literal (Marques-Silva and Sakallah 1999). It ends because the weight of the trail rises at each step.
ghost use Rattle.std.specs.Prelude.{◌≡◌, ℕ, ◌+◌, ◌<◌, ◌≤◌, ◌++◌, [], ◌∷◌, ◌↔◌, true, false, Some, None, IfOk, IfSome, IfNone, OnOk, IsTrue, length, slice_get, Contains};
ghost use Rattle.cs_base.specs.declared.formula.Lit.{Lit as Literal};
ghost use Rattle.cs_base.specs.declared.formula.Clause.{Clause as Lits};
ghost use Rattle.cs_base.specs.Formulas.{Assignment, IsModel, IsInRange};
ghost use Rattle.cs_base.specs.Derivations.{IsRup, IsDerivation};
ghost use Rattle.cs_sat.specs.Trails.{setting_of, is_true, IsTrail, AllFalse};
ghost use Rattle.cs_sat.specs.Reasons.{IsOver, IsConflict};
ghost use Rattle.cs_sat.specs.Looks.{HasTrue};
ghost use Rattle.cs_sat.specs.Analyses.{IsClear, IsLearned};
ghost use Rattle.cs_sat.specs.Searches.{IsSearch, GoesOn, IsPropagated, AreAllSet, AreAllTrue, IsOutcome, EndsAs, StandsAs, IsStepped};
ghost use Rattle.cs_sat.specs.Verdicts.{IsRight, IsModelOf, IfModel, IfRefuted, IsRefutation};

use crate::analyse::{Learned, analyse, latest};
use crate::marks::Marks;
use crate::order::Order;
use crate::propagate::{look_at_base, propagate};
use crate::restarts::Luby;
use crate::store::{Store, Watch, clause_at};
use crate::trail::Trail;
use crate::verdict::Verdict;
use cs_base::{Clause, Derivation, Formula, Lit, Sequence};
use std::alloc::{AllocError, Global};

/// How often the search is begun anew at most.
const MOST_RESTARTS: u32 = 1 << 16;

/// After so many conflicts it is, times the next term of the sequence.
const CONFLICTS: usize = 100;

/// How a search ends.
#[derive(Clone, Copy)]
pub enum End {
    /// Each clause is true.
    Satisfied,
    /// The last line is the empty clause.
    Refuted,
}

/// The state of a search: the trail, the lines learned so far, the marks of the analysis, and the place of the trail to
/// which propagation has come.
#[derive(Drop)]
pub struct Search {
    pub trail: Trail,
    pub store: Store,
    pub marks: Marks,
    pub next: usize,
    alloc: Global,
}

// The clauses of a formula, watched, and no lines.
fn watched(alloc: Global, f: &Formula) -> Result<Store, AllocError>
    ensures { IfOk result (λ store. store.lines ≡ []) }
{
    let mut store = Store::new(alloc, f.vars)?;
    for clause in f.clauses.as_slice() {
        store.watch(clause.lits.as_slice(), Watch { one: 0, other: 1 })?;
    }
    Ok(store)
}

// Whether a literal of the clause is true.
fn has_true(trail: &Trail, lits: &[Lit]) -> bool
    ensures yes { result ≡ true → HasTrue trail.now lits.now }
    ensures no { result ≡ false → (lit : Literal) → Contains lits.now lit → is_true trail.now lit ≡ false }
{
    for lit in lits {
        if trail.is_true(*lit) {
            return true;
        }
    }
    false
}

// What a conflict leads to: a learned clause, or none where all its literals became false without a decision.
fn learn_from(
    alloc: Global,
    order: &mut Order,
    marks: &mut Marks,
    trail: &Trail,
    base: &[Clause],
    lines: &[Clause],
    number: usize,
) -> Result<Option<Learned>, AllocError>
    requires over { IsOver (base.now ++ lines.now) trail.now }
    requires clear { IsClear trail.now marks.old }
    requires conflict { IsConflict (base.now ++ lines.now) trail.now number }
    ensures clear { OnOk result (IsClear trail.now marks.new) }
    ensures outcome { IfOk result (IsOutcome (base.now ++ lines.now) trail.now) }
{
    let Some(clause) = clause_at(base, lines, number) else {
        return Ok(None);
    };
    let lits = clause.lits.as_slice();
    let Some(top) = latest(trail, lits) else {
        return Ok(None);
    };
    if trail.steps[top].level == 0 {
        return Ok(None);
    }
    let learned = analyse(alloc, order, marks, trail, base, lines, lits, top)?;
    Ok(Some(learned))
}

impl Search {
    // Nothing is set, and nothing learned.
    fn new(alloc: Global, f: &Formula) -> Result<Search, AllocError>
        requires { IsInRange f.now }
        ensures { IfOk result (IsSearch f.now) }
    {
        let trail = Trail::new(alloc, f.vars)?;
        let store = watched(alloc, f)?;
        let marks = Marks::new(alloc, f.vars as usize + 1)?;
        Ok(Search {
            trail,
            store,
            marks,
            next: 0,
            alloc,
        })
    }

    // Looks at the clauses of the formula before anything is set, and then propagates to the end or to a conflict.
    fn propagate(&mut self, f: &Formula) -> Result<Option<usize>, AllocError>
        requires { IsSearch f.now self.old }
        ensures { IfOk result (IsPropagated f.now self.old self.new) }
    {
        if self.next == 0 {
            let found = look_at_base(&mut self.trail, &mut self.store, f.clauses.as_slice())?;
            if found.is_some() {
                return Ok(found);
            }
        }
        self.propagate_on(f)
    }

    // Propagates to the end or to a conflict.
    fn propagate_on(&mut self, f: &Formula) -> Result<Option<usize>, AllocError>
        requires { IsSearch f.now self.old }
        ensures { IfOk result (IsPropagated f.now self.old self.new) }
    {
        let base = f.clauses.as_slice();
        let found = propagate(&mut self.trail, &mut self.store, base, self.next)?;
        self.next = self.trail.steps.len();
        Ok(found)
    }

    // A variable that has no value.
    fn unset(&self, f: &Formula) -> Option<u32>
        requires { IsSearch f.now self.now }
        ensures some { IfSome result (λ var. (var < length self.now.trail.table.items)
            × (setting_of self.now.trail var ≡ None)) }
        ensures none { IfNone result (AreAllSet self.now.trail) }
    {
        for before in 0..f.vars {
            let Some(_) = self.trail.setting(before + 1) else {
                return Some(before + 1);
            };
        }
        None
    }

    // Decides the value of a variable.
    fn decide(&mut self, f: &Formula, var: u32, positive: bool) -> Result<(), AllocError>
        requires search { IsSearch f.now self.old }
        requires within { var < length self.old.trail.table.items }
        requires unset { setting_of self.old.trail var ≡ None }
        ensures { OnOk result (GoesOn f.now self.old self.new) }
    {
        self.trail.decide(Lit { var, positive })
    }

    // Writes a learned clause as a line, goes back to the level of its latest literal but the first, and sets that one.
    fn assert_learned(
        &mut self,
        f: &Formula,
        order: &mut Order,
        learned: Learned,
    ) -> Result<(), AllocError>
        requires search { IsSearch f.now self.old }
        requires learned { IsLearned (f.now.clauses ++ self.old.store.lines) self.old.trail learned }
        ensures { OnOk result (GoesOn f.now self.old self.new) }
    {
        order.release(&self.trail, learned.level)?;
        self.trail.cut(learned.level);
        self.next = self.trail.steps.len();
        let number = f.clauses.as_slice().len() + self.store.lines.as_slice().len();
        self.store.watch(learned.lits.as_slice(), learned.watch)?;
        let first = learned.first;
        self.store.add(line_of(learned))?;
        self.trail.imply(first, number)
    }

    // Writes the empty clause as the last line.
    fn refute(&mut self, f: &Formula) -> Result<(), AllocError>
        requires search { IsSearch f.now self.old }
        requires rup { IsRup (f.now.clauses ++ self.old.store.lines) (record { lits = [] }) }
        ensures { OnOk result (IsDerivation f.now self.new.store.lines) }
    {
        let lits = Sequence::new(self.alloc);
        self.store.add(Clause { lits })
    }

    // Learns from a conflict, and goes on or ends.
    fn learn(
        &mut self,
        f: &Formula,
        order: &mut Order,
        number: usize,
    ) -> Result<Option<End>, AllocError>
        requires search { IsSearch f.now self.old }
        requires conflict { IsConflict (f.now.clauses ++ self.old.store.lines) self.old.trail number }
        ensures { IfOk result (IsStepped f.now self.old self.new) }
    {
        let base = f.clauses.as_slice();
        let lines = self.store.lines.as_slice();
        match learn_from(
            self.alloc,
            order,
            &mut self.marks,
            &self.trail,
            base,
            lines,
            number,
        )? {
            Some(learned) => {
                self.assert_learned(f, order, learned)?;
                Ok(None)
            }
            None => {
                self.refute(f)?;
                Ok(Some(End::Refuted))
            }
        }
    }

    // The number of a clause of the formula without a true literal.
    fn falsified(&self, f: &Formula) -> Option<usize>
        requires search { IsSearch f.now self.now }
        requires in_range { IsInRange f.now }
        requires all_set { AreAllSet self.now.trail }
        ensures some { IfSome result (IsConflict (f.now.clauses ++ self.now.store.lines) self.now.trail) }
        ensures none { IfNone result (AreAllTrue f.now self.now.trail) }
    {
        for (number, clause) in f.clauses.as_slice().iter().enumerate() {
            if !has_true(&self.trail, clause.lits.as_slice()) {
                return Some(number);
            }
        }
        None
    }

    // Decides the most active variable without a value, with the sign that it had last; where all have values, each clause
    // is true or a clause is falsified.
    fn extend(&mut self, f: &Formula, order: &mut Order) -> Result<Option<End>, AllocError>
        requires search { IsSearch f.now self.old }
        requires in_range { IsInRange f.now }
        ensures { IfOk result (IsStepped f.now self.old self.new) }
    {
        if let Some(var) = order.next(&self.trail) {
            self.decide(f, var, order.sign(var))?;
            return Ok(None);
        }
        self.finish(f, order)
    }

    // Where all variables have values, each clause is true or a clause is falsified.
    fn finish(&mut self, f: &Formula, order: &mut Order) -> Result<Option<End>, AllocError>
        requires search { IsSearch f.now self.old }
        requires in_range { IsInRange f.now }
        ensures { IfOk result (IsStepped f.now self.old self.new) }
    {
        if let Some(var) = self.unset(f) {
            self.decide(f, var, false)?;
            return Ok(None);
        }
        match self.falsified(f) {
            Some(number) => self.learn(f, order, number),
            None => Ok(Some(End::Satisfied)),
        }
    }

    // One step: propagation, and what follows from its end.
    fn step(&mut self, f: &Formula, order: &mut Order) -> Result<Option<End>, AllocError>
        requires search { IsSearch f.now self.old }
        requires in_range { IsInRange f.now }
        ensures { IfOk result (IsStepped f.now self.old self.new) }
    {
        match self.propagate(f)? {
            Some(number) => self.learn(f, order, number),
            None => self.extend(f, order),
        }
    }

    // Goes to the end, or on until so many clauses were learned.
    fn run_for(
        &mut self,
        f: &Formula,
        order: &mut Order,
        conflicts: usize,
    ) -> Result<Option<End>, AllocError>
        requires search { IsSearch f.now self.old }
        requires in_range { IsInRange f.now }
        ensures { IfOk result (StandsAs f.now self.new) }
    {
        let most = self.store.lines.len().saturating_add(conflicts);
        while self.store.lines.len() < most {
            if let Some(end) = self.step(f, order)? {
                return Ok(Some(end));
            }
        }
        Ok(None)
    }

    // Takes back what follows from decisions; the lines stay, and variables keep their signs.
    fn restart(&mut self, f: &Formula, order: &mut Order) -> Result<(), AllocError>
        requires { IsSearch f.now self.old }
        ensures { OnOk result (IsSearch f.now self.new) }
    {
        order.release(&self.trail, 0)?;
        self.trail.cut(0);
        self.next = self.next.min(self.trail.steps.len());
        Ok(())
    }

    // Goes to the end; now and then the search is begun anew.
    fn run(&mut self, f: &Formula, order: &mut Order) -> Result<End, AllocError>
        requires search { IsSearch f.now self.old }
        requires in_range { IsInRange f.now }
        ensures { IfOk result (EndsAs f.now self.new) }
    {
        let mut luby = Luby::new();
        for _ in 0..MOST_RESTARTS {
            let conflicts = luby.next().saturating_mul(CONFLICTS);
            if let Some(end) = self.run_for(f, order, conflicts)? {
                return Ok(end);
            }
            self.restart(f, order)?;
        }
        self.run_on(f, order)
    }

    // Goes to the end, and is not begun anew.
    fn run_on(&mut self, f: &Formula, order: &mut Order) -> Result<End, AllocError>
        requires search { IsSearch f.now self.old }
        requires in_range { IsInRange f.now }
        ensures { IfOk result (EndsAs f.now self.new) }
    {
        loop {
            if let Some(end) = self.step(f, order)? {
                return Ok(end);
            }
        }
    }

    // The values of the variables, variable 1 first.
    fn bits(&self, f: &Formula) -> Result<Sequence<bool>, AllocError>
        requires in_range { IsInRange f.now }
        requires satisfied { AreAllTrue f.now self.now.trail }
        ensures { IfOk result (IsModelOf f.now) }
    {
        let mut bits = Sequence::new(self.alloc);
        for var in 0..f.vars {
            bits.push(self.trail.value(var + 1))?;
        }
        Ok(bits)
    }

    // What was decided.
    fn into_verdict(self, f: &Formula, end: End) -> Result<Verdict, AllocError>
        requires in_range { IsInRange f.now }
        requires ends { EndsAs f.now self end }
        ensures { IfOk result (IsRight f.now) }
    {
        match end {
            End::Satisfied => {
                let bits = self.bits(f)?;
                Ok(Verdict::Model(bits))
            }
            End::Refuted => Ok(Verdict::Refuted(Derivation {
                lines: self.store.into_lines(),
            })),
        }
    }
}

// The learned clause alone.
fn line_of(learned: Learned) -> Clause
    ensures { result.lits ≡ learned.lits.items }
{
    Clause {
        lits: Sequence::from_vec(learned.lits),
    }
}

/// Decides a formula whose clauses name its variables alone: the values of the variables that make each clause true, or
/// a derivation of the empty clause (Marques-Silva and Sakallah 1999; Moskewicz et al. 2001). One of the two always comes,
/// and never the wrong one. It errs only for want of memory.
pub fn decide(alloc: Global, f: &Formula) -> Result<Verdict, AllocError>
    requires in_range { IsInRange f.now }
    ensures model { IfOk result (λ verdict. IfModel verdict (IsModelOf f.now)) }
    ensures derivation { IfOk result (λ verdict. IfRefuted verdict (λ derivation. IsDerivation f.now derivation.lines)) }
    ensures exact { IfOk result (λ verdict. IsRefutation verdict
        ↔ ((a : Assignment) → ¬ (IsModel a f.now))) }
{
    let mut order = Order::new(alloc, f.vars)?;
    let mut search = Search::new(alloc, f)?;
    let end = search.run(f, &mut order)?;
    search.into_verdict(f, end)
}
