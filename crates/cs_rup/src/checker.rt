// Lines checked one by one.
ghost use Rattle.std.specs.Prelude.{◌≡◌, ◌++◌, ◌<◌, ◌≤◌, ◌^◌, ◌↔◌, [], ◌∷◌, map, true, if◌then◌else◌, IsTrue, OnOk, OnErr, IfOk, IfErr, length};
ghost use Rattle.cs_base.specs.Derivations.{negated, IsRup};
ghost use Rattle.cs_rup.specs.Settings.{AllFalse};
ghost use Rattle.cs_rup.specs.Stores.{AreListed, IsRewatched, AllWatched, WatchedBelow};
ghost use Rattle.cs_rup.specs.Trails.{set_by, Grows, IsSound, Explains};
ghost use Rattle.cs_rup.specs.Checkers.{Answers};

use crate::error::Stop;
use crate::store::Store;
use crate::trail::Trail;
use crate::values::Values;
use cs_base::{Clause, Formula, Lit};
use std::alloc::{AllocError, Global};
use std::marker::Model;

/// The clauses of a formula and the lines that were accepted, which contracts see as the list of them.
#[derive(Drop)]
pub struct Checker {
    store: Store,
    /// what propagation sets where nothing is given
    trail: Trail,
    /// whether it meets a conflict there, so that all lines are RUP
    refuted: bool,
    /// so many clauses are watched by literals that are not false there, or have a true one
    seen: usize,
}

impl Model for Checker {
    ghost use Rattle.std.specs.Prelude.{List};
    ghost use Rattle.cs_base.specs.declared.formula.Clause.{Clause};
    ghost use Rattle.cs_rup.specs.Checkers.{IsKept};

    ghost Value = { List Clause };

    ghost view = { λ checker. checker.store.clauses };

    ghost invariant = { λ checker.
        IsKept checker.store checker.refuted checker.trail checker.seen };
}

// The number of literals in a formula's clauses, or of its variables where there are fewer, and 1 more.
fn size_of(f: &Formula) -> usize
    ensures some { 0 < result }
    ensures few { result ≤ 2 ^ 32 }
{
    let mut literals = 0usize;
    for clause in f.clauses.as_slice() {
        literals = literals.saturating_add(clause.lits.len());
    }
    literals.min(f.vars as usize) + 1
}

// Propagates from a line's literals set false, where the clauses before `seen` are watched.
fn propagate_from(
    trail: &mut Trail,
    store: &mut Store,
    seen: usize,
    line: &[Lit],
) -> Result<(), Stop>
    requires listed { AreListed store.old }
    requires watched { WatchedBelow (set_by trail.old) store.old seen }
    ensures listed { AreListed store.new }
    ensures rewatched { IsRewatched (set_by trail.old) store.old store.new }
    ensures grows { Grows trail.old trail.new }
    ensures watched { OnOk result (AllWatched (set_by trail.new) store.new) }
    ensures given { OnOk result (AllFalse (set_by trail.new) line.now) }
    ensures sound { OnOk result (IsSound store.old.clauses [] (set_by trail.old)
        → IsSound store.old.clauses (map negated line.now) (set_by trail.new)) }
    ensures err { IfErr result (λ stop. IsSound store.old.clauses [] (set_by trail.old)
        → Explains store.old.clauses (map negated line.now) stop) }
{
    trail.refute(line)?;
    trail.examine_from(store, seen)?;
    trail.propagate(store)?;
    Ok(())
}

// Whether propagation stopped at a conflict. It errs where memory ran out.
fn meets_conflict(end: Result<(), Stop>) -> Result<bool, AllocError>
    ensures { Answers end result }
{
    match end {
        Ok(()) => Ok(false),
        Err(Stop::Conflict) => Ok(true),
        Err(Stop::NoMemory) => Err(AllocError),
    }
}

impl Checker {
    /// The clauses of a formula. It errs only for want of memory.
    pub fn new(alloc: Global, f: &Formula) -> Result<Checker, AllocError>
        ensures { IfOk result (λ checker. checker ≡ f.now.clauses) }
    {
        let size = size_of(f);
        let values = Values::new(alloc, size)?;
        let mut checker = Checker {
            store: Store::new(alloc, 2 * size)?,
            trail: Trail::new(alloc, values),
            refuted: false,
            seen: 0,
        };
        for clause in f.clauses.as_slice() {
            checker.keep(alloc, clause, false)?;
        }
        Ok(checker)
    }

    // Puts a clause, or a line, behind the others; a refusal leaves the clauses unchanged.
    fn keep(&mut self, alloc: Global, clause: &Clause, is_line: bool) -> Result<(), AllocError>
        ensures ok { OnOk result (self.new ≡ self.old ++ clause.now ∷ []) }
        ensures err { OnErr result (self.new ≡ self.old) }
    {
        let copy = clause.copy(alloc)?;
        self.store.add(alloc, copy, is_line)?;
        Ok(())
    }

    // Propagates from all clauses where nothing is given.
    fn settle(&mut self) -> Result<(), AllocError>
        ensures { self.new ≡ self.old }
    {
        if self.refuted {
            return Ok(());
        }
        match propagate_from(&mut self.trail, &mut self.store, self.seen, &[]) {
            Ok(()) => {
                self.trail.keep();
                self.seen = self.store.clauses.len();
                Ok(())
            }
            Err(Stop::Conflict) => {
                self.trail.undo();
                self.refuted = true;
                Ok(())
            }
            Err(Stop::NoMemory) => {
                self.trail.undo();
                Err(AllocError)
            }
        }
    }

    // Whether the line is RUP from the clauses.
    fn is_rup(&mut self, line: &Clause) -> Result<bool, AllocError>
        ensures same { self.new ≡ self.old }
        ensures answer { IfOk result (λ yes. IsTrue yes ↔ IsRup self.old line.now) }
    {
        if self.refuted {
            return Ok(true);
        }
        let end = propagate_from(
            &mut self.trail,
            &mut self.store,
            self.seen,
            line.lits.as_slice(),
        );
        self.trail.undo();
        meets_conflict(end)
    }

    /// Whether the line is RUP from the clauses, among which it is kept then; otherwise nothing changes
    /// (Goldberg and Novikov 2003; Van Gelder 2008). The line may name any variables. It errs only for want of
    /// memory, and nothing changes.
    pub fn add(&mut self, alloc: Global, line: &Clause) -> Result<bool, AllocError>
        ensures accepts { IfOk result (λ yes. IsTrue yes ↔ IsRup self.old line.now) }
        ensures keeps { IfOk result (λ yes. self.new
            ≡ (if yes then self.old ++ line.now ∷ [] else self.old)) }
        ensures err { OnErr result (self.new ≡ self.old) }
    {
        self.settle()?;
        let accepted = self.is_rup(line)?;
        if accepted {
            self.keep(alloc, line, true)?;
        }
        Ok(accepted)
    }
}
