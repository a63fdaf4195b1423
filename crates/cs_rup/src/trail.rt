// Unit propagation: a literal that is set false makes the clauses be looked at that it watches, and each that
// is unit sets its literal. The literals that are set stand in a trail, and propagation goes along it.
ghost use Rattle.std.specs.Prelude.{◌≡◌, ℕ, ◌≤◌, ◌<◌, true, [], List, map, length, slice_get, Some, None, Contains, OnOk, IfOk, IfSome, IfErr};
ghost use Rattle.cs_base.specs.declared.formula.Lit.{Lit as Literal};
ghost use Rattle.cs_base.specs.declared.formula.Clause.{Clause as Lits};
ghost use Rattle.cs_base.specs.Derivations.{negated as negated_lit};
ghost use Rattle.cs_rup.specs.Settings.{is_false, AllFalse, Asks, IsSetIn};
ghost use Rattle.cs_rup.specs.declared.watch.Watched.{Watched as Entry};
ghost use Rattle.cs_rup.specs.Watchers.{HasPlace};
ghost use Rattle.cs_rup.specs.Stores.{AreListed, IsWatched, AllWatched, IsRewatchedAt, IsRewatched, ListsGrow, KeepsBefore, list_of, list_at};
ghost use Rattle.cs_rup.specs.Trails.{IsSound, Explains, StaysSound, ExplainsAny, set_by, Grows, IsUndone, Waits, AllWait};

use crate::error::Stop;
use crate::status::{Status, status_of};
use crate::store::Store;
use crate::values::Values;
use cs_base::Lit;
use std::alloc::{AllocError, Global};

/// The literals that are set true, and of those set here the order.
#[derive(Drop)]
pub struct Trail {
    pub values: Values,
    pub lits: Vec<Lit>,
}

impl Trail {
    /// Nothing is set beyond these values.
    pub fn new(alloc: Global, values: Values) -> Trail
        ensures values { result.values ≡ values }
        ensures lits { result.lits.items ≡ [] }
    {
        Trail {
            values,
            lits: Vec::new(alloc),
        }
    }

    /// What is set stays so from now on.
    pub fn keep(&mut self)
        ensures values { self.new.values ≡ self.old.values }
        ensures lits { self.new.lits.items ≡ [] }
    {
        self.lits.clear();
    }

    /// Takes back all that was set since.
    pub fn undo(&mut self)
        ensures undone { IsUndone self.old self.new }
        ensures empty { self.new.lits.items ≡ [] }
    {
        while let Some(lit) = self.lits.pop() {
            self.values.unset(lit.var);
        }
    }

    // Sets a literal true whose variable has no value yet.
    fn set(&mut self, lit: Lit) -> Result<(), AllocError>
        requires { set_by self.old lit.var ≡ None }
        ensures set { OnOk result (IsSetIn (set_by self.old) (set_by self.new) lit) }
        ensures grows { Grows self.old self.new }
    {
        self.lits.push(lit)?;
        self.values.set(lit)?;
        Ok(())
    }

    // Does what a clause asks for; gives the literal of it that is true, if that is why it asks for nothing.
    fn follow(
        &mut self,
        store: &mut Store,
        place: usize,
        status: Status,
    ) -> Result<Option<Lit>, Stop>
        requires listed { AreListed store.old }
        requires asked { (clause : Lits) × (slice_get store.old.clauses place ≡ Some clause)
            × Asks (set_by self.old) clause.lits status }
        ensures listed { AreListed store.new }
        ensures rewatched { (lits : List Literal) → Asks (set_by self.old) lits status
            → IsRewatchedAt (set_by self.old) store.old store.new place lits }
        ensures grow { ListsGrow store.old.lists.items store.new.lists.items }
        ensures grows { Grows self.old self.new }
        ensures watched { OnOk result ((lits : List Literal) → Asks (set_by self.old) lits status
            → IsWatched (set_by self.new) store.new place lits) }
        ensures among { IfOk result (λ found. IfSome found (λ lit. (lits : List Literal)
            → Asks (set_by self.old) lits status → Contains lits lit)) }
        ensures sound { OnOk result ((clauses : List Lits) (clause : Lits) → Contains clauses clause
            → Asks (set_by self.old) clause.lits status → StaysSound clauses self.old self.new) }
        ensures err { IfErr result (λ stop. (clauses : List Lits) (clause : Lits) → Contains clauses clause
            → Asks (set_by self.old) clause.lits status → ExplainsAny clauses self.old stop) }
    {
        match status {
            Status::Satisfied(lit) => Ok(Some(lit)),
            Status::Open(watch) => {
                store.rewatch(place, watch)?;
                Ok(None)
            }
            Status::Unit(lit) => {
                self.set(lit)?;
                Ok(None)
            }
            Status::Falsified => Err(Stop::Conflict),
        }
    }

    // Looks at the clause of a place, if there is one; gives a literal of it that is true, if one was found.
    fn look_at(&mut self, store: &mut Store, place: usize) -> Result<Option<Lit>, Stop>
        requires { AreListed store.old }
        ensures listed { AreListed store.new }
        ensures rewatched { IsRewatched (set_by self.old) store.old store.new }
        ensures grow { ListsGrow store.old.lists.items store.new.lists.items }
        ensures grows { Grows self.old self.new }
        ensures watched { OnOk result ((clause : Lits) → slice_get store.old.clauses place ≡ Some clause
            → IsWatched (set_by self.new) store.new place clause.lits) }
        ensures among { IfOk result (λ found. IfSome found (λ lit. (clause : Lits)
            → slice_get store.old.clauses place ≡ Some clause → Contains clause.lits lit)) }
        ensures sound { OnOk result (StaysSound store.old.clauses self.old self.new) }
        ensures err { IfErr result (ExplainsAny store.old.clauses self.old) }
    {
        let Some(clause) = store.clauses.as_slice().get(place) else {
            return Ok(None);
        };
        let status = status_of(&self.values, clause.lits.as_slice(), store.watches[place]);
        self.follow(store, place, status)
    }

    // Looks at the clause at a place of a list, unless the literal beside it is true.
    fn look_past(&mut self, store: &mut Store, index: usize, at: usize) -> Result<(), Stop>
        requires listed { AreListed store.old }
        requires within { index < length store.old.lists.items }
        ensures listed { AreListed store.new }
        ensures rewatched { IsRewatched (set_by self.old) store.old store.new }
        ensures count { length store.new.lists.items ≡ length store.old.lists.items }
        ensures before { KeepsBefore store.old.lists.items store.new.lists.items index at }
        ensures grows { Grows self.old self.new }
        ensures watched { OnOk result ((entry : Entry) (clause : Lits)
            → slice_get (list_at store.old.lists.items index) at ≡ Some entry
            → slice_get store.old.clauses entry.place ≡ Some clause
            → IsWatched (set_by self.new) store.new entry.place clause.lits) }
        ensures sound { OnOk result (StaysSound store.old.clauses self.old self.new) }
        ensures err { IfErr result (ExplainsAny store.old.clauses self.old) }
    {
        let Some(watched) = store.watched_at(index, at) else {
            return Ok(());
        };
        if self.values.is_true(watched.other) {
            return Ok(());
        }
        let found = self.look_at(store, watched.place)?;
        store.note(index, at, found);
        Ok(())
    }

    // Looks at the clauses that a literal watches, from the end of its list, which may get others behind.
    fn visit(&mut self, store: &mut Store, lit: Lit) -> Result<(), Stop>
        requires { AreListed store.old }
        ensures listed { AreListed store.new }
        ensures rewatched { IsRewatched (set_by self.old) store.old store.new }
        ensures grows { Grows self.old self.new }
        ensures waits { OnOk result ((place : ℕ) (clause : Lits)
            → HasPlace (list_of store.old.lists.items lit) place
            → slice_get store.old.clauses place ≡ Some clause
            → Waits self.new (length self.old.lits.items) store.new place clause.lits) }
        ensures sound { OnOk result (StaysSound store.old.clauses self.old self.new) }
        ensures err { IfErr result (ExplainsAny store.old.clauses self.old) }
    {
        let index = store.index_of(lit);
        let mut at = store.count_at(index);
        while at > 0 {
            at -= 1;
            self.look_past(store, index, at)?;
        }
        Ok(())
    }

    // Looks at the clause at a place of a list, unless it is one to look at last.
    fn look_first(&mut self, store: &mut Store, index: usize, at: usize) -> Result<(), Stop>
        requires listed { AreListed store.old }
        requires within { index < length store.old.lists.items }
        ensures listed { AreListed store.new }
        ensures rewatched { IsRewatched (set_by self.old) store.old store.new }
        ensures count { length store.new.lists.items ≡ length store.old.lists.items }
        ensures grows { Grows self.old self.new }
        ensures sound { OnOk result (StaysSound store.old.clauses self.old self.new) }
        ensures err { IfErr result (ExplainsAny store.old.clauses self.old) }
    {
        let Some(watched) = store.watched_at(index, at) else {
            return Ok(());
        };
        if store.is_last(watched.place) {
            return Ok(());
        }
        self.look_past(store, index, at)
    }

    // Looks at the clauses that a literal watches, but for those to look at last.
    fn visit_first(&mut self, store: &mut Store, lit: Lit) -> Result<(), Stop>
        requires { AreListed store.old }
        ensures listed { AreListed store.new }
        ensures rewatched { IsRewatched (set_by self.old) store.old store.new }
        ensures grows { Grows self.old self.new }
        ensures sound { OnOk result (StaysSound store.old.clauses self.old self.new) }
        ensures err { IfErr result (ExplainsAny store.old.clauses self.old) }
    {
        let index = store.index_of(lit);
        let mut at = store.count_at(index);
        while at > 0 {
            at -= 1;
            self.look_first(store, index, at)?;
        }
        Ok(())
    }

    // Propagates from this place of the trail on, but by clauses to look at last.
    fn propagate_first(&mut self, store: &mut Store, start: usize) -> Result<(), Stop>
        requires { AreListed store.old }
        ensures listed { AreListed store.new }
        ensures rewatched { IsRewatched (set_by self.old) store.old store.new }
        ensures grows { Grows self.old self.new }
        ensures sound { OnOk result (StaysSound store.old.clauses self.old self.new) }
        ensures err { IfErr result (ExplainsAny store.old.clauses self.old) }
    {
        let mut place = start;
        while place < self.lits.len() {
            let lit = self.lits[place];
            self.visit_first(store, lit.negated())?;
            place += 1;
        }
        Ok(())
    }

    // Sets a literal false; one that is true already is a conflict.
    fn set_false(&mut self, lit: Lit) -> Result<(), Stop>
        ensures grows { Grows self.old self.new }
        ensures is_false { OnOk result (is_false (set_by self.new) lit ≡ true) }
        ensures sound { OnOk result ((clauses : List Lits) (given : List Literal)
            → Contains given (negated_lit lit) → IsSound clauses given (set_by self.old)
            → IsSound clauses given (set_by self.new)) }
        ensures err { IfErr result (λ stop. (clauses : List Lits) (given : List Literal)
            → Contains given (negated_lit lit) → IsSound clauses given (set_by self.old)
            → Explains clauses given stop) }
    {
        if self.values.is_true(lit) {
            return Err(Stop::Conflict);
        }
        if self.values.is_false(lit) {
            return Ok(());
        }
        self.set(lit.negated())?;
        Ok(())
    }

    /// Sets the literals of a line false.
    pub fn refute(&mut self, line: &[Lit]) -> Result<(), Stop>
        ensures grows { Grows self.old self.new }
        ensures given { OnOk result (AllFalse (set_by self.new) line.now) }
        ensures sound { OnOk result ((clauses : List Lits)
            → IsSound clauses (map negated_lit line.now) (set_by self.old)
            → IsSound clauses (map negated_lit line.now) (set_by self.new)) }
        ensures err { IfErr result (λ stop. (clauses : List Lits)
            → IsSound clauses (map negated_lit line.now) (set_by self.old)
            → Explains clauses (map negated_lit line.now) stop) }
    {
        for lit in line {
            self.set_false(*lit)?;
        }
        Ok(())
    }

    /// Looks at the clauses from this place on.
    pub fn examine_from(&mut self, store: &mut Store, first: usize) -> Result<(), Stop>
        requires { AreListed store.old }
        ensures listed { AreListed store.new }
        ensures rewatched { IsRewatched (set_by self.old) store.old store.new }
        ensures grows { Grows self.old self.new }
        ensures waits { OnOk result ((place : ℕ) (clause : Lits) → first ≤ place
            → slice_get store.old.clauses place ≡ Some clause → Waits self.new 0 store.new place clause.lits) }
        ensures sound { OnOk result (StaysSound store.old.clauses self.old self.new) }
        ensures err { IfErr result (ExplainsAny store.old.clauses self.old) }
    {
        for place in first..store.clauses.len() {
            self.look_at(store, place)?;
        }
        Ok(())
    }

    /// Propagates to the end: before each step by all clauses, as far as it goes without those to look at last.
    pub fn propagate(&mut self, store: &mut Store) -> Result<(), Stop>
        requires listed { AreListed store.old }
        requires waits { AllWait self.old 0 store.old }
        ensures listed { AreListed store.new }
        ensures rewatched { IsRewatched (set_by self.old) store.old store.new }
        ensures grows { Grows self.old self.new }
        ensures watched { OnOk result (AllWatched (set_by self.new) store.new) }
        ensures sound { OnOk result (StaysSound store.old.clauses self.old self.new) }
        ensures err { IfErr result (ExplainsAny store.old.clauses self.old) }
    {
        let mut next = 0;
        let mut first = 0;
        while next < self.lits.len() {
            self.propagate_first(store, first)?;
            first = self.lits.len();
            let lit = self.lits[next];
            self.visit(store, lit.negated())?;
            next += 1;
        }
        Ok(())
    }
}
