// Clauses, each watched by two of its literals (Moskewicz et al. 2001).
ghost use Rattle.std.specs.Prelude.{◌≡◌, ◌++◌, ◌<◌, ◌≤◌, ℕ, [], ◌∷◌, length, slice_get, slice_set, Some, IsTrue, OnOk, OnErr, IfOk, IfSome, IfNone, Contains};
ghost use Rattle.cs_base.specs.declared.formula.Clause.{Clause as Lits};
ghost use Rattle.cs_rup.specs.declared.watch.Watch.{Watch as Pair};
ghost use Rattle.cs_rup.specs.Watchers.{HasPlace};
ghost use Rattle.cs_rup.specs.Stores.{AreListed, AreSame, ListsGrow, HasList, IsBlocked, IsAmongAt, KeepsBefore, KeepsWatches, list_of, list_at, place_of as place_of_lit};

use crate::aside::Aside;
use crate::status::is_same;
use crate::watch::{Watch, Watched, Watchers};
use cs_base::{Clause, Lit, Sequence};
use std::alloc::{AllocError, Global};

/// Clauses, the two literals by which each is watched, and lists of watched clauses by literal. A clause has no
/// watch until it is looked at. A literal's list has the place of each clause that it watches. It may have others,
/// since the number of lists is fixed and literals may share them.
#[derive(Drop)]
pub struct Store {
    pub clauses: Sequence<Clause>,
    pub watches: Vec<Option<Watch>>,
    pub lists: Vec<Watchers>,
    aside: Aside,
}

// The place of a literal's list among `count` lists.
fn place_of(count: usize, lit: Lit) -> usize
    requires { 0 < count }
    ensures within { result < count }
    ensures place { result ≡ place_of_lit count lit }
{
    let sign = if lit.positive { 0 } else { 1 };
    let code = 2 * lit.var as usize + sign;
    if code < count { code } else { code % count }
}

fn empty_lists(alloc: Global, count: usize) -> Result<Vec<Watchers>, AllocError>
    ensures count { IfOk result (λ lists. length lists.items ≡ count) }
    ensures empty { IfOk result (λ lists. (index : ℕ) → list_at lists.items index ≡ []) }
{
    let mut lists = Vec::new(alloc);
    for _ in 0..count {
        lists.push(Watchers::new(alloc))?;
    }
    Ok(lists)
}

impl Store {
    /// No clause, and `count` lists.
    pub fn new(alloc: Global, count: usize) -> Result<Store, AllocError>
        requires { 0 < count }
        ensures clauses { IfOk result (λ store. store.clauses ≡ []) }
        ensures listed { IfOk result (λ store. AreListed store) }
    {
        Ok(Store {
            clauses: Sequence::new(alloc),
            watches: Vec::new(alloc),
            lists: empty_lists(alloc, count)?,
            aside: Aside::new(alloc),
        })
    }

    /// The place of a literal's list.
    pub fn index_of(&self, lit: Lit) -> usize
        requires { 0 < length self.now.lists.items }
        ensures within { result < length self.now.lists.items }
        ensures place { result ≡ place_of_lit (length self.now.lists.items) lit }
    {
        place_of(self.lists.len(), lit)
    }

    /// How many clauses a list has.
    pub fn count_at(&self, index: usize) -> usize
        requires { index < length self.now.lists.items }
        ensures { result ≡ length (list_at self.now.lists.items index) }
    {
        self.lists[index].len()
    }

    /// The clause at a place of a list.
    pub fn watched_at(&self, index: usize, at: usize) -> Option<Watched>
        requires { index < length self.now.lists.items }
        ensures some { IfSome result (λ watched. slice_get (list_at self.now.lists.items index) at ≡ Some watched) }
        ensures none { IfNone result (length (list_at self.now.lists.items index) ≤ at) }
    {
        self.lists[index].get(at)
    }

    /// Whether the clause of a place is one to look at last.
    pub fn is_last(&self, place: usize) -> bool {
        self.aside.has(place)
    }

    // Puts a clause into a literal's list.
    fn put(&mut self, lit: Lit, watched: Watched) -> Result<(), AllocError>
        requires listed { AreListed self.old }
        requires blocked { IsBlocked self.old.clauses watched }
        ensures listed { AreListed self.new }
        ensures same { AreSame self.old self.new }
        ensures grow { ListsGrow self.old.lists.items self.new.lists.items }
        ensures ok { OnOk result (HasPlace (list_of self.new.lists.items lit) watched.place) }
    {
        let index = place_of(self.lists.len(), lit);
        self.lists[index].push(watched)?;
        Ok(())
    }

    // Puts a clause into a literal's list, unless the literal watches it already.
    fn put_new(&mut self, lit: Lit, watched: Watched) -> Result<(), AllocError>
        requires listed { AreListed self.old }
        requires blocked { IsBlocked self.old.clauses watched }
        requires within { watched.place < length self.old.watches.items }
        ensures listed { AreListed self.new }
        ensures same { AreSame self.old self.new }
        ensures grow { ListsGrow self.old.lists.items self.new.lists.items }
        ensures ok { OnOk result (HasPlace (list_of self.new.lists.items lit) watched.place) }
    {
        if let Some(watch) = self.watches[watched.place] {
            if is_same(watch.one.lit, lit) {
                return Ok(());
            }
            if is_same(watch.other.lit, lit) {
                return Ok(());
            }
        }
        self.put(lit, watched)
    }

    /// Watches a clause by other literals of it.
    pub fn rewatch(&mut self, place: usize, watch: Watch) -> Result<(), AllocError>
        requires listed { AreListed self.old }
        requires among { (clause : Lits) × (slice_get self.old.clauses place ≡ Some clause)
            × Contains clause.lits watch.one.lit × Contains clause.lits watch.other.lit }
        ensures listed { AreListed self.new }
        ensures clauses { self.new.clauses ≡ self.old.clauses }
        ensures grow { ListsGrow self.old.lists.items self.new.lists.items }
        ensures ok { OnOk result (self.new.watches.items ≡ slice_set self.old.watches.items place (Some watch)) }
        ensures err { OnErr result (self.new.watches.items ≡ self.old.watches.items) }
    {
        let (one, other) = (watch.one.lit, watch.other.lit);
        self.put_new(one, Watched { place, other })?;
        self.put_new(other, Watched { place, other: one })?;
        self.watches[place] = Some(watch);
        Ok(())
    }

    // Whether a literal of this list watches the clause.
    fn has_list(&self, index: usize, place: usize) -> bool
        requires { 0 < length self.now.lists.items }
        ensures { (watch : Pair) → slice_get self.now.watches.items place ≡ Some (Some watch)
            → HasList (length self.now.lists.items) index watch → IsTrue result }
    {
        let count = self.lists.len();
        match self.watches.as_slice().get(place) {
            Some(Some(watch)) => {
                place_of(count, watch.one.lit) == index || place_of(count, watch.other.lit) == index
            }
            _ => false,
        }
    }

    // Takes the clause at a place of a list out of it, unless a literal of this list watches the clause.
    fn forget(&mut self, index: usize, at: usize)
        requires listed { AreListed self.old }
        requires within { index < length self.old.lists.items }
        ensures listed { AreListed self.new }
        ensures same { AreSame self.old self.new }
        ensures count { length self.new.lists.items ≡ length self.old.lists.items }
        ensures before { KeepsBefore self.old.lists.items self.new.lists.items index at }
    {
        let Some(watched) = self.watched_at(index, at) else {
            return;
        };
        if self.has_list(index, watched.place) {
            return;
        }
        self.lists[index].take_out(at);
    }

    // Puts a literal beside the clause at a place of a list.
    fn block(&mut self, index: usize, at: usize, lit: Lit)
        requires listed { AreListed self.old }
        requires within { index < length self.old.lists.items }
        requires among { IsAmongAt self.old index at lit }
        ensures listed { AreListed self.new }
        ensures same { AreSame self.old self.new }
        ensures count { length self.new.lists.items ≡ length self.old.lists.items }
        ensures before { KeepsBefore self.old.lists.items self.new.lists.items index at }
    {
        let Some(watched) = self.watched_at(index, at) else {
            return;
        };
        let place = watched.place;
        self.lists[index].set(at, Watched { place, other: lit });
    }

    /// After a look at the clause at a place of a list: the literal that was found true stands beside it from now
    /// on, or else it is taken out of the list, unless a literal of this list watches it.
    pub fn note(&mut self, index: usize, at: usize, found: Option<Lit>)
        requires listed { AreListed self.old }
        requires within { index < length self.old.lists.items }
        requires among { IfSome found (IsAmongAt self.old index at) }
        ensures listed { AreListed self.new }
        ensures same { AreSame self.old self.new }
        ensures count { length self.new.lists.items ≡ length self.old.lists.items }
        ensures before { KeepsBefore self.old.lists.items self.new.lists.items index at }
    {
        match found {
            Some(lit) => self.block(index, at, lit),
            None => self.forget(index, at),
        }
    }

    /// Puts a clause, or a line, behind the others, which no literal watches yet; a refusal leaves the clauses
    /// unchanged.
    pub fn add(&mut self, alloc: Global, clause: Clause, is_line: bool) -> Result<(), AllocError>
        requires { AreListed self.old }
        ensures listed { AreListed self.new }
        ensures kept { KeepsWatches self.old self.new }
        ensures ok { OnOk result (self.new.clauses ≡ self.old.clauses ++ clause ∷ []) }
        ensures err { OnErr result (self.new.clauses ≡ self.old.clauses) }
    {
        self.aside.add(alloc, clause.lits.len(), is_line)?;
        self.watches.push(None)?;
        self.clauses.push(clause)?;
        Ok(())
    }
}
