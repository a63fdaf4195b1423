// The clauses: those of the formula, which are lent, and the lines behind them. Each is watched by two of its literals
// (Moskewicz et al. 2001), named by their places in it. Where too many lines are watched, the longer half of them is let
// go: they stay lines, and reasons, but no literal watches them any more. Nothing that is promised rests on what is
// watched.
ghost use Rattle.std.specs.Prelude.{◌≡◌, ◌++◌, [], ◌∷◌, Some, None, OnOk, OnErr, IfSome, IfNone, IfOk, length, slice_get};

use crate::look::is_same;
use cs_base::{Clause, Lit, Sequence};
use std::alloc::{AllocError, Global};

/// The places of the two literals that watch a clause.
#[derive(Clone, Copy)]
pub struct Watch {
    pub one: usize,
    pub other: usize,
}

/// A clause that a literal watches, and another literal of it: while that is true, the clause asks for nothing.
#[derive(Clone, Copy)]
pub struct Watched {
    pub number: usize,
    pub other: Lit,
}

/// The lines that were learned, and who watches each clause.
#[derive(Drop)]
pub struct Store {
    pub lines: Sequence<Clause>,
    watches: Vec<Watch>,
    /// the clauses that a literal watches
    watchers: Vec<Vec<Watched>>,
    /// by clause, how many literals it has where it is a line that is watched, and 0 for any other
    lengths: Vec<usize>,
    /// how many lines are watched
    count: usize,
    /// how many lines may be watched
    most: usize,
}

/// How many lines may be watched at first, and how many more each time that some were let go.
const FIRST_MOST: usize = 2000;

const MORE: usize = 500;

/// The clause of a number: one of the formula, or a line behind them.
pub fn clause_at<'a>(base: &'a [Clause], lines: &'a [Clause], number: usize) -> Option<&'a Clause>
    ensures some { IfSome result (λ clause. slice_get (base.now ++ lines.now) number ≡ Some clause.now) }
    ensures none { IfNone result (slice_get (base.now ++ lines.now) number ≡ None) }
{
    if number < base.len() {
        Some(&base[number])
    } else {
        lines.get(number - base.len())
    }
}

// The place of a literal's list.
fn code(lit: Lit) -> usize {
    2 * lit.var as usize + if lit.positive { 0 } else { 1 }
}

fn empty_lists(alloc: Global, count: usize) -> Result<Vec<Vec<Watched>>, AllocError> {
    let mut lists = Vec::with_capacity(alloc, count)?;
    for _ in 0..count {
        lists.push(Vec::new(alloc))?;
    }
    Ok(lists)
}

// Takes the item at this place out; the last one takes its place.
fn take_out(list: &mut Vec<Watched>, at: usize) {
    if at < list.len() {
        let _ = list.swap_remove(at);
    }
}

// Whether the clause at a place of a list is longer than this.
fn is_longer(list: &[Watched], at: usize, lengths: &[usize], length: usize) -> bool {
    match list.get(at) {
        Some(watched) => lengths.get(watched.number).copied().unwrap_or(0) > length,
        None => false,
    }
}

// Takes the clauses out of a list that are longer than this.
fn take_longer(list: &mut Vec<Watched>, lengths: &[usize], length: usize) {
    for at in (0..list.len()).rev() {
        if is_longer(list.as_slice(), at, lengths, length) {
            take_out(list, at);
        }
    }
}

// Takes the clauses out of all lists that are longer than this.
fn take_longer_of_all(lists: &mut Vec<Vec<Watched>>, lengths: &[usize], length: usize) {
    for list in lists.iter_mut() {
        take_longer(list, lengths, length);
    }
}

// Forgets the lengths that are greater than this; tells how many are left.
fn forget_longer(lengths: &mut Vec<usize>, most: usize) -> usize {
    let mut count = 0usize;
    for length in lengths.iter_mut() {
        if *length > most {
            *length = 0;
        } else if *length != 0 {
            count = count.saturating_add(1);
        }
    }
    count
}

impl Store {
    /// No lines, and no clause is watched, over the variables 1 to `vars`.
    pub fn new(alloc: Global, vars: u32) -> Result<Store, AllocError>
        ensures { IfOk result (λ store. store.lines ≡ []) }
    {
        Ok(Store {
            lines: Sequence::new(alloc),
            watches: Vec::new(alloc),
            watchers: empty_lists(alloc, 2 * vars as usize + 2)?,
            lengths: Vec::new(alloc),
            count: 0,
            most: FIRST_MOST,
        })
    }

    /// The lines alone.
    pub fn into_lines(self) -> Sequence<Clause>
        ensures { result ≡ self.lines }
    {
        self.lines
    }

    /// Puts a line behind the others.
    pub fn add(&mut self, line: Clause) -> Result<(), AllocError>
        ensures ok { OnOk result (self.new.lines ≡ self.old.lines ++ line ∷ []) }
        ensures err { OnErr result (self.new.lines ≡ self.old.lines) }
    {
        self.lines.push(line)
    }

    /// Watches the next clause, of these literals.
    pub fn watch(&mut self, lits: &[Lit], watch: Watch) -> Result<(), AllocError>
        ensures { self.new.lines ≡ self.old.lines }
    {
        let number = self.watches.len();
        self.watches.push(watch)?;
        self.measure(lits.len())?;
        self.list(lits, watch.one, watch.other, number)?;
        if watch.one != watch.other {
            self.list(lits, watch.other, watch.one, number)?;
        }
        Ok(())
    }

    // Notes the length of the next clause, if it is a line, and lets some lines go where too many are watched. The first
    // line counts as a clause of the formula.
    fn measure(&mut self, length: usize) -> Result<(), AllocError>
        ensures { self.new.lines ≡ self.old.lines }
    {
        if self.lines.is_empty() {
            self.lengths.push(0)?;
            return Ok(());
        }
        self.lengths.push(length)?;
        self.count = self.count.saturating_add(1);
        if self.count > self.most {
            self.let_go()?;
        }
        Ok(())
    }

    // Lets the longer half of the lines go that are watched.
    fn let_go(&mut self) -> Result<(), AllocError>
        ensures { self.new.lines ≡ self.old.lines }
    {
        let length = self.middle_length()?;
        take_longer_of_all(&mut self.watchers, self.lengths.as_slice(), length);
        self.count = forget_longer(&mut self.lengths, length);
        self.most = self.most.max(self.count).saturating_add(MORE);
        Ok(())
    }

    // The length that half of the lines that are watched don't exceed.
    fn middle_length(&self) -> Result<usize, AllocError> {
        let mut sorted = self.lengths.clone()?;
        sorted.sort_unstable();
        let place = sorted.len().saturating_sub(self.count / 2);
        Ok(sorted.as_slice().get(place).copied().unwrap_or(usize::MAX))
    }

    // Puts a clause into the list of one of its literals, with the one at another place.
    fn list(
        &mut self,
        lits: &[Lit],
        place: usize,
        beside: usize,
        number: usize,
    ) -> Result<(), AllocError>
        ensures { self.new.lines ≡ self.old.lines }
    {
        let Some(lit) = lits.get(place) else {
            return Ok(());
        };
        let other = lits.get(beside).copied().unwrap_or(*lit);
        self.put(*lit, Watched { number, other })
    }

    // Puts a clause into the list of a literal.
    fn put(&mut self, lit: Lit, watched: Watched) -> Result<(), AllocError>
        ensures { self.new.lines ≡ self.old.lines }
    {
        let index = code(lit);
        if index < self.watchers.len() {
            self.watchers[index].push(watched)?;
        }
        Ok(())
    }

    /// How many clauses the literal watches.
    pub fn watched_by(&self, lit: Lit) -> usize {
        match self.watchers.as_slice().get(code(lit)) {
            Some(list) => list.len(),
            None => 0,
        }
    }

    /// The clause at this place of the literal's list.
    pub fn watched_at(&self, lit: Lit, at: usize) -> Option<Watched> {
        match self.watchers.as_slice().get(code(lit)) {
            Some(list) => list.as_slice().get(at).copied(),
            None => None,
        }
    }

    /// Takes the clause at this place from the literal's list.
    pub fn forget(&mut self, lit: Lit, at: usize)
        ensures { self.new.lines ≡ self.old.lines }
    {
        let index = code(lit);
        if index < self.watchers.len() {
            take_out(&mut self.watchers[index], at);
        }
    }

    /// Who watches a clause: first the place of this literal, if it watches.
    pub fn watch_of(&self, number: usize, lits: &[Lit], lit: Lit) -> Watch {
        let Some(watch) = self.watches.as_slice().get(number) else {
            return Watch { one: 0, other: 0 };
        };
        if watch.one < lits.len() && is_same(lits[watch.one], lit) {
            return *watch;
        }
        Watch {
            one: watch.other,
            other: watch.one,
        }
    }

    /// The clause is watched by the literals at these places from now on: `lit` and `other`.
    pub fn rewatch(
        &mut self,
        number: usize,
        watch: Watch,
        lit: Lit,
        other: Lit,
    ) -> Result<(), AllocError>
        ensures { self.new.lines ≡ self.old.lines }
    {
        if number < self.watches.len() {
            self.watches[number] = watch;
        }
        self.put(lit, Watched { number, other })
    }
}
