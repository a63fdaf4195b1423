// The trail: the literals that are set, in order, each with its level and its reason.
ghost use Rattle.std.specs.Prelude.{◌≡◌, ℕ, ◌+◌, ◌<◌, ◌≤◌, ◌++◌, [], ◌∷◌, true, Some, None, OnOk, OnErr, IfOk, length, slice_set, slice_index_or};
ghost use Rattle.cs_sat.specs.Trails.{setting_of, is_true as is_true_in, is_false as is_false_in, has_sign, IsTrail, IsLast, IsImplied, IsCut, IsPopped, IsSame, decision};
ghost use Rattle.cs_sat.specs.declared.trail.Reason.TheVariants.{Propagated};

use cs_base::Lit;
use std::alloc::{AllocError, Global};

/// Why a literal is set: it was decided, or the other literals of the clause of this number are false.
#[derive(Clone, Copy)]
pub enum Reason {
    Decision,
    Propagated(usize),
}

/// A literal that is set, and the level: 0 where nothing was decided before, and otherwise one more than the place of
/// the last decision.
#[derive(Clone, Copy)]
pub struct Step {
    pub lit: Lit,
    pub level: usize,
    pub reason: Reason,
}

/// The value of a variable, and the place of its literal on the trail.
#[derive(Clone, Copy)]
pub struct Setting {
    pub positive: bool,
    pub place: usize,
}

/// The literals that are set, in order, and the settings by variable.
#[derive(Drop)]
pub struct Trail {
    pub steps: Vec<Step>,
    pub table: Vec<Option<Setting>>,
}

// Variables without values.
fn empty_table(alloc: Global, size: usize) -> Result<Vec<Option<Setting>>, AllocError>
    ensures size { IfOk result (λ table. length table.items ≡ size) }
    ensures none { IfOk result (λ table. (var : ℕ) → slice_index_or table.items var None ≡ None) }
{
    let mut table = Vec::with_capacity(alloc, size)?;
    for _ in 0..size {
        table.push(None)?;
    }
    Ok(table)
}

impl Trail {
    /// No variable is set of 1 to `vars`.
    pub fn new(alloc: Global, vars: u32) -> Result<Trail, AllocError>
        ensures trail { IfOk result (λ trail. IsTrail trail) }
        ensures size { IfOk result (λ trail. length trail.table.items ≡ vars + 1) }
        ensures empty { IfOk result (λ trail. trail.steps.items ≡ []) }
    {
        let table = empty_table(alloc, vars as usize + 1)?;
        Ok(Trail {
            steps: Vec::new(alloc),
            table,
        })
    }

    /// The value of a variable, and where it was set.
    pub fn setting(&self, var: u32) -> Option<Setting>
        ensures { result ≡ setting_of self.now var }
    {
        match self.table.as_slice().get(var as usize) {
            Some(setting) => *setting,
            None => None,
        }
    }

    /// The value of a variable; false where it has none.
    pub fn value(&self, var: u32) -> bool
        ensures { result ≡ has_sign (setting_of self.now var) true }
    {
        match self.setting(var) {
            Some(setting) => setting.positive,
            None => false,
        }
    }

    /// Whether the literal is set true.
    pub fn is_true(&self, lit: Lit) -> bool
        ensures { result ≡ is_true_in self.now lit }
    {
        match self.setting(lit.var) {
            Some(setting) => setting.positive == lit.positive,
            None => false,
        }
    }

    /// Whether the literal is set false.
    pub fn is_false(&self, lit: Lit) -> bool
        ensures { result ≡ is_false_in self.now lit }
    {
        self.is_true(lit.negated())
    }

    /// The level of the last step.
    pub fn level(&self) -> usize
        requires { IsTrail self.now }
        ensures { IsLast self.now.steps.items result }
    {
        match self.steps.as_slice().last() {
            Some(step) => step.level,
            None => 0,
        }
    }

    // Puts a step behind the others.
    fn push(&mut self, step: Step) -> Result<(), AllocError>
        requires within { step.lit.var < length self.old.table.items }
        ensures steps { OnOk result (self.new.steps.items ≡ self.old.steps.items ++ step ∷ []) }
        ensures table { OnOk result (self.new.table.items ≡ slice_set self.old.table.items step.lit.var
            (Some (record { positive = step.lit.positive; place = length self.old.steps.items }))) }
        ensures err { OnErr result (IsSame self.old self.new) }
    {
        let place = self.steps.len();
        self.steps.push(step)?;
        self.table[step.lit.var as usize] = Some(Setting {
            positive: step.lit.positive,
            place,
        });
        Ok(())
    }

    /// Sets a literal by a decision, which begins a level.
    pub fn decide(&mut self, lit: Lit) -> Result<(), AllocError>
        requires trail { IsTrail self.old }
        requires within { lit.var < length self.old.table.items }
        requires open { setting_of self.old lit.var ≡ None }
        ensures trail { IsTrail self.new }
        ensures size { length self.new.table.items ≡ length self.old.table.items }
        ensures ok { OnOk result (self.new.steps.items ≡ self.old.steps.items ++ decision self.old lit ∷ []) }
        ensures err { OnErr result (IsSame self.old self.new) }
    {
        let level = self.steps.len() + 1;
        self.push(Step {
            lit,
            level,
            reason: Reason::Decision,
        })
    }

    /// Sets a literal by the clause of this number, at the level of the last step.
    pub fn imply(&mut self, lit: Lit, number: usize) -> Result<(), AllocError>
        requires trail { IsTrail self.old }
        requires within { lit.var < length self.old.table.items }
        requires open { setting_of self.old lit.var ≡ None }
        ensures trail { IsTrail self.new }
        ensures size { length self.new.table.items ≡ length self.old.table.items }
        ensures ok { OnOk result (IsImplied self.old self.new lit (Propagated number)) }
        ensures err { OnErr result (IsSame self.old self.new) }
    {
        let level = self.level();
        self.push(Step {
            lit,
            level,
            reason: Reason::Propagated(number),
        })
    }

    /// Takes back the steps of later levels.
    pub fn cut(&mut self, level: usize)
        requires { IsTrail self.old }
        ensures trail { IsTrail self.new }
        ensures size { length self.new.table.items ≡ length self.old.table.items }
        ensures cut { IsCut level self.old.steps.items self.new.steps.items }
    {
        while self.level() > level {
            self.pop();
        }
    }

    // Takes the last step back.
    fn pop(&mut self)
        requires trail { IsTrail self.old }
        requires some { 0 < length self.old.steps.items }
        ensures trail { IsTrail self.new }
        ensures size { length self.new.table.items ≡ length self.old.table.items }
        ensures popped { IsPopped self.old.steps.items self.new.steps.items }
    {
        if let Some(step) = self.steps.pop() {
            self.table[step.lit.var as usize] = None;
        }
    }
}
