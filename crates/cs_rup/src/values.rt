// The values of variables: a table for low variables, a map for the others.
ghost use Rattle.std.specs.Prelude.{◌≡◌, ℕ, None, OnOk, OnErr, IfOk};
ghost use Rattle.cs_rup.specs.Settings.{setting_of, is_true as is_true_in, is_false as is_false_in, IsSetIn, IsUnsetIn, IsAlike};

use cs_base::Lit;
use std::alloc::{AllocError, Global};
use std::collections::BTreeMap;

/// The values of those variables that are set.
#[derive(Drop)]
pub struct Values {
    table: Vec<Option<bool>>,
    others: BTreeMap<u32, bool>,
}

impl Values {
    /// No variable is set; those below `size` will stand in a table.
    pub fn new(alloc: Global, size: usize) -> Result<Values, AllocError>
        ensures { IfOk result (λ values. (var : ℕ) → setting_of values var ≡ None) }
    {
        let table = vec![in alloc; None; size]?;
        Ok(Values {
            table,
            others: BTreeMap::new(alloc),
        })
    }

    /// The value of a variable.
    pub fn get(&self, var: u32) -> Option<bool>
        ensures { result ≡ setting_of self.now var }
    {
        match self.table.as_slice().get(var as usize) {
            Some(value) => *value,
            None => self.others.get(&var).copied(),
        }
    }

    /// Whether the literal is set true.
    pub fn is_true(&self, lit: Lit) -> bool
        ensures { result ≡ is_true_in (setting_of self.now) lit }
    {
        self.get(lit.var) == Some(lit.positive)
    }

    /// Whether the literal is set false.
    pub fn is_false(&self, lit: Lit) -> bool
        ensures { result ≡ is_false_in (setting_of self.now) lit }
    {
        self.get(lit.var) == Some(!lit.positive)
    }

    /// Sets a literal true whose variable has no value yet.
    pub fn set(&mut self, lit: Lit) -> Result<(), AllocError>
        requires { setting_of self.old lit.var ≡ None }
        ensures ok { OnOk result (IsSetIn (setting_of self.old) (setting_of self.new) lit) }
        ensures err { OnErr result (IsAlike (setting_of self.old) (setting_of self.new)) }
    {
        if (lit.var as usize) < self.table.len() {
            self.table[lit.var as usize] = Some(lit.positive);
        } else {
            self.others.insert(lit.var, lit.positive)?;
        }
        Ok(())
    }

    /// Takes a variable's value away.
    pub fn unset(&mut self, var: u32)
        ensures { IsUnsetIn (setting_of self.old) (setting_of self.new) var }
    {
        if (var as usize) < self.table.len() {
            self.table[var as usize] = None;
        } else {
            let _ = self.others.remove(&var);
        }
    }
}
