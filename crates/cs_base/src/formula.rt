// Propositional formulas in conjunctive normal form, and derivations from them.
ghost use Rattle.std.specs.Prelude.{◌≡◌, IfOk};

use crate::sequence::Sequence;
use std::alloc::{AllocError, Global};

/// A variable, numbered from 1, or its negation.
#[derive(Clone, Copy, Debug, PartialEq, Eq)]
pub struct Lit {
    pub var: u32,
    pub positive: bool,
}

impl Lit {
    ghost use Rattle.cs_base.specs.Derivations.{negated};

    /// The other literal of the same variable.
    pub fn negated(self) -> Self
        ensures { result ≡ negated self }
    {
        Lit {
            var: self.var,
            positive: !self.positive,
        }
    }
}

/// A clause: at least one of its literals is to be true. The empty clause never is.
#[derive(Debug, Drop)]
pub struct Clause {
    pub lits: Sequence<Lit>,
}

impl Clause {
    /// Another clause of the same literals.
    pub fn copy(&self, alloc: Global) -> Result<Self, AllocError>
        ensures { IfOk result (λ clause. clause ≡ self.now) }
    {
        let lits = Vec::from_slice(alloc, self.lits.as_slice())?;
        Ok(Clause {
            lits: Sequence::from_vec(lits),
        })
    }
}

/// Clauses that are all to be true, over the variables 1 to `vars`.
#[derive(Debug, Drop)]
pub struct Formula {
    pub vars: u32,
    pub clauses: Sequence<Clause>,
}

impl Formula {
    /// Another formula of the same variables and clauses.
    pub fn copy(&self, alloc: Global) -> Result<Self, AllocError>
        ensures { IfOk result (λ formula. formula ≡ self.now) }
    {
        let mut clauses = Sequence::new(alloc);
        for clause in self.clauses.as_slice() {
            clauses.push(clause.copy(alloc)?)?;
        }
        Ok(Formula {
            vars: self.vars,
            clauses,
        })
    }
}

/// Lines that lead from a formula to the empty clause. A line may name variables above the formula's.
#[derive(Debug, Drop)]
pub struct Derivation {
    pub lines: Sequence<Clause>,
}

fn crosses_threads<T: Send + Sync>(_: &T) {}

// Formulas and derivations go from thread to thread.
fn formulas_cross_threads(formula: &Formula, derivation: &Derivation) {
    crosses_threads(formula);
    crosses_threads(derivation);
}
