// Formulas by their numbers: a negative one is a negated variable.
ghost use Rattle.std.specs.Prelude.{◌≤◌, IsTrue, All};
ghost use Rattle.cs_base.specs.declared.formula.Lit.{Lit as Literal};
ghost use Rattle.cs_base.specs.Formulas.{IsInRange};

use cs_base::{Clause, Formula, Lit, Sequence};
use std::alloc::{AllocError, Global};

// Whether the literals name the variables 1 to this number alone.
fn are_within(vars: u32, lits: &[Lit]) -> bool
    ensures { IsTrue result → All (λ (lit : Literal). (1 ≤ lit.var) × (lit.var ≤ vars)) lits.now }
{
    for lit in lits {
        if lit.var < 1 || lit.var > vars {
            return false;
        }
    }
    true
}

/// Whether the clauses name the variables 1 to the formula's number alone.
pub fn is_in_range(f: &Formula) -> bool
    ensures { IsTrue result → IsInRange f.now }
{
    for clause in f.clauses.as_slice() {
        if !are_within(f.vars, clause.lits.as_slice()) {
            return false;
        }
    }
    true
}

/// A formula of some variables without clauses.
pub fn formula(alloc: Global, vars: u32) -> Formula {
    Formula {
        vars,
        clauses: Sequence::new(alloc),
    }
}

/// Puts a clause of these literals behind the others.
pub fn add_lits(alloc: Global, f: &mut Formula, lits: &[Lit]) -> Result<(), AllocError> {
    let lits = Sequence::from_vec(Vec::from_slice(alloc, lits)?);
    f.clauses.push(Clause { lits })
}

/// The variable.
pub fn yes(var: u32) -> Lit {
    Lit {
        var,
        positive: true,
    }
}

/// The variable's negation.
pub fn no(var: u32) -> Lit {
    Lit {
        var,
        positive: false,
    }
}

/// Puts a clause behind the others.
pub fn add(alloc: Global, f: &mut Formula, numbers: &[i32]) -> Result<(), AllocError> {
    let mut lits = Sequence::new(alloc);
    for number in numbers {
        lits.push(Lit {
            var: number.unsigned_abs(),
            positive: *number > 0,
        })?;
    }
    f.clauses.push(Clause { lits })
}

/// Whether each clause has a literal that these bits make true.
pub fn holds(f: &Formula, bits: &[bool]) -> bool {
    f.clauses.as_slice().iter().all(|clause| {
        clause.lits.as_slice().iter().any(|lit| bits.get((lit.var as usize).saturating_sub(1))
            == Some(&lit.positive))
    })
}
