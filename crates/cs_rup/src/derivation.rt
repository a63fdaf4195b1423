// Derivations, whole.
ghost use Rattle.std.specs.Prelude.{◌≡◌, ◌↔◌, IsTrue, IfOk};
ghost use Rattle.cs_base.specs.Derivations.{IsDerivation, EndsWithEmpty, AreRup};
ghost use Rattle.cs_base.specs.Formulas.{Assignment, IsModel};

use crate::checker::Checker;
use cs_base::{Clause, Derivation, Formula};
use std::alloc::{AllocError, Global};

fn ends_with_empty(lines: &[Clause]) -> bool
    ensures { IsTrue result ↔ EndsWithEmpty lines.now }
{
    match lines.last() {
        Some(line) => line.lits.is_empty(),
        None => false,
    }
}

// Whether each line is RUP from the formula and the lines before it.
fn are_rup(alloc: Global, f: &Formula, lines: &[Clause]) -> Result<bool, AllocError>
    ensures { IfOk result (λ yes. IsTrue yes ↔ AreRup f.now.clauses lines.now) }
{
    let mut checker = Checker::new(alloc, f)?;
    for line in lines {
        if !checker.add(alloc, line)? {
            return Ok(false);
        }
    }
    Ok(true)
}

/// Whether the lines are a derivation of the formula: they end with the empty clause, and each is RUP from
/// the formula and the lines before it (Goldberg and Novikov 2003; Van Gelder 2008). A formula that has one
/// has no model. The lines may name any variables. It errs only for want of memory.
pub fn check(alloc: Global, f: &Formula, lines: &Derivation) -> Result<bool, AllocError>
    ensures exact { IfOk result (λ yes. IsTrue yes ↔ IsDerivation f.now lines.now.lines) }
    ensures no_model { IfOk result (λ yes. IsTrue yes → (a : Assignment) → ¬ (IsModel a f.now)) }
{
    if !ends_with_empty(lines.lines.as_slice()) {
        return Ok(false);
    }
    are_rup(alloc, f, lines.lines.as_slice())
}
