// Laws of derivations: each function is empty, and its clauses are the law.
ghost use Rattle.std.specs.Prelude.{◌≡◌, true, List};
ghost use Rattle.cs_base.specs.declared.formula.Clause.{Clause};
ghost use Rattle.cs_base.specs.declared.formula.Formula.{Formula};
ghost use Rattle.cs_base.specs.Derivations.{IsRup, IsDerivation};
ghost use Rattle.cs_base.specs.Formulas.{Assignment, clause_value, MakesTrue, IsModel};

/// A line that is RUP is true where the clauses are, and a formula that has a derivation has no model.
pub fn no_model()
    ensures line { (clauses : List Clause) (line : Clause) (a : Assignment) → IsRup clauses line
        → MakesTrue a clauses → clause_value a line ≡ true }
    ensures formula { (f : Formula) (lines : List Clause) (a : Assignment) → IsDerivation f lines
        → ¬ (IsModel a f) }
{}
