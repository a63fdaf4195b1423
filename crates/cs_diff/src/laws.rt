// Laws of systems of difference constraints: each function is empty, and its clauses are the law.
ghost use Rattle.std.specs.Prelude.{◌↔◌, ◌*◌, ◌<◌, ℕ, ℤ, pos, ◌+ℤ◌, ◌≤ℤ◌, List};
ghost use Rattle.std.specs.Int.{int_min, int_max};
ghost use Rattle.cs_diff.specs.Systems.{AreAtLeast, HasSolution, IsGreatest, IsLeast, IsNegativeLoop, IsSolution};
ghost use Rattle.cs_diff.specs.declared.system.System.{System};

/// Solutions are closed under the pointwise least and greatest.
pub fn lattice()
    ensures least { (s : System) (r r' : ℕ → ℤ) → IsSolution s r → IsSolution s r'
        → IsSolution s (λ v. int_min (r v) (r' v)) }
    ensures greatest { (s : System) (r r' : ℕ → ℤ) → IsSolution s r → IsSolution s r'
        → IsSolution s (λ v. int_max (r v) (r' v)) }
{}

/// A system has a solution exactly where no loop of its constraints has a sum below 0.
pub fn no_negative_loop()
    ensures { (s : System) → HasSolution s ↔ ((places : List ℕ) → ¬ (IsNegativeLoop s places)) }
{}

/// A system with a solution has a greatest one under any caps.
pub fn greatest_exists()
    ensures { (s : System) (caps : ℕ → ℤ) → HasSolution s → (r : ℕ → ℤ) × IsGreatest s caps r }
{}

/// Where no constraint is below -a and no cap below 0, no value of the greatest solution is below -a times the number of
/// vertices.
pub fn greatest_is_high()
    ensures { (s : System) (a : ℕ) (caps r : ℕ → ℤ) → AreAtLeast s a
        → ((v : ℕ) → v < s.vertices → pos 0 ≤ℤ caps v) → IsGreatest s caps r
        → (v : ℕ) → v < s.vertices → pos 0 ≤ℤ (r v +ℤ pos (s.vertices * a)) }
{}

/// Where no constraint is below -a, no least value is above a times the number of vertices.
pub fn least_is_low()
    ensures { (s : System) (a root v : ℕ) (least : ℤ) → AreAtLeast s a → v < s.vertices → IsLeast s root v least
        → least ≤ℤ pos (s.vertices * a) }
{}
