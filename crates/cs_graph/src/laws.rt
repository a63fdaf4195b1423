// Laws of machines. Each is a function without effect, whose clauses are the law.
ghost use Rattle.std.specs.Prelude.{◌≡◌, ◌<◌, ◌≤◌, ◌↔◌, ◌+ℤ◌, ◌-ℤ◌, ◌<ℤ◌, pos, ℤ, ℕ, Bool, false, List, [], ◌∷◌, length};
ghost use Rattle.cs_base.specs.Parts.{part};
ghost use Rattle.cs_base.specs.declared.contexts.Mode.{Mode};
ghost use Rattle.cs_cells.specs.Memories.{Words};
ghost use Rattle.cs_order.specs.Graphs.{HasNoRepeat};
ghost use Rattle.cs_graph.specs.Invariant.{IsWellFormed};
ghost use Rattle.cs_graph.specs.Lags.{lag_at, IsLegal, HasLengths, retimed, Justifies, HasStart};
ghost use Rattle.cs_graph.specs.Past.{Past, lead, IsPast, AreRight, HasPast, HasPastOf, IsPastOf, IsSlowedBy, joined};
ghost use Rattle.cs_graph.specs.Period.{IsLeastWeight, IsPath, IsPathDelay, IsPeriod, IsPeriodWithin, MeetsBound, path_vertices, path_weight, path_weight_under};
ghost use Rattle.cs_graph.specs.Run.{Row, Outs, RunsFor, HasOneRun, HasOneRunOn, RunsWith};
ghost use Rattle.cs_graph.specs.Slow.{slow};
ghost use Rattle.cs_graph.specs.declared.contents.Contents.{Contents};
ghost use Rattle.cs_graph.specs.declared.delays.Delays.{Delays};
ghost use Rattle.cs_graph.specs.declared.graph.Graph.{Graph};

use crate::machine::Machine;

/// A well-formed graph has exactly one run over any rows, and exactly one bounded run; and one for ever, of which
/// each of these is the beginning.
pub fn one_run()
    ensures clocks { (bounded : Bool) (g : Graph) (clocks : ℕ) (row : ℕ → Row) → IsWellFormed g
        → HasOneRun bounded g clocks row }
    ensures for_ever { (bounded : Bool) (g : Graph) (row : ℕ → Row) → IsWellFormed g → HasOneRunOn bounded g row }
{}

/// What a machine without memories answers when each register is several, it answers to each context alone.
pub fn contexts_alone()
    ensures { (bounded : Bool) (g : Graph) (c k : ℕ) (rows outputs : List Row) → g.memories ≡ [] → k < c
        → RunsWith bounded (slow c g) rows outputs
        → RunsWith bounded g (part k c rows) (part k c outputs) }
{}

/// A well-formed graph stays so under legal lags, with any contents of the right lengths.
pub fn retimed_graphs()
    ensures { (g : Graph) (mode : Mode) (lags : List ℤ) (k : Contents) → IsWellFormed g → IsLegal g mode lags
        → HasLengths g lags k → IsWellFormed (retimed lags k g) }
{}

/// For legal lags, contents that continue a past justify the lags; the retimed machine then answers what the
/// machine answers.
pub fn right_contents(machine: &Machine)
    ensures justify { (mode : Mode) (lags : List ℤ) (past : Past) (k : Contents) → IsLegal machine.now mode lags
        → IsPast machine.now lags past → AreRight machine.now lags past k → Justifies machine.now lags k }
    ensures answer { (mode : Mode) (lags : List ℤ) (past : Past) (k : Contents) (rows outputs : List Row)
        → IsLegal machine.now mode lags → IsPast machine.now lags past → AreRight machine.now lags past k
        → RunsWith false machine.now rows outputs → RunsWith false (retimed lags k machine.now) rows outputs }
{
    machine.keeps();
}

/// Values computed ahead, at the clocks below minus a negative lag, are the same for all rows.
pub fn values_ahead(machine: &Machine)
    ensures { (mode : Mode) (lags : List ℤ) (clocks clocks' t v o : ℕ) (row row' : ℕ → Row)
        (value value' : ℕ → Outs) (words words' : ℕ → ℕ → Words) → IsLegal machine.now mode lags
        → RunsFor false machine.now clocks row value words → RunsFor false machine.now clocks' row' value' words'
        → t < clocks → t < clocks' → (pos t +ℤ lag_at lags v) <ℤ pos 0 → value t v o ≡ value' t v o }
{
    machine.keeps();
}

/// Legal lags have a justifying start exactly where they have a past; where every weight is a multiple of the
/// number of contexts, exactly where they have one for each context; and so have lags that are positive by less.
pub fn starts(machine: &Machine)
    ensures exactly { (mode : Mode) (lags : List ℤ) → IsLegal machine.now mode lags
        → HasStart machine.now lags ↔ HasPast machine.now lags }
    ensures by_context { (lags : List ℤ) (c : ℕ) → 0 < c → IsSlowedBy c machine.now
        → HasPast machine.now lags ↔ ((k : ℕ) → k < c → HasPastOf machine.now lags c k) }
    ensures pass { (lags lags' : List ℤ) → ((v : ℕ) → lead (lag_at lags v) ≤ lead (lag_at lags' v))
        → HasPast machine.now lags' → HasPast machine.now lags }
{
    machine.keeps();
}

/// A past meets the formula of all clocks exactly where it meets that of each context; and where every weight is a
/// multiple of the number of contexts, pasts of each context join into one.
pub fn pasts_by_context()
    ensures one { (g : Graph) (lags : List ℤ) (c : ℕ) (past : Past) → 0 < c
        → IsPast g lags past ↔ ((k : ℕ) → k < c → IsPastOf g lags c k past) }
    ensures joined { (g : Graph) (lags : List ℤ) (c : ℕ) (pasts : ℕ → Past) → 0 < c → IsSlowedBy c g
        → IsPast g lags (joined c pasts) ↔ ((k : ℕ) → k < c → IsPastOf g lags c k (pasts k)) }
{}

/// Lags have one period.
pub fn one_period()
    ensures { (g : Graph) (delays : Delays) (lags : List ℤ) (period period' : ℕ) → IsPeriod g delays lags period
        → IsPeriod g delays lags period' → period ≡ period' }
{}

/// Along a path lags change the registers only by those of its ends.
pub fn registers_of_paths()
    ensures { (g : Graph) (lags : List ℤ) (u v : ℕ) (es : List ℕ) → IsPath g u es v → path_weight_under g lags es
        ≡ pos (path_weight g es) +ℤ lag_at lags v -ℤ lag_at lags u }
{}

/// A path of a machine that leads back to where it begins has a register; so a path with the least registers comes
/// to no vertex twice, and has fewer edges than there are vertices.
pub fn least_paths(machine: &Machine)
    ensures closed { (v e : ℕ) (es : List ℕ) → IsPath machine.now v (e ∷ es) v
        → 0 < path_weight machine.now (e ∷ es) }
    ensures simple { (u v weight : ℕ) (es : List ℕ) → IsLeastWeight machine.now u v weight
        → IsPath machine.now u es v → path_weight machine.now es ≡ weight
        → HasNoRepeat (path_vertices machine.now u es) }
    ensures short { (u v weight : ℕ) (es : List ℕ) → u < length machine.now.vertices
        → IsLeastWeight machine.now u v weight → IsPath machine.now u es v
        → path_weight machine.now es ≡ weight → length es < length machine.now.vertices }
{
    machine.keeps();
}

/// Legal lags have a period at most a bound exactly where, for all vertices u and v with D(u, v) above the bound,
/// r(u) - r(v) is at most W(u, v) - 1; and the period is D(u, v) of some vertices (Leiserson and Saxe, "Retiming
/// synchronous circuitry", with a delay for each pin).
pub fn periods_by_paths()
    ensures within { (g : Graph) (delays : Delays) (mode : Mode) (lags : List ℤ) (bound : ℕ) → IsWellFormed g
        → IsLegal g mode lags → IsPeriodWithin g delays lags bound ↔ MeetsBound g delays lags bound }
    ensures at_most { (g : Graph) (delays : Delays) (mode : Mode) (lags : List ℤ) (period bound : ℕ)
        → IsWellFormed g → IsLegal g mode lags → IsPeriod g delays lags period
        → (period ≤ bound) ↔ MeetsBound g delays lags bound }
    ensures is_delay { (g : Graph) (delays : Delays) (mode : Mode) (lags : List ℤ) (period : ℕ) → IsWellFormed g
        → IsLegal g mode lags → 0 < length g.vertices → IsPeriod g delays lags period
        → IsPathDelay g delays period }
{}
