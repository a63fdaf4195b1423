// How far the search is with a vertex.
ghost use Rattle.std.specs.Prelude.{ℕ, ◌≡◌, ◌≤◌, true, Some, slice_get};
ghost use Rattle.std.specs.Bool.{OnTrue, OnFalse};
ghost use Rattle.cs_order.specs.Searches.{is_pending, ArePassed};

/// How far the search is with a vertex.
#[derive(Clone, Copy, Debug, PartialEq, Eq)]
pub enum State {
    /// It was not met yet.
    Unseen,
    /// It stands on the path from a root to the vertex that is looked at.
    Open,
    /// It stands in the order.
    Placed,
}

/// Whether the vertex was not met yet.
pub fn is_unseen(states: &[State], vertex: usize) -> bool
    ensures yes { OnTrue result (slice_get states.now vertex ≡ Some State.Unseen) }
    ensures no { OnFalse result (¬ (slice_get states.now vertex ≡ Some State.Unseen)) }
{
    match states.get(vertex) {
        Some(State::Unseen) => true,
        None | Some(State::Open | State::Placed) => false,
    }
}

/// Whether the number is that of a vertex that is not placed yet.
pub fn is_pending(states: &[State], vertex: usize) -> bool
    ensures { result ≡ is_pending states.now vertex }
{
    match states.get(vertex) {
        None | Some(State::Placed) => false,
        Some(State::Unseen | State::Open) => true,
    }
}

/// The place of the first source, from a place on, that is not placed yet, or how many there are.
pub fn first_pending(states: &[State], sources: &[usize], from: usize) -> usize
    ensures ahead { from ≤ result }
    ensures passed { ArePassed states.now sources.now from result }
    ensures found { (w : ℕ) → slice_get sources.now result ≡ Some w → is_pending states.now w ≡ true }
{
    let mut at = from;
    while at < sources.len() && !is_pending(states, sources[at]) {
        at += 1;
    }
    at
}
