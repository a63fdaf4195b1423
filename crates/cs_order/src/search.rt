// Depth-first search (Cormen et al., 22.3) with a path of its own in place of recursion.
ghost use Rattle.std.specs.Prelude.{◌≡◌, ℕ, ◌<◌, ◌-◌, ◌++◌, [], ◌∷◌, Some, None, OnOk, IfOk, IfSome, IfNone, length, replicate, slice_get, slice_set, take, true, Contains};
ghost use Rattle.cs_order.specs.Graphs.{DependsOn};
ghost use Rattle.cs_order.specs.Searches.{Searches, IsSeen, StaysSeen, ClosesAt, IsPartFrom, IsReady, is_pending, left_of};

use crate::dependencies::Dependencies;
use crate::state::{State, first_pending, is_unseen};
use std::alloc::{AllocError, Global};

/// A search: the state of each vertex, the cursor of each, which is the place of the source of it to be
/// looked at next, the path of open vertices from a root, and the order so far.
#[derive(Debug, Drop)]
pub struct Search {
    pub states: Vec<State>,
    pub cursors: Vec<usize>,
    pub path: Vec<usize>,
    pub order: Vec<usize>,
}

/// The first place where a vertex stands.
fn place_of(path: &[usize], vertex: usize) -> usize
    requires { Contains path.now vertex }
    ensures { slice_get path.now result ≡ Some vertex }
{
    match path.iter().position(|v| *v == vertex) {
        Some(place) => place,
        None => unreachable!(),
    }
}

impl Search {
    /// A search before its first step.
    pub fn new(alloc: Global, graph: &Dependencies) -> Result<Self, AllocError>
        ensures search { IfOk result (Searches graph.now) }
        ensures rest { IfOk result (λ s. s.path.items ≡ []) }
    {
        let vertices = graph.len();
        Ok(Search {
            states: vec![in alloc; State::Unseen; vertices]?,
            cursors: vec![in alloc; 0; vertices]?,
            path: Vec::new(alloc),
            order: Vec::new(alloc),
        })
    }

    /// Puts a vertex that is met for the first time at the end of the path.
    fn enter(&mut self, vertex: usize) -> Result<(), AllocError>
        requires { vertex < length self.old.states.items }
        ensures states { OnOk result (self.new.states.items
            ≡ slice_set self.old.states.items vertex State.Open) }
        ensures path { OnOk result (self.new.path.items ≡ self.old.path.items ++ vertex ∷ []) }
        ensures cursors { self.new.cursors.items ≡ self.old.cursors.items }
        ensures order { self.new.order.items ≡ self.old.order.items }
    {
        self.path.push(vertex)?;
        self.states[vertex] = State::Open;
        Ok(())
    }

    /// Moves the last vertex of the path to the end of the order.
    fn leave(&mut self, vertex: usize) -> Result<(), AllocError>
        requires { vertex < length self.old.states.items }
        ensures states { OnOk result (self.new.states.items
            ≡ slice_set self.old.states.items vertex State.Placed) }
        ensures path { OnOk result (self.new.path.items
            ≡ take (length self.old.path.items - 1) self.old.path.items) }
        ensures cursors { self.new.cursors.items ≡ self.old.cursors.items }
        ensures order { OnOk result (self.new.order.items ≡ self.old.order.items ++ vertex ∷ []) }
    {
        self.order.push(vertex)?;
        let _last = self.path.pop();
        self.states[vertex] = State::Placed;
        Ok(())
    }

    /// The first source of a vertex that is not placed yet; its cursor goes there.
    fn next_source(&mut self, graph: &Dependencies, vertex: usize) -> Option<usize>
        requires search { Searches graph.now self.old }
        requires within { vertex < length graph.now }
        ensures search { Searches graph.now self.new }
        ensures states { self.new.states ≡ self.old.states }
        ensures path { self.new.path ≡ self.old.path }
        ensures none { IfNone result (IsReady graph.now self.old.states.items vertex) }
        ensures some { IfSome result (λ w. DependsOn graph.now vertex w
            × (is_pending self.old.states.items w ≡ true)) }
    {
        let sources = graph.sources(vertex);
        let at = first_pending(self.states.as_slice(), sources, self.cursors[vertex]);
        self.cursors[vertex] = at;
        sources.get(at).copied()
    }

    /// Looks on from the last vertex of the path: places it, or goes on to a source of it, or tells that
    /// this source is on the path already.
    fn step(&mut self, graph: &Dependencies, vertex: usize) -> Result<Option<usize>, AllocError>
        requires search { Searches graph.now self.old }
        requires last { slice_get self.old.path.items (length self.old.path.items - 1) ≡ Some vertex }
        ensures search { OnOk result (Searches graph.now self.new) }
        ensures seen { OnOk result (StaysSeen self.old.states.items self.new.states.items) }
        ensures none { IfOk result (λ o. IfNone o (left_of self.new < left_of self.old)) }
        ensures some { IfOk result (λ o. IfSome o (ClosesAt graph.now self.new)) }
    {
        let Some(source) = self.next_source(graph, vertex) else {
            self.leave(vertex)?;
            return Ok(None);
        };
        if is_unseen(self.states.as_slice(), source) {
            self.enter(source)?;
            return Ok(None);
        }
        Ok(Some(source))
    }

    /// Places a vertex and all that lead to it, or tells the vertex of the path where a loop begins
    /// and ends.
    pub fn visit(&mut self, graph: &Dependencies, root: usize) -> Result<Option<usize>, AllocError>
        requires search { Searches graph.now self.old }
        requires rest { self.old.path.items ≡ [] }
        requires within { root < length graph.now }
        ensures search { OnOk result (Searches graph.now self.new) }
        ensures none { IfOk result (λ o. IfNone o ((self.new.path.items ≡ [])
            × StaysSeen self.old.states.items self.new.states.items
            × IsSeen self.new.states.items root)) }
        ensures some { IfOk result (λ o. IfSome o (ClosesAt graph.now self.new)) }
    {
        if !is_unseen(self.states.as_slice(), root) {
            return Ok(None);
        }
        self.enter(root)?;
        while let Some(last) = self.path.last().copied() {
            if let Some(start) = self.step(graph, last)? {
                return Ok(Some(start));
            }
        }
        Ok(None)
    }

    /// The path from a vertex of it on.
    pub fn path_from(&self, alloc: Global, vertex: usize) -> Result<Vec<usize>, AllocError>
        requires { Contains self.now.path.items vertex }
        ensures { IfOk result (λ vs. IsPartFrom self.now.path.items vertex vs.items) }
    {
        let start = place_of(self.path.as_slice(), vertex);
        Vec::from_slice(alloc, &self.path[start..])
    }
}
