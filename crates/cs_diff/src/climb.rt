// Loops among the parents (Cherkassky and Goldberg, Negative-cycle detection algorithms): a loop of
// parents has a sum below 0, and there is one as soon as a label is lower than every path without a
// loop allows.
ghost use Rattle.std.specs.Prelude.{◌≡◌, ◌<◌, ◌≤◌, ◌≢◌, ℕ, Some, None, IsSome, IfSome, IfNone, IfOk, length};
ghost use Rattle.cs_diff.specs.Labels.{at, up, ancestor, ClimbsBy, IsParentLoop};

use crate::reading::Reading;
use crate::system::System;
use cs_base::Sequence;
use std::alloc::{AllocError, Global};

/// The place of the constraint that gave the vertex its label.
fn parent_of(parents: &[Option<u32>], vertex: u32) -> Option<u32>
    ensures { result ≡ at parents.now vertex }
{
    parents.get(vertex as usize).copied().flatten()
}

/// The vertex to which the parent of a vertex leads.
fn next(sys: &System, reading: Reading, parents: &[Option<u32>], vertex: u32) -> Option<u32>
    ensures up { result ≡ up reading sys.now.constraints parents.now vertex }
    ensures within { IfSome result (λ v. v < sys.now.vertices) }
{
    let place = parent_of(parents, vertex)?;
    let constraint = sys.find(place)?;
    Some(constraint.tail(reading))
}

/// The vertex to which as many parents lead from a vertex as there are vertices, if they lead so
/// far.
fn far_ancestor(sys: &System, reading: Reading, parents: &[Option<u32>], vertex: u32) -> Option<u32>
    ensures { result ≡ ancestor reading sys.now.constraints parents.now sys.now.vertices vertex }
{
    let mut at = vertex;
    for _step in 0..sys.vertices {
        at = next(sys, reading, parents, at)?;
    }
    Some(at)
}

/// The parents on the way from a vertex back to itself, if there is such a way.
fn loop_through(
    alloc: Global,
    sys: &System,
    reading: Reading,
    parents: &[Option<u32>],
    start: u32,
) -> Result<Option<Sequence<u32>>, AllocError>
    ensures found { IfOk result (λ o. IfSome o (λ places.
        IsParentLoop reading sys.now.constraints parents.now places)) }
    ensures none { IfOk result (λ o. IfNone o ((k : ℕ) → 0 < k → k ≤ sys.now.vertices
        → ancestor reading sys.now.constraints parents.now k start ≢ Some start)) }
{
    let mut places = Sequence::new(alloc);
    let mut at = start;
    for _step in 0..sys.vertices {
        let Some(place) = parent_of(parents, at) else {
            return Ok(None);
        };
        let Some(above) = next(sys, reading, parents, at) else {
            return Ok(None);
        };
        places.push(place)?;
        at = above;
        if at == start {
            return Ok(Some(places));
        }
    }
    Ok(None)
}

/// A loop that the parents above a vertex close, where they lead on without an end.
pub fn loop_above(
    alloc: Global,
    sys: &System,
    reading: Reading,
    parents: &[Option<u32>],
    vertex: u32,
) -> Result<Sequence<u32>, AllocError>
    requires within { vertex < sys.now.vertices }
    requires endless { IsSome (ancestor reading sys.now.constraints parents.now
        sys.now.vertices vertex) }
    ensures { IfOk result (λ places. IsParentLoop reading sys.now.constraints parents.now places) }
{
    let Some(at) = far_ancestor(sys, reading, parents, vertex) else {
        unreachable!()
    };
    match loop_through(alloc, sys, reading, parents, at)? {
        Some(places) => Ok(places),
        None => unreachable!(),
    }
}

/// Marks the way up from a vertex until it meets a marked one, and tells at which vertex it meets
/// itself.
fn meeting(
    sys: &System,
    reading: Reading,
    parents: &[Option<u32>],
    marks: &mut [Option<u32>],
    start: u32,
) -> Option<u32>
    requires within { start < sys.now.vertices }
    requires len { length marks.old ≡ sys.now.vertices }
{
    let mut at = start;
    while marks[at as usize].is_none() {
        marks[at as usize] = Some(start);
        at = next(sys, reading, parents, at)?;
    }
    if marks[at as usize] == Some(start) {
        Some(at)
    } else {
        None
    }
}

/// Some loop among the parents, each vertex being looked at once.
pub fn any_loop(
    alloc: Global,
    sys: &System,
    reading: Reading,
    parents: &[Option<u32>],
) -> Result<Option<Sequence<u32>>, AllocError>
    ensures { IfOk result (λ o. IfSome o (λ places.
        IsParentLoop reading sys.now.constraints parents.now places)) }
{
    let mut marks = vec![in alloc; None; sys.vertices as usize]?;
    for start in 0..sys.vertices {
        if let Some(at) = meeting(sys, reading, parents, &mut marks, start) {
            return loop_through(alloc, sys, reading, parents, at);
        }
    }
    Ok(None)
}
