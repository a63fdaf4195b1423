// The cells of a loop. A memory stands for all its unclocked reads, so a loop of elements may come to a cell
// more than once: of the walk through the cells a shortcut is kept, which comes to each once.
ghost use Rattle.std.specs.Prelude.{◌≡◌, ◌<◌, ◌+◌, ℕ, ◌++◌, [], IfOk, Some, length, map, drop, take, nat_eq, reverse, slice_get};
ghost use Rattle.std.specs.HashMap.{get};
ghost use Rattle.cs_json.specs.Readable.{AreInOrder};
ghost use Rattle.cs_order.specs.Graphs.{IsLoop};
ghost use Rattle.cs_net.specs.Accept.{IsLoopOfCells};
ghost use Rattle.cs_net.specs.Elements.{graph_of};
ghost use Rattle.cs_net.specs.Loops.{AreOf, IsLeastAt, IsShortcut, last_place, name_at, place_of_cell};
ghost use Rattle.cs_net.specs.Netlist.{Net};

use crate::elements::Element;
use crate::netlist::Cell;
use cs_base::{Sequence, Text};
use std::alloc::{AllocError, Global};
use std::collections::HashMap;

fn place_of_cell(elements: &[Element], vertex: usize) -> usize
    ensures { result ≡ place_of_cell elements.now vertex }
{
    match elements.get(vertex) {
        Some(element) => element.cell,
        None => 0,
    }
}

/// The places of the cells of some elements.
fn places_of_cells(
    alloc: Global,
    elements: &[Element],
    vertices: &[usize],
) -> Result<Vec<usize>, AllocError>
    ensures { IfOk result (λ places. places.items ≡ map (place_of_cell elements.now) vertices.now) }
{
    let mut places = Vec::new(alloc);
    for vertex in vertices {
        places.push(place_of_cell(elements, *vertex))?;
    }
    Ok(places)
}

/// Where the least of some numbers stands.
fn place_of_least(numbers: &[usize]) -> usize
    requires { 0 < length numbers.now }
    ensures { IsLeastAt numbers.now result }
{
    let mut least = 0;
    for place in 0..numbers.len() {
        if numbers[place] < numbers[least] {
            least = place;
        }
    }
    least
}

/// The same numbers, where those up to a place come behind the others.
fn turned(alloc: Global, numbers: &[usize], last: usize) -> Result<Vec<usize>, AllocError>
    requires { last < length numbers.now }
    ensures { IfOk result (λ made. made.items ≡ drop (last + 1) numbers.now ++ take (last + 1) numbers.now) }
{
    let mut made = Vec::from_slice(alloc, &numbers[last + 1..])?;
    made.extend_from_slice(&numbers[..last + 1])?;
    Ok(made)
}

fn last_places(alloc: Global, walk: &[usize]) -> Result<HashMap<usize, usize>, AllocError>
    ensures { IfOk result (λ lasts. (x : ℕ) → get nat_eq lasts x ≡ last_place x walk.now) }
{
    let mut lasts = HashMap::new(alloc);
    for (place, number) in walk.iter().enumerate() {
        lasts.insert(*number, place)?;
    }
    Ok(lasts)
}

/// A walk that goes on, wherever it comes, as this one does from there the last time.
fn shortcut(alloc: Global, walk: &[usize]) -> Result<Vec<usize>, AllocError>
    ensures { IfOk result (λ short. IsShortcut walk.now short.items) }
{
    let lasts = last_places(alloc, walk)?;
    let mut short = Vec::new(alloc);
    let mut next = 0;
    while next < walk.len() {
        let here = walk[next];
        let Some(last) = lasts.get(&here) else {
            unreachable!()
        };
        short.push(here)?;
        next = *last + 1;
    }
    Ok(short)
}

fn name_at(alloc: Global, cells: &[Cell], place: usize) -> Result<Text, AllocError>
    requires { place < length cells.now }
    ensures { IfOk result (λ name. name ≡ name_at cells.now place) }
{
    cells[place].name.copy(alloc)
}

/// The names of some cells, last first.
fn names_from_last(
    alloc: Global,
    cells: &[Cell],
    places: &[usize],
) -> Result<Sequence<Text>, AllocError>
    requires { (i x : ℕ) → slice_get places.now i ≡ Some x → x < length cells.now }
    ensures { IfOk result (λ names. names ≡ reverse (map (name_at cells.now) places.now)) }
{
    let mut names = Vec::new(alloc);
    for place in places {
        names.push(name_at(alloc, cells, *place)?)?;
    }
    names.reverse();
    Ok(Sequence::from_vec(names))
}

/// The names of the cells of a loop of elements, each of which depends on the next: each cell feeds the next
/// and the last the first, none stands twice, and the least name is first. It errs only where memory runs
/// out, and takes time linear in the elements of the loop.
pub(crate) fn loop_names(
    alloc: Global,
    elements: &[Element],
    cells: &[Cell],
    vertices: &[usize],
) -> Result<Sequence<Text>, AllocError>
    requires netlist { (net : Net) × AreOf net elements.now cells.now }
    requires order { AreInOrder (λ c. c.name) cells.now }
    requires closed { IsLoop (graph_of elements.now) vertices.now }
    ensures { IfOk result (λ names.
        (net : Net) → AreOf net elements.now cells.now → IsLoopOfCells net names) }
{
    let places = places_of_cells(alloc, elements, vertices)?;
    let walk = turned(alloc, places.as_slice(), place_of_least(places.as_slice()))?;
    let short = shortcut(alloc, walk.as_slice())?;
    names_from_last(alloc, cells, short.as_slice())
}
