// Guides: what all searches of a machine share. A machine lists its edges by their end; a search wants them by
// their beginning, so a table is made once.
ghost use Rattle.std.specs.Prelude.{◌≡◌, ◌<◌, IfOk, length, slice_get, Some, replicate, []};
ghost use Rattle.cs_graph.specs.Order.{IsOrder, no_lags};
ghost use Rattle.cs_paths.specs.Guides.{AreLeaving, ArePlaces, IsGuide, leaving_of, place_of};

use cs_base::{EdgeId, Sequence, VertexId};
use cs_graph::Machine;
use std::alloc::{AllocError, Global};

/// The edges by their beginning, an order of the vertices in which each comes after all that feed it without a
/// register, and the place of each vertex in it.
#[derive(Drop)]
pub struct Guide {
    leaving: Sequence<Sequence<EdgeId>>,
    order: Sequence<VertexId>,
    places: Sequence<u32>,
}

/// So many empty lists.
fn empty_lists(alloc: Global, count: usize) -> Result<Vec<Sequence<EdgeId>>, AllocError>
    ensures { IfOk result (λ lists. lists.items ≡ replicate count []) }
{
    let mut lists = Vec::new(alloc);
    for _ in 0..count {
        lists.push(Sequence::new(alloc))?;
    }
    Ok(lists)
}

/// For each vertex the edges that leave it.
fn leaving_edges(alloc: Global, machine: &Machine) -> Result<Sequence<Sequence<EdgeId>>, AllocError>
    ensures { IfOk result (λ leaving. AreLeaving machine.now leaving) }
{
    machine.keeps();
    let mut leaving = empty_lists(alloc, machine.vertex_count() as usize)?;
    for number in 0..machine.edge_count() {
        let e = EdgeId::new(number);
        let from = machine.edge(e).from;
        leaving[from.get() as usize].push(e)?;
    }
    Ok(Sequence::from_vec(leaving))
}

/// The place of each vertex in the machine's order.
fn places_in(
    alloc: Global,
    machine: &Machine,
    order: &[VertexId],
) -> Result<Sequence<u32>, AllocError>
    requires { IsOrder machine.now no_lags order.now }
    ensures { IfOk result (λ places. ArePlaces order.now places) }
{
    machine.keeps();
    let mut places = vec![in alloc; 0; order.len()]?;
    for place in 0..order.len() {
        places[order[place].get() as usize] = place as u32;
    }
    Ok(Sequence::from_vec(places))
}

impl Guide {
    /// The guide of a machine.
    pub(crate) fn new(alloc: Global, machine: &Machine) -> Result<Guide, AllocError>
        ensures { IfOk result (λ guide. IsGuide machine.now guide) }
    {
        machine.keeps();
        let order = machine.order();
        let places = places_in(alloc, machine, order)?;
        let leaving = leaving_edges(alloc, machine)?;
        Ok(Guide {
            leaving,
            order: Sequence::from_vec(Vec::from_slice(alloc, order)?),
            places,
        })
    }

    /// The edges that leave a vertex.
    pub(crate) fn leaving(&self, v: VertexId) -> &[EdgeId]
        requires { v < length self.now.leaving }
        ensures { result.now ≡ leaving_of self.now.leaving v }
    {
        self.leaving.as_slice()[v.get() as usize].as_slice()
    }

    /// The place of a vertex in the order.
    pub(crate) fn place(&self, v: VertexId) -> u32
        requires { v < length self.now.places }
        ensures { result ≡ place_of self.now v }
    {
        self.places.as_slice()[v.get() as usize]
    }

    /// The vertex at a place of the order.
    pub(crate) fn vertex(&self, place: u32) -> VertexId
        requires { place < length self.now.order }
        ensures { slice_get self.now.order place ≡ Some result }
    {
        self.order.as_slice()[place as usize]
    }
}
