// Turns a document into the netlist of its top module, or tells the first reason why there is none.
ghost use Rattle.std.specs.Prelude.{◌≡◌, ◌⊎◌, IfErr, IfOk, None, option_map};
ghost use Rattle.cs_json.specs.Readable.{IsModule, IsReadable};
ghost use Rattle.cs_order.specs.Graphs.{IsOrder};
ghost use Rattle.cs_net.specs.Accept.{IsAccepted, Refuses, RefusesLate, RefusesModule};
ghost use Rattle.cs_net.specs.Build.{IsDraftOf, net_of};
ghost use Rattle.cs_conditions.specs.Conditions.{bad_pins, early_refusal};
ghost use Rattle.cs_net.specs.Elements.{elements_of, graph_of};
ghost use Rattle.cs_net.specs.Invariant.{HasBitOrder, IsSound};
ghost use Rattle.cs_conditions.specs.declared.error.NetError.{NetError};
ghost use Rattle.cs_conditions.specs.declared.error.NetError.TheVariants.{NoMemory};

use crate::build::{cells, output_count, ports};
use crate::elements::{arrange_elements, elements, input_count};
use crate::initial_values::{initial_values, value_map};
use crate::limits::limit_fault;
use crate::loops::loop_names;
use crate::memories::{memories, memory_places, shapes};
use crate::netlist::{Cell, Netlist, Port};
use cs_base::Sequence;
use cs_cells::MemShape;
use cs_conditions::{NetError, early_refusal, reserved};
use cs_json::{Document, Module};
use cs_modules::{Clock, clock_of, top_module};
use cs_order::Arrangement;
use std::alloc::{AllocError, Global};

/// What is made of a module before it is known to have no loop.
#[derive(Drop)]
pub(crate) struct Draft {
    pub(crate) ports: Sequence<Port>,
    pub(crate) cells: Sequence<Cell>,
    pub(crate) shapes: Sequence<Option<MemShape>>,
    pub(crate) clock: Option<Clock>,
}

fn make_draft(alloc: Global, top: &Module) -> Result<Draft, AllocError>
    requires { bad_pins top.now ≡ None }
    ensures { IfOk result (IsDraftOf top.now) }
{
    Ok(Draft {
        ports: ports(alloc, top.ports.as_slice())?,
        cells: cells(alloc, top.cells.as_slice())?,
        shapes: shapes(alloc, top)?,
        clock: clock_of(alloc, top)?,
    })
}

// An order of the netlist's elements, where gates and unclocked reads form no loop.
fn arrange_cells(alloc: Global, top: &Module, draft: &Draft) -> Result<Sequence<usize>, NetError>
    requires readable { IsModule top.now }
    requires draft { IsDraftOf top.now draft.now }
    ensures elements { IfOk result (IsOrder (graph_of (elements_of (net_of top.now)))) }
    ensures bits { IfOk result (λ _. HasBitOrder (net_of top.now)) }
    ensures refuses { IfErr result (λ e. (e ≡ NoMemory) ⊎ RefusesLate top.now e) }
{
    let _ = top;
    let cells = draft.cells.as_slice();
    let shapes = draft.shapes.as_slice();
    let elements = elements(alloc, draft.ports.as_slice(), draft.clock, cells, shapes)?;
    match arrange_elements(alloc, elements.as_slice())? {
        Arrangement::Order(order) => Ok(Sequence::from_vec(order)),
        Arrangement::Loop(vertices) => {
            let cells = loop_names(alloc, elements.as_slice(), cells, vertices.as_slice())?;
            Err(NetError::GateLoop { cells })
        }
    }
}

// An order of the netlist's elements, where none of the conditions 15 to 17 holds.
fn check_late(alloc: Global, top: &Module, draft: &Draft) -> Result<Sequence<usize>, NetError>
    requires readable { IsModule top.now }
    requires draft { IsDraftOf top.now draft.now }
    ensures sound { IfOk result (λ _. IsSound top.now) }
    ensures order { IfOk result (IsOrder (graph_of (elements_of (net_of top.now)))) }
    ensures refuses { IfErr result (λ e. (e ≡ NoMemory) ⊎ RefusesLate top.now e) }
{
    let order = arrange_cells(alloc, top, draft)?;
    if let Some(error) = reserved(alloc, draft.clock, top)? {
        return Err(error);
    }
    match limit_fault(draft.cells.len(), draft.shapes.as_slice()) {
        Some(fault) => Err(NetError::Limit(fault)),
        None => Ok(order),
    }
}

// The netlist of a module that no condition refuses.
fn netlist_of(
    alloc: Global,
    top: &Module,
    draft: Draft,
    order: Sequence<usize>,
) -> Result<Netlist, AllocError>
    requires readable { IsModule top.now }
    requires early { early_refusal top.now ≡ None }
    requires sound { IsSound top.now }
    requires draft { IsDraftOf top.now draft }
    requires order { IsOrder (graph_of (elements_of (net_of top.now))) order }
    ensures { IfOk result (λ net. net ≡ net_of top.now) }
{
    let memories = memories(alloc, top)?;
    let memory_places = memory_places(alloc, draft.shapes.as_slice())?;
    let input_count = input_count(alloc, draft.ports.as_slice(), draft.clock)?;
    let output_count = output_count(alloc, draft.ports.as_slice())?;
    let starts = initial_values(alloc, top)?;
    let start_values = value_map(alloc, starts.as_slice())?;
    Ok(Netlist {
        name: top.name.copy(alloc)?,
        ports: draft.ports,
        cells: draft.cells,
        shapes: draft.shapes,
        clock: draft.clock,
        starts,
        memories,
        order,
        start_values,
        memory_places,
        input_count,
        output_count,
    })
}

// The netlist of a module that none of the conditions 2 to 14 refuses.
fn accept_drafted(alloc: Global, top: &Module) -> Result<Netlist, NetError>
    requires readable { IsModule top.now }
    requires early { early_refusal top.now ≡ None }
    ensures accepts { IfOk result (λ net. IsSound top.now × (net ≡ net_of top.now)) }
    ensures refuses { IfErr result (λ e. (e ≡ NoMemory) ⊎ RefusesLate top.now e) }
{
    let draft = make_draft(alloc, top)?;
    let order = check_late(alloc, top, &draft)?;
    Ok(netlist_of(alloc, top, draft, order)?)
}

fn accept_module(alloc: Global, top: &Module) -> Result<Netlist, NetError>
    requires { IsModule top.now }
    ensures accepts { IfOk result (λ net. (early_refusal top.now ≡ None) × IsSound top.now × (net ≡ net_of top.now)) }
    ensures refuses { IfErr result (λ e. (e ≡ NoMemory) ⊎ RefusesModule top.now e) }
{
    match early_refusal(alloc, top)? {
        Some(error) => Err(error),
        None => accept_drafted(alloc, top),
    }
}

/// The netlist of a document's top module: the module of the name `top`, or, where none is given, the one that is marked
/// by a `top` attribute other than 0, or the only module where none is marked (Yosys JSON, in this project's profile).
///
/// It errs by the first of these that holds, each asked of the whole module before the next: there is no top module;
/// a cell is of an unknown type, coarse, or asynchronous; a cell's pins are not those of its type; a port is inout; `z` is
/// read; a bit is driven twice; a clock is no input bit, there are two clocks or two edges, or the clock is read as data; a
/// register has two starts; a memory is of another form; gates and unclocked reads form a loop; a port's name is
/// reserved; a count is above its limit. Besides, it errs where memory runs out.
pub fn accept(alloc: Global, doc: &Document, top: Option<&str>) -> Result<Netlist, NetError>
    requires { IsReadable doc.now }
    ensures accepts { IfOk result (IsAccepted doc.now (option_map (λ name. name.now) top.entry)) }
    ensures refuses { IfErr result (λ e. (e ≡ NoMemory) ⊎ Refuses doc.now (option_map (λ name. name.now) top.entry) e) }
    ensures refused_comes { IfOk result (λ _. (e : NetError) → ¬ (Refuses doc.now (option_map (λ name. name.now) top.entry) e)) }
{
    match top_module(alloc, doc, top)? {
        Some(module) => accept_module(alloc, module),
        None => Err(NetError::NoTop),
    }
}
