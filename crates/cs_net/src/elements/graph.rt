// The graph of a netlist's elements, and its order or a loop of it.
ghost use Rattle.std.specs.Prelude.{◌≡◌, ℕ, Some, None, IfOk, OnOk, filter_map, if◌then◌else◌, length, nat_eq};
ghost use Rattle.std.specs.HashMap.{get};
ghost use Rattle.std.specs.Option.{option_and_then, option_or};
ghost use Rattle.cs_order.specs.Arrangements.{IfLoop, IfOrder};
ghost use Rattle.cs_order.specs.Graphs.{IsLoop, IsOrder};
ghost use Rattle.cs_modules.specs.Signals.{number_in, holds_bit};
ghost use Rattle.cs_net.specs.Elements.{elements_of, graph_of, owner};
ghost use Rattle.cs_net.specs.Invariant.{HasBitOrder};
ghost use Rattle.cs_net.specs.Netlist.{Net};

use crate::elements::Element;
use cs_base::Signal;
use cs_modules::{note, number_in};
use cs_order::{Arrangement, Dependencies, arrange};
use std::alloc::{AllocError, Global};
use std::collections::HashMap;

// Notes an element for each of its outputs, unless an earlier one drives that.
fn note_outputs(
    owners: &mut HashMap<u32, usize>,
    outputs: &[Signal],
    element: usize,
) -> Result<(), AllocError>
    ensures { OnOk result ((b : ℕ) → get nat_eq owners.new b
        ≡ option_or (get nat_eq owners.old b) (if holds_bit b outputs.now then Some element else None)) }
{
    for signal in outputs {
        note(owners, *signal, element)?;
    }
    Ok(())
}

// The number of the first element that drives each bit.
fn owners(alloc: Global, elements: &[Element]) -> Result<HashMap<u32, usize>, AllocError>
    ensures { IfOk result (λ owners. (b : ℕ) → get nat_eq owners b ≡ owner elements.now b) }
{
    let mut owners = HashMap::new(alloc);
    for (number, element) in elements.iter().enumerate() {
        note_outputs(&mut owners, element.outputs.as_slice(), number)?;
    }
    Ok(owners)
}

fn owner(owners: &HashMap<u32, usize>, signal: Signal) -> Option<usize>
    ensures { result ≡ option_and_then (get nat_eq owners.now) (number_in signal) }
{
    match number_in(signal) {
        Some(bit) => owners.get(&bit).copied(),
        None => None,
    }
}

// The numbers of the elements that drive some signals.
fn sources(
    alloc: Global,
    owners: &HashMap<u32, usize>,
    inputs: &[Signal],
) -> Result<Vec<usize>, AllocError>
    ensures { IfOk result (λ sources. sources.items
        ≡ filter_map (λ s. option_and_then (get nat_eq owners.now) (number_in s)) inputs.now) }
{
    inputs
        .iter()
        .filter_map(|signal| owner(owners, *signal))
        .collect(alloc)
}

// Each element depends on the owners of its inputs.
fn graph_over(
    alloc: Global,
    elements: &[Element],
    owners: &HashMap<u32, usize>,
) -> Result<Dependencies, AllocError>
    requires { (b : ℕ) → get nat_eq owners.now b ≡ owner elements.now b }
    ensures { IfOk result (λ graph. graph ≡ graph_of elements.now) }
{
    let mut graph = Dependencies::new(alloc);
    for element in elements {
        graph.add_vertex(sources(alloc, owners, element.inputs.as_slice())?.as_slice())?;
    }
    Ok(graph)
}

// Each element depends on those that drive its inputs.
fn graph(alloc: Global, elements: &[Element]) -> Result<Dependencies, AllocError>
    ensures { IfOk result (λ graph. graph ≡ graph_of elements.now) }
{
    let owners = owners(alloc, elements)?;
    graph_over(alloc, elements, &owners)
}

/// An order of the elements in which each stands after those that drive its inputs, which orders the bits
/// too, or a loop of them. It errs only where memory runs out.
pub(crate) fn arrange_elements(
    alloc: Global,
    elements: &[Element],
) -> Result<Arrangement, AllocError>
    ensures order { IfOk result (λ a. IfOrder a (IsOrder (graph_of elements.now))) }
    ensures bits { IfOk result (λ a.
        IfOrder a (λ _. (net : Net) → elements.now ≡ elements_of net → HasBitOrder net)) }
    ensures loop_found { IfOk result (λ a. IfLoop a (IsLoop (graph_of elements.now))) }
{
    arrange(alloc, &graph(alloc, elements)?)
}
