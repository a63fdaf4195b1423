// Which module of a document is the top.
ghost use Rattle.std.specs.Prelude.{◌≡◌, find, option_map, bytes_eq, IfOk};
ghost use Rattle.cs_modules.specs.Modules.{is_marked, only_one, only_marked, top_of};
ghost use Rattle.cs_modules.specs.PinBits.{marked_places_from, top_at};
ghost use Rattle.std.specs.Prelude.{filter};

use crate::digits::{digits_at, is_nonzero};
use cs_json::{Document, Module};
use std::alloc::{AllocError, Global};

fn is_marked(alloc: Global, module: &Module) -> Result<bool, AllocError>
    ensures { IfOk result (λ marked. marked ≡ is_marked «module».now) }
{
    let digits = digits_at(alloc, "top", module.attributes.as_slice())?;
    Ok(is_nonzero(digits.as_slice()))
}

// The places of the modules that a `top` attribute marks.
fn marked_places(alloc: Global, modules: &[Module]) -> Result<Vec<usize>, AllocError>
    ensures { IfOk result (λ places. places.items ≡ marked_places_from 0 modules.now) }
{
    let mut places = Vec::new(alloc);
    for (place, module) in modules.iter().enumerate() {
        if is_marked(alloc, module)? {
            places.push(place)?;
        }
    }
    Ok(places)
}

fn only_one(modules: &[Module]) -> Option<&Module>
    ensures { option_map (λ m. m.now) result ≡ only_one modules.now }
{
    match modules {
        [module] => Some(module),
        _ => None,
    }
}

// The module at the only one of some places, or the only module where there are none.
#[tactic(auto, using(crate::proofs::TopModule::top_at_none, crate::proofs::TopModule::top_at_one, crate::proofs::TopModule::top_at_more))]
fn module_at<'a>(places: &[usize], modules: &'a [Module]) -> Option<&'a Module>
    ensures { option_map (λ m. m.now) result ≡ top_at places.now modules.now }
{
    if places.is_empty() {
        only_one(modules)
    } else if places.len() == 1 {
        modules.get(places[0])
    } else {
        None
    }
}

// The only marked module, or the only module where none is marked.
fn only_marked(alloc: Global, modules: &[Module]) -> Result<Option<&Module>, AllocError>
    ensures { IfOk result (λ top. option_map (λ m. m.now) top ≡ only_marked (filter is_marked modules.now) modules.now) }
{
    let places = marked_places(alloc, modules)?;
    Ok(module_at(places.as_slice(), modules))
}

fn module_named<'a>(modules: &'a [Module], name: &str) -> Option<&'a Module>
    ensures { option_map (λ m. m.now) result ≡ find (λ m. bytes_eq m.name name.now) modules.now }
{
    modules.iter().find(|module| module.name.as_str() == name)
}

/// The module of that name, or without a name the only marked one; None refuses the document.
pub fn top_module<'a>(
    alloc: Global,
    document: &'a Document,
    top: Option<&str>,
) -> Result<Option<&'a Module>, AllocError>
    ensures { IfOk result (λ found. option_map (λ m. m.now) found ≡ top_of document.now (option_map (λ name. name.now) top.entry)) }
{
    let modules = document.modules.as_slice();
    match top {
        Some(name) => Ok(module_named(modules, name)),
        None => only_marked(alloc, modules),
    }
}
