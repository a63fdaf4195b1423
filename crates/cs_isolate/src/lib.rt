//! From an accepted netlist to the document of a netlist that isolates it in several contexts.
#![tactic(auto)]

mod laws;
mod slowing;
mod unmoved;

pub use laws::emissions_isolate;
pub use slowing::slowed_document;
