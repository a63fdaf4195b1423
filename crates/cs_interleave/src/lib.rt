//! From an accepted netlist to the graph that one machine for several contexts has.
#![tactic(auto)]

mod contexts;
mod error;
mod interleaving;
mod laws;

pub use error::InterleaveError;
pub use interleaving::{Interleaved, interleave};
pub use laws::contexts_are_isolated;
