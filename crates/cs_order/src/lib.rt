//! Directed graphs: an order in which each vertex stands after all that it depends on, or a loop.
#![tactic(auto)]

mod dependencies;
mod laws;
mod search;
mod state;
mod topological;

pub use dependencies::Dependencies;
pub use laws::{loop_from_any, no_loop_in_order, places_in_order};
pub use topological::{Arrangement, arrange};
