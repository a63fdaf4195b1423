//! Difference constraints: greatest solutions under caps, least values, and negative loops.
#![tactic(auto)]

mod bounds;
mod climb;
mod error;
mod laws;
mod least;
mod reading;
mod relax;
mod settle;
mod steps;
mod system;
pub mod types;

pub use bounds::solve;
pub use error::DiffError;
pub use laws::{greatest_exists, greatest_is_high, lattice, least_is_low, no_negative_loop};
pub use least::floors;
pub use system::{Constraint, System};
