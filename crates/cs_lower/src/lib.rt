//! From an accepted netlist to the graph that is slowed, banked and retimed.
#![tactic(auto)]

mod bits;
mod cells;
mod contents;
mod driven;
mod error;
mod laws;
mod lowering;
mod memories;
mod parts;
mod plan;
mod reaches;
mod registers;
mod rings;
mod sizes;
mod starts;
mod table;
mod taps;
mod trails;
mod wired;
mod wires;

pub use error::LowerError;
pub use laws::keeps_answers;
pub use lowering::{Lowered, lower};
