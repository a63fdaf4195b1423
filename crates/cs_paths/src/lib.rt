//! The path matrices W and D of a machine (Leiserson and Saxe, "Retiming synchronous circuitry"), with a delay
//! for each pin, computed in pieces by threads.
#![tactic(auto)]

mod bucket;
mod gate;
mod guide;
mod improvement;
mod marking;
mod matrix;
mod reach;
mod row;
mod tracing;
pub mod types;
mod waiting;

pub use gate::{NoGate, RowGate};
pub use matrix::rows;
