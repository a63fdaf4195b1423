//! Netlists: which documents are one, what a netlist answers, and when one isolates another.
#![tactic(auto)]

mod acceptance;
mod build;
mod copies;
mod elements;
mod images;
mod initial_values;
mod laws;
mod limits;
mod loops;
mod memories;
mod netlist;
mod state;

pub use acceptance::accept;
pub use elements::Element;
pub use images::Images;
pub use laws::{
    driven_once, isolates_itself, memories_are_wide, memories_in_order, one_clock, one_refusal,
    one_trace, pins_are_wide, rows_of_a_part, starts_in_order, words_by_name,
};
pub use limits::above_limit;
pub use netlist::{Cell, Netlist, PinBits, Port};
pub use state::{BitValue, MemoryWords, Snapshot};
