//! Rows of bits that a netlist is fed and answers: their texts, many streams mixed into one, and the parts of one.
#![tactic(auto)]

mod error;
mod laws;
mod mixing;
mod parting;
mod printing;
mod reading;
mod stimulus;

pub use error::StimError;
pub use laws::printed_reads_back;
pub use mixing::mix;
pub use parting::part;
pub use printing::print_response;
pub use reading::{read_stimulus, width_of};
pub use stimulus::Stimulus;
