//! The texts of a run that is refused, and what the program says of itself.
#![tactic(auto)]

mod fault;
mod own_texts;
mod refused;
mod words;

pub use fault::{Fault, fault_text};
pub use own_texts::{help_text, version_text};
