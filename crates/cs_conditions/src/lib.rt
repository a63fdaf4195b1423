//! Why a module is no netlist: conditions that are asked in order, each over the whole module before the next.
#![tactic(auto)]

mod classes;
mod clocks;
mod constants;
mod drivers;
mod error;
mod memories;
mod numbers;
mod pins;
mod ports;
mod refusal;
mod starts;

pub use error::NetError;
pub use ports::reserved;
pub use refusal::early_refusal;
