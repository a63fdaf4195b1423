//! The netlist that is written for a machine with lags and contents: edges of one driver share registers.
#![tactic(auto)]

mod assembly;
mod clocked;
mod emission;
mod error;
mod gates;
mod inputs;
mod laws;
mod memories;
mod naming;
mod numbers;
mod ports;
mod registers;
mod signals;
pub mod types;

pub use emission::emit;
pub use error::EmitError;
pub use laws::{emissions_are_one, emissions_are_read_back};
pub use naming::names;
pub use types::Names;
