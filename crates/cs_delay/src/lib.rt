//! Delay tables: how long each type of cell takes, and what that makes of a machine's vertices and pins.
#![tactic(auto)]

mod assigned;
mod bound;
mod entry;
mod error;
mod missing;
mod pins;
mod read;
mod shape;
mod table;
mod vertices;
mod written;

pub use assigned::assign;
pub use entry::{DelayEntry, PinDelay, PinDelays};
pub use error::DelayError;
pub use read::read_delays;
pub use table::DelayTable;
