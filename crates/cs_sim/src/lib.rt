//! A simulator of netlists as they are read: each gate, register and memory cell, clock by clock.
#![tactic(auto)]

mod building;
mod held;
mod layout;
mod memory;
mod response;
mod room;
mod settle;
mod simulator;
mod slots;
mod wiring;

pub use response::respond;
pub use simulator::Sim;
