//! The cells of a netlist and what each of them does (Yosys internal cell library; memories in this project's profile).
#![tactic(auto)]

mod class;
mod clauses;
mod eval;
mod gate;
mod memory;
mod register;
mod register_names;

pub use class::{Class, class_of};
pub use gate::Kind;
pub use memory::{MemShape, ReadShape};
pub use register::{FfKind, ResetKind};
