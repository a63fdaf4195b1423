//! Registers that edges of one driver share where their contents begin alike (sharing at a fan-out).
#![tactic(auto)]

mod layers;
mod plan;
mod planning;
mod runs;

pub use plan::{DriverId, Plan, Planned};
pub use planning::plan_registers;
