//! Machines for several contexts: every register becomes as many in series (C-slowing, after Leiserson and Saxe).
#![tactic(auto)]

mod error;
mod slowing;

pub use error::SlowError;
pub use slowing::slow;
