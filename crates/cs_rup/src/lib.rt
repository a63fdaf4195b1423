//! Checks derivations by reverse unit propagation (Goldberg and Novikov 2003; Van Gelder 2008). It shares no
//! code with any solver.
#![tactic(auto)]

mod aside;
mod checker;
mod derivation;
mod error;
mod laws;
mod status;
mod store;
mod trail;
mod values;
mod watch;

pub use checker::Checker;
pub use derivation::check;
pub use laws::no_model;
