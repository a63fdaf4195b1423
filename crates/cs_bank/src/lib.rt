//! One memory for all contexts: its words bank by bank, the number of the context above its address, and guards that
//! drop writes from its size on.
#![tactic(auto)]

mod banking;
mod context_bits;
mod copies;
mod error;
mod faults;
mod guards;
mod laws;
mod measures;
mod memories;
mod sources;
mod vertices;
mod writes;

pub use banking::bank;
pub use error::BankError;
pub use laws::contexts_in_banks;
