//! Decides formulas by conflict-driven clause learning (Marques-Silva and Sakallah 1999; Moskewicz et al. 2001), and
//! writes what it learns as a derivation.
#![tactic(auto)]

mod analyse;
mod look;
mod marks;
mod order;
mod propagate;
mod restarts;
mod search;
mod shorten;
mod store;
mod trail;
mod verdict;

pub use search::decide;
pub use verdict::Verdict;
