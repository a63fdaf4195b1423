//! Tests of papers, cycles and lower bounds, over their public calls alone.
#![tactic(auto)]

#[cfg(test)]
mod building;
#[cfg(test)]
mod cycles;
#[cfg(test)]
mod papers;
#[cfg(test)]
mod places;
