//! Tests of the crates that stand below the netlist, over their public calls alone.
#![tactic(auto)]

#[cfg(test)]
mod cells;
#[cfg(test)]
mod constraints;
#[cfg(test)]
mod contexts;
#[cfg(test)]
mod derivations;
#[cfg(test)]
mod documents;
#[cfg(test)]
mod files;
#[cfg(test)]
mod fixtures;
#[cfg(test)]
mod orders;
#[cfg(test)]
mod streams;
#[cfg(test)]
mod words;
