//! Tests of banking, over its public calls alone.
#![tactic(auto)]

#[cfg(test)]
mod banking;
#[cfg(test)]
mod building;
#[cfg(test)]
mod checks;
