//! Tests of delay tables, over their public calls alone.
#![tactic(auto)]

#[cfg(test)]
mod assigning;
#[cfg(test)]
mod lines;
#[cfg(test)]
mod reading;
