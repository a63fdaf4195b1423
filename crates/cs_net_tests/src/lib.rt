//! Tests of netlists: what is accepted, what is answered, and what is written and told of them.
#![tactic(auto)]

#[cfg(test)]
mod accepted;
#[cfg(test)]
mod answers;
#[cfg(test)]
mod documents;
#[cfg(test)]
mod lines;
#[cfg(test)]
mod memories;
