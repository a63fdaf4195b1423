//! Tests of lowering, over its public call alone: the machines of documents, and what is too large for one.
#![tactic(auto)]

#[cfg(test)]
mod documents;
#[cfg(test)]
mod lines;
#[cfg(test)]
mod memories;
#[cfg(test)]
mod registers;
#[cfg(test)]
mod rings;
#[cfg(test)]
mod sizes;
#[cfg(test)]
mod vectors;
