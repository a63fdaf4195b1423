//! Tests of the path matrices, over public calls alone.
#![tactic(auto)]

#[cfg(test)]
mod building;
#[cfg(test)]
mod drawing;
#[cfg(test)]
mod pieces;
#[cfg(test)]
mod plain;
#[cfg(test)]
mod worked;
