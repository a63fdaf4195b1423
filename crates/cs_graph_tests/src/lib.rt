//! Tests of the machine graph, over its public calls alone.
#![tactic(auto)]

#[cfg(test)]
mod building;
#[cfg(test)]
mod clocks;
#[cfg(test)]
mod contents;
#[cfg(test)]
mod cycles;
#[cfg(test)]
mod limits;
#[cfg(test)]
mod machines;
#[cfg(test)]
mod slowing;
