//! Tests of the whole program, over a store and a sink in memory.
#![tactic(auto)]

#[cfg(test)]
mod contexts;
#[cfg(test)]
mod cores;
#[cfg(test)]
mod documents;
#[cfg(test)]
mod failing_calls;
#[cfg(test)]
mod in_memory;
#[cfg(test)]
mod limits;
#[cfg(test)]
mod refused_documents;
#[cfg(test)]
mod registers;
#[cfg(test)]
mod running;
#[cfg(test)]
mod simulated;
#[cfg(test)]
mod slowed;
#[cfg(test)]
mod streams;
#[cfg(test)]
mod upgraded;
#[cfg(test)]
mod words;
#[cfg(test)]
mod written;
