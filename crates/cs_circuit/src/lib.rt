//! Circuits of numbered gates, registers and memories, and the documents that are written for them.
#![tactic(auto)]

mod cells;
mod circuit;
mod digits;
mod document;
mod laws;
mod memories;
mod parameters;

pub use circuit::{Circuit, GatePart, MemoryPart, ReadPart, RegisterPart, WritePart};
pub use document::circuit_document;
pub use laws::{circuits_are_read_back, documents_are_one};
