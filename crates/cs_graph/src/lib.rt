//! The graph of Leiserson and Saxe with starts and memories: machines, their builder, order, lags and periods.
#![tactic(auto)]

mod assembling;
mod builder;
mod contents;
mod delays;
mod edge;
mod error;
mod finish;
mod graph;
mod lags;
mod laws;
mod machine;
mod memory;
mod numbering;
mod order;
mod period;
mod source;
mod vertex;

pub use assembling::assemble;
pub use builder::{MOST_EDGES, MOST_VERTICES, MOST_WEIGHT, MachineBuilder};
pub use contents::Contents;
pub use delays::Delays;
pub use edge::Edge;
pub use error::BuildError;
pub use graph::Graph;
pub use lags::are_within;
pub use laws::{
    contexts_alone, least_paths, one_period, one_run, pasts_by_context, periods_by_paths,
    registers_of_paths, retimed_graphs, right_contents, starts, values_ahead,
};
pub use machine::Machine;
pub use memory::Memory;
pub use source::{Driver, OpenPins, OpenVertex, Source};
pub use vertex::{Feed, Pins, Vertex, VertexKind};
