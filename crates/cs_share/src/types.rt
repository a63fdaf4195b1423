//! The names that a written netlist keeps.
use cs_base::{Sequence, Text};
use cs_modules::Clock;
use cs_net::Port;

/// A module's name, its ports in order of their names, its clock, and for each vertex of its machine the name of the gate
/// cell that it is, which is empty for every other vertex and for those past the end of the list.
#[derive(Drop)]
pub struct Names {
    pub module: Text,
    pub ports: Sequence<Port>,
    pub clock: Option<Clock>,
    pub origins: Sequence<Text>,
}
