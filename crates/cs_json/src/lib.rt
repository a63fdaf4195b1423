//! Documents of netlists: what they hold, and how they are read from JSON and printed as it.
#![tactic(auto)]

mod cells;
mod document;
mod entries;
mod error;
mod keyed;
mod laws;
pub mod members;
mod modules;
pub mod places;
mod ports;
mod print;
mod read;
mod signals;
mod values;

pub use document::{
    CellDecl, Datum, Direction, Document, Entry, Module, NetDecl, PinDecl, Place, PortDecl,
};
pub use error::{DocError, ReadError};
pub use laws::reads_back;
pub use print::print_document;
pub use read::{json_value, read_document};
