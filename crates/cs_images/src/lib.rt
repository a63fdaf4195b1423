//! Images: starts of a netlist's memories, one for each context, as a file of JSON gives them.
#![tactic(auto)]

mod bits;
mod entries;
mod error;
mod faults;
mod laws;
mod named;
mod names;
mod read;
mod shape;

pub use error::ImageError;
pub use laws::words_of_an_image;
pub use read::read_images;
