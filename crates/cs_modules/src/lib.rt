//! What a module of a document says: which is the top, its cells' pins and what they are for, its clock, its memories, and
//! the initial values of its bits.
#![tactic(auto)]

mod classes;
mod clocks;
mod connection;
mod digits;
mod drivers;
mod memories;
mod pins;
mod places;
mod signals;
mod starts;
mod top;
mod words;

pub use classes::{class_at, is_memory, is_register, is_scope};
pub use clocks::{Clock, ClockBit, clock_bits, clock_by_pins, clock_of};
pub use connection::{PinBit, Role, bits_of_cells};
pub use digits::{datum_at, digits_at, digits_of, init_digit, is_nonzero, is_one, value_of};
pub use drivers::{driven_numbers, input_numbers};
pub use memories::{first_words, shape};
pub use pins::{has_right_pins, number_at, parameter, pin_bits};
pub use places::{Places, note};
pub use signals::{holds_bit, is_bit, is_input, is_output, number_in, number_set, numbers_in};
pub use starts::first_values;
pub use top::top_module;
pub use words::Words;
