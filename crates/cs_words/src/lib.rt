//! What the words of a command line say.
#![tactic(auto)]

mod command;
mod forms;
mod number;
mod read;
mod said;
mod verb;

pub use command::{
    Command, MixWords, PartWords, SimContextWords, SimWords, SlowWords, UpgradeWords,
};
pub use read::{WordError, read_words};
