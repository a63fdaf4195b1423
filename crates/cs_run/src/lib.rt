//! The whole program as one call over a store and a sink: a command reads its files, and makes of them a reply that is
//! then carried out, or is refused.
#![tactic(auto)]

mod commands;
mod context;
mod finish;
mod in_memory;
mod inputs;
mod mixing;
mod netlists;
mod own_texts;
mod parting;
mod program;
mod reply;
mod rows;
mod simulation;
mod slow;
mod starts;
mod status;
mod stop;
mod upgrading;

pub use commands::{answer_command, run_command};
pub use context::answer_sim_context;
pub use finish::{carry_out, put_stop};
pub use in_memory::run_in_memory;
pub use inputs::{FileName, Input, Role, bytes_of, file, found_bytes, read_input, read_inputs};
pub use mixing::answer_mix;
pub use netlists::{read_doc, read_net, read_netlist};
pub use parting::answer_part;
pub use program::run;
pub use reply::{NewFile, Refusal, Reply, putting, refuse, writing};
pub use rows::read_rows;
pub use simulation::answer_sim;
pub use slow::answer_slow;
pub use status::{Status, status_of};
pub use stop::{Stop, machine_fault, rows_fault, stop_at};
pub use upgrading::answer_upgrade;
