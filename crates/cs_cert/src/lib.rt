//! What shows that a retiming is of the least period: steps and cycles, lower bounds of lags, and the papers that
//! hold them.
#![tactic(auto)]

mod cycle;
mod error;
mod floors;
mod kind;
mod lists;
mod numbers;
mod paper;
mod path;
mod print;
mod printing;
mod reach;
mod read;
mod retiming;
mod step;
mod walk;
mod words;

pub use cycle::check_cycle;
pub use error::CertError;
pub use floors::check_floors;
pub use paper::{Below, Certificate, FallbackPaper, Paper, Refusal};
pub use print::print_certificate;
pub use read::read_certificate;
pub use step::{Cycle, Step};
