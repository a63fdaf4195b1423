// What is decided of a formula.
use cs_base::{Derivation, Sequence};

/// What is decided of a formula.
#[derive(Debug, Drop)]
pub enum Verdict {
    /// The values of the variables, variable 1 first, that make each clause true.
    Model(Sequence<bool>),
    /// Lines that lead to the empty clause, so that no values do.
    Refuted(Derivation),
}

fn crosses_threads<T: Send + Sync>(_: &T) {}

// Verdicts go from thread to thread.
fn verdicts_cross_threads(verdict: &Verdict) {
    crosses_threads(verdict);
}
