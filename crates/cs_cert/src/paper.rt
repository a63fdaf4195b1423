// What shows that a retiming is of the least period, or why there is none of it.
use crate::step::Step;
use cs_base::{Derivation, Mode, Sequence};

/// A retiming of the least period: the lag of each vertex, the contents of each edge, nearest the driver first, and
/// a cycle that shows that no smaller period exists, without a step where the period is 0. `table` is the version of
/// the delay table.
#[derive(Drop)]
pub struct Certificate {
    pub contexts: u64,
    pub mode: Mode,
    pub table: u64,
    pub period: u64,
    pub lags: Sequence<i64>,
    pub contents: Sequence<Sequence<bool>>,
    pub cycle: Sequence<Step>,
}

/// No legal lags of the least period have a start: the least of them, chains that show that others need no less, and
/// a derivation that the formula of one context has no model.
#[derive(Drop)]
pub struct Refusal {
    pub contexts: u64,
    pub mode: Mode,
    pub table: u64,
    pub period: u64,
    pub lags: Sequence<i64>,
    pub cycle: Sequence<Step>,
    pub chains: Sequence<Step>,
    pub context: u64,
    pub derivation: Derivation,
}

/// A retiming of the least period that has a start, and why none below it has one.
#[derive(Drop)]
pub struct FallbackPaper {
    pub contexts: u64,
    pub mode: Mode,
    pub table: u64,
    pub period: u64,
    pub lags: Sequence<i64>,
    pub contents: Sequence<Sequence<bool>>,
    pub below: Below,
}

/// That no legal lags of a smaller period have a start: the least of them, chains that show that others need no less,
/// and a derivation that the formula of one context has no model.
#[derive(Drop)]
pub struct Below {
    pub lags: Sequence<i64>,
    pub chains: Sequence<Step>,
    pub context: u64,
    pub derivation: Derivation,
}

/// What is written about a retiming, and checked later.
#[derive(Drop)]
pub enum Paper {
    Certificate(Certificate),
    Refusal(Refusal),
    Fallback(FallbackPaper),
}
