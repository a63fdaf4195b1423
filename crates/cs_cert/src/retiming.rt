// What each paper tells of the retiming.
use cs_base::{Mode, Sequence};

// The lags, which may have which sign, the period, and the version of the table of its delays.
#[derive(Drop)]
pub(crate) struct Retiming {
    pub lags: Sequence<i64>,
    pub mode: Mode,
    pub period: u64,
    pub table: u64,
}
