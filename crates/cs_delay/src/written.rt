// Delay tables as they are written.
use crate::entry::DelayEntry;
use cs_base::Sequence;

// A delay table before its bound is asked for: a number past every u32 stands as the greatest of them.
#[derive(Drop)]
pub(crate) struct Written {
    pub version: u32,
    pub entries: Sequence<DelayEntry>,
    pub fallback: Option<u32>,
}
