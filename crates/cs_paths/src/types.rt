//! What the calls of this crate answer.
pub use crate::tracing::Rows;
