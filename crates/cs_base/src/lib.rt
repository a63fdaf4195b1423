//! What every other crate speaks of: ids, signals, contexts, limits, texts, lists and clauses.
#![tactic(auto)]

mod contexts;
mod formula;
mod id;
mod limit;
mod sequence;
mod signal;
mod text;

pub use contexts::{Contexts, Mode};
pub use formula::{Clause, Derivation, Formula, Lit};
pub use id::{BitId, EdgeId, MemId, VertexId};
pub use limit::{Counted, LimitFault};
pub use sequence::Sequence;
pub use signal::Signal;
pub use text::Text;
