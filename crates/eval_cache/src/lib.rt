//! Parses and evaluations that are kept to be used again. A parse is kept by the content of its file. An
//! evaluation is kept by its key with its trace, and is used in every world that agrees with the trace.
#![tactic(auto)]

mod cache;
mod contents;
mod counts;
mod key;
mod look;
mod purpose;

pub use cache::EvalCache;
pub use counts::Counts;
pub use key::EvalKey;
pub use look::Look;
pub use purpose::Purpose;
