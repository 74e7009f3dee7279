//! The plain program of the definitions, which cases compare others with: everything is computed from the files at
//! once, each makefile once for each choice of flavors, and nothing is kept.
#![tactic(auto)]

mod answers;
mod beside;
mod effort;
mod filled_rows;
mod index;
mod path_outcomes;

pub use answers::{answer, effort_for};
pub use effort::Effort;
pub use index::{Index, index_files};
pub use path_outcomes::evaluate_path;
