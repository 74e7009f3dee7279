//! Cases of makefiles: faults and budgets, variables and expansion, conditions, loops, files, evaluation.
#![tactic(auto)]

mod evaluation;
mod failing_files;
mod faults;
mod files;
mod loops;
mod setup;
mod truth;
mod variables;
mod world;

pub use evaluation::{add_cost, evaluated, failure, makefile};
pub use failing_files::{Asking, FailingFiles, failing_answer};
pub use files::{given_name, given_path, trees_answer, two_answer};
pub use setup::Setup;
pub use world::World;
