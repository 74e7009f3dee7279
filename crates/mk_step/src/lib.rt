//! Evaluations of makefiles that may stop between any two lines and go on later, with the same end.
#![tactic(auto)]

mod blank_lines;
mod frames;
mod laws;
mod machine;
mod machine_steps;
mod searches;
mod sites;
mod whole_evaluation;

pub use laws::{asked_as_spent, asked_comes_first};
pub use machine::{Machine, Turned};
pub use whole_evaluation::{evaluate, evaluate_with};
