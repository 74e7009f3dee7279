//! The truth of a condition under its directive, among variables and files (make(1), "CONDITIONALS").
#![tactic(auto)]

mod calls;
mod comparisons;
mod directives;
mod forms;
mod lone_sides;
mod numbers;
mod setting;
mod trees;

pub use directives::{directive_truth, truth};
pub use forms::Form;
pub use setting::Setting;
