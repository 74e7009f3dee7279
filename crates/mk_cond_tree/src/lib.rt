//! A condition read into its tree: its tokens, and the tree whose tokens, in order, these are.
#![tactic(auto)]

mod condition;
mod laws;
mod nodes;
mod reader;
mod scanner;
mod tokens;

pub use condition::{ConditionError, LEVELS, read_condition};
pub use laws::{conditions_are_read, tokens_have_one_tree, trees_are_read};
pub use nodes::{Condition, Conjunction, Term};
pub use tokens::{Call, Comparison, Side};
