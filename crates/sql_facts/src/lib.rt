//! What the stores have in common: how a statement runs in a transaction, what refuses one, and facts about what
//! statements make of the rows of a table, for every table and every test.
#![tactic(auto)]

mod sqlite_errors;
mod statement_run;

pub use sqlite_errors::Sqlite;
pub use statement_run::{run, run_alone};
