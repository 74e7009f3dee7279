//! The rows of one tenant's index by their paths, in a database in memory of its own.
#![tactic(auto)]

mod path_rows;
mod read_rows;
mod statements;
mod store;
mod transactions;

pub use path_rows::{PathRows, StoredRow};
pub use store::IndexStore;
