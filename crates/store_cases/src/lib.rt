//! Cases of stores: the stores of tenants, and the rows of an index, with calls in a row, and changes that
//! are stopped at every step.
#![tactic(auto)]

mod changes;
pub mod rows;
mod stores;

pub use stores::{answer, empty, filled, stops_answer};

/// The most limits of steps that a call of a case of stores is stopped by in turn.
pub const MOST_LIMITS: u64 = 10_000;
