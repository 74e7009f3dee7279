//! Which texts reach which over arrows from text to text.
#![tactic(auto)]

mod arrow;
mod laws;
mod numbers;
mod reach;
mod steps;
mod text_search;

pub use arrow::Arrow;
pub use laws::{reached_are_listed, reaching_are_listed};
pub use reach::{reached, reaching};
