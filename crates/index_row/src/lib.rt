//! Rows of the index as bytes: what a path leads to, what it cost to learn that, and the names of the
//! files that were asked about.
#![tactic(auto)]

mod depends;
mod faults;
mod names;
mod outcomes;
mod packages;
mod ports;
mod rows;
mod scalars;
mod text_lists;
mod unread;

pub use rows::{KeptRow, read_row, write_row};
