//! Refusals as values: only what was refused can give up.
//!
//! A result that says that there was no memory, or that the store failed, holds a value that nothing makes but
//! the refusal itself. So such a result always ends a chain that began with one.
#![tactic(auto)]

mod libraries;
mod memory;
mod store;

pub use libraries::{Database, Library};
pub use memory::OutOfMemory;
pub use store::{Refusal, StoreRefusal};
