//! The service over a wire: clients are accepted, read and written, and each tenant has
//! its turn, round by round.
#![tactic(auto)]

mod listen;
mod rounds;
mod wire;

pub use listen::{Listen, ListenFault};
pub use rounds::serve;
pub use wire::{Outcome, Wire};
