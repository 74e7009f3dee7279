//! What every crate of the make language shares: the kinds of fault, a fault with its place, the budget of an
//! evaluation, and the types by which work on a makefile stops.
#![tactic(auto)]

mod budget;
mod faults;
mod laws;
mod stops;

pub use budget::{Budget, QUESTIONS, UNITS};
pub use faults::{Fault, FaultKind};
pub use laws::budget_limits;
pub use stops::{PureStop, Stop};
