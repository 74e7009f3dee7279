//! Specs of packages, which say what packages will do (packages-specs(7)).
#![tactic(auto)]

mod alternatives;
mod comparisons;
mod faults;
mod spec;

pub use faults::SpecFault;
pub use spec::Spec;
