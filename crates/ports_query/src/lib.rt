//! Questions about the ports of a tree and their dependencies, which are lent: which packages meet conditions or a
//! spec, and which ports depend on which.
#![tactic(auto)]

mod candidate;
mod conditions;
mod faults;
mod kinds;
mod listed_packages;
mod operators;
mod port_edges;
mod port_path;
mod query;
mod reach;

pub use faults::QueryFault;
pub use kinds::Kinds;
pub use listed_packages::{Listed, admits_one, admitted, answer};
pub use port_edges::{edges_to, first_edges};
pub use query::Query;
pub use reach::{reached, reaching};
