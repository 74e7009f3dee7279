//! A question over a world whose index is kept, turn by turn. Evaluations come from a cache where its traces agree with
//! the files.
#![tactic(auto)]

mod kept_ports;
mod port_ask;
mod under_way;

pub use under_way::{Turned, UnderWay};
