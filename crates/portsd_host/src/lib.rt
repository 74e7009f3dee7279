//! What the program has of its host: the words of its command line, and clients over TCP.
#![tactic(auto)]

mod sockets;
mod words;

pub use sockets::{Loopback, Sockets};
pub use words::words_given;
