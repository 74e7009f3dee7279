//! Loops of a makefile: the header of `.for`, and lines with the words of an iteration put in (make(1),
//! "FOR LOOPS").
#![tactic(auto)]

mod body_line;
mod header;
mod iterations;
mod joined_text;
mod pass;
mod reference_names;
mod scopes;

pub use body_line::put_words;
pub use header::read_header;
pub use iterations::{Iteration, Iterations};
pub use scopes::inside;
