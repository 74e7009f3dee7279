//! The texts of the program: the scripts of events that it reads, and what it writes. That is the effects
//! of a run's events, and why a run ended early.
#![tactic(auto)]

mod failure;
mod input;
mod numerals;
mod output;
mod script;
mod script_lines;
mod transcript;

pub use failure::{DONE, Failure, REFUSED, report};
pub use output::write_whole;
pub use script::{Script, ScriptFault, read_script};
pub use transcript::transcript_text;
