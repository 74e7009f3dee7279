//! The program. Its command line asks for a run of a script of events, whose effects are printed, or
//! for a service for clients.
#![tactic(auto)]

mod command_line;
mod program;
mod script_run;
mod service_run;

pub use command_line::Serving;
pub use program::{run_command, run_program};
pub use script_run::run_config;
pub use service_run::run_serving;
