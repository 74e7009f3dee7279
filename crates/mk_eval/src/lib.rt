//! What the lines of makefiles do, one at a time, what evaluations begin with and leave, and the values of
//! variables. The definitions say what a whole makefile means.
#![tactic(auto)]

mod file_forms;
mod file_requests;
mod heads;
mod includes;
mod iterations;
mod laws;
mod lines;
mod modules;
mod outcome;
mod parses;
mod start_variables;
mod state;
mod values;

pub use file_requests::Request;
pub use heads::holds;
pub use includes::{ExecutedFile, ExecutedLine, Included};
pub use iterations::{begin_iteration, iterations_at, loops_at};
pub use laws::{evaluations_cost_few, same_where_answered};
pub use lines::{open_line, perform};
pub use modules::{may_ask_modules, module_words, open_module};
pub use outcome::{Evaluated, Failed, Kind, Valued, with_units};
pub use parses::{Anew, Parses};
pub use start_variables::start;
pub use state::EvalState;
pub use values::value;
