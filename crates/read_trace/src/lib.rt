//! What an evaluation asked of files: a recorder writes each question down with its answer in a trace, and
//! other files can be asked whether they answer the same. Where they do, the evaluation is the same.
#![tactic(auto)]

mod agreement;
mod evaluation;
mod laws;
mod recorder;
mod trace;

pub use agreement::agrees;
pub use evaluation::Evaluation;
pub use laws::{agrees_where_answered, same_where_agreed};
pub use recorder::Recorder;
pub use trace::{Question, Reply, Trace};
