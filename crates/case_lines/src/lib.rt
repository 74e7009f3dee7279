//! What cases are made of: their lines, the files of them, what a call gives in the words of a case, and an
//! input and an output that fail after so many calls.
#![tactic(auto)]

mod answer;
mod bench;
mod cases;
mod failing_reader;
mod failing_writer;
mod line;
mod refused;

pub use answer::{Answer, Trouble};
pub use bench::{Bench, Ran};
pub use cases::Cases;
pub use failing_reader::FailingReader;
pub use failing_writer::FailingWriter;
pub use line::{as_number, as_text, one_text};
pub use refused::{no_memory, no_statement};
