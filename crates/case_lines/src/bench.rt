//! The bench of cases: what lines of cases set up, what their calls give, and what their runs gave.
use crate::answer::{Answer, Trouble};
use std::alloc::AllocError;

/// The bench that files of cases go to: what lines of cases set up, and what their calls give.
pub trait Bench: Drop {
    /// Drops all that lines of cases set up on the bench.
    fn clear(&mut self) -> Result<(), AllocError>;

    /// Sets up on the bench what a line of a case without `=>` says. The error is `NoCase` if the line is in
    /// no form of a case or can't be set up, and `Memory` if memory runs out.
    fn set_up(&mut self, call: &str, given: &[Vec<u8>]) -> Result<(), Trouble>;

    /// What the call of a case's line gives on the bench. The error is `NoCase` if the line is in no form of
    /// a case, or what it needs can't be made. It is `Memory` if memory runs out.
    fn answer(&mut self, call: &str, given: &[Vec<u8>]) -> Result<Answer, Trouble>;

    /// Runs the program on the bench for a case that is a script, on this input and with these words of its
    /// command line after its own name.
    fn run(&mut self, words: &str, input: &[u8]) -> Result<Ran, Trouble>;
}

/// What a run of the program gave in a case: its status, what it printed, and what it said on standard error.
#[derive(Drop)]
pub struct Ran {
    pub status: u8,
    pub printed: Vec<u8>,
    pub said: Vec<u8>,
}

impl Ran {
    /// Whether a case's run of the program ended with this status, printed just these bytes and said just
    /// those.
    pub fn is(&self, status: u8, printed: &[u8], said: &[u8]) -> bool {
        self.status == status && self.printed.as_slice() == printed && self.said.as_slice() == said
    }
}
