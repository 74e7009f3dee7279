//! An evaluation with its trace, in which its questions were written down.
ghost use Rattle.std.specs.Prelude.{◌≡◌};
ghost use Rattle.mk_eval.specs.Agreement.{cost_of};

use crate::trace::Trace;
use mk_eval::{Evaluated, Failed};

/// The end of an evaluation, and what it asked.
#[derive(Drop)]
pub struct Evaluation {
    /// What the makefile means, or its first fault, with the units spent.
    pub outcome: Result<Evaluated, Failed>,
    /// Each file that was looked at or asked about, in order, with the answer.
    pub trace: Trace,
}

impl Evaluation {
    /// The units that an evaluation with a trace cost, up to the fault if it has one.
    pub fn cost(&self) -> u64
        ensures { result ≡ cost_of self.now.outcome }
    {
        match &self.outcome {
            Ok(evaluated) => evaluated.cost,
            Err(failed) => failed.cost,
        }
    }
}
