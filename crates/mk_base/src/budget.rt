//! The budget of an evaluation, of a value or of a record: units of work, and questions about files.
ghost use Rattle.std.specs.Prelude.{◌≡◌, ◌≤◌};
ghost use Rattle.mk_base.specs.Meter.{full, pay, question, IsLater};
ghost use Rattle.mk_base.specs.Stops.{GivesOnly};

use super::FaultKind;
use std::marker::Model;

/// How many units of work each evaluation, each value and each record may spend.
pub const UNITS: u64 = 50_000;

/// How many questions about files each evaluation may ask.
pub const QUESTIONS: u64 = 256;

/// What an evaluation may spend and has spent: units of work, and questions about files. It allocates
/// no memory.
#[derive(Debug, Drop)]
pub struct Budget {
    limit: u64,
    spent: u64,
    questions: u64,
}

impl Model for Budget {
    ghost use Rattle.std.specs.Prelude.{◌≤◌};
    ghost use Rattle.mk_base.specs.Meter.{Meter};

    ghost Value = { Meter };

    ghost view = { λ b. record { limit = b.limit; spent = b.spent; questions = b.questions } };

    ghost invariant = { λ b. b.spent ≤ b.limit };
}

impl Budget {
    /// The budget of work on a makefile, with this many units and 256 questions about files. No unit is spent
    /// yet, and no question is asked.
    pub fn new(limit: u64) -> Budget
        ensures { result ≡ full limit }
    {
        Budget {
            limit,
            spent: 0,
            questions: 0,
        }
    }

    /// The number of units that were spent so far of a budget, at most its limit.
    pub fn spent(&self) -> u64
        ensures units { result ≡ self.now.spent }
        ensures within { result ≤ self.now.limit }
    {
        self.spent
    }

    /// The number of questions about files that were counted so far in a budget.
    pub fn questions(&self) -> u64
        ensures { result ≡ self.now.questions }
    {
        self.questions
    }

    /// Spends one unit of the budget. If none is left, it fails with the fault `Budget`, and nothing is
    /// spent.
    pub fn pay(&mut self) -> Result<(), FaultKind>
        ensures gives { GivesOnly (λ x. x) result self.new (pay self.old) }
        ensures later { IsLater self.old self.new }
    {
        if self.spent < self.limit {
            self.spent += 1;
            Ok(())
        } else {
            Err(FaultKind::Budget)
        }
    }

    /// Counts one question about a file in the budget. The 257th fails with the fault `Questions`, and isn't
    /// counted.
    pub fn ask(&mut self) -> Result<(), FaultKind>
        ensures gives { GivesOnly (λ x. x) result self.new (question self.old) }
        ensures later { IsLater self.old self.new }
    {
        if self.questions < QUESTIONS {
            self.questions += 1;
            Ok(())
        } else {
            Err(FaultKind::Questions)
        }
    }
}
