//! How much one turn of a request does at most, of what that is made, and what a turn spends. Each of these
//! numbers is written here alone.
#![tactic(auto)]

ghost use Rattle.std.specs.Prelude.{◌≡◌};

mod spent;

use mk_base::{QUESTIONS, UNITS};
pub use spent::{Spent, left_of, spent_since};

/// The most evaluations that are kept under one key.
pub const MOST_EVALUATIONS: usize = 4;

/// The most answers that the trace of an evaluation has: that about the makefile itself, and those to its questions.
pub const MOST_ANSWERS: usize = 1 + QUESTIONS as usize;

/// The most answers that one look at what is kept under a key checks.
pub const MOST_CHECKS: u64 = MOST_EVALUATIONS as u64 * MOST_ANSWERS as u64;

/// A turn acts while it has spent fewer units than these, checked answers among them.
pub const TURN_UNITS: u64 = 1_000;

/// The most units and checked answers that a turn spends: fewer than its units, and then those of the last thing that it
/// does.
pub const MOST_SPENT: u64 = TURN_UNITS + UNITS;

/// One look at kept evaluations checks at most 1,028 answers, and one turn spends at most 51,000 units and
/// checked answers.
pub fn turn_amounts()
    ensures checks { MOST_CHECKS ≡ 1028 }
    ensures spent { MOST_SPENT ≡ 51000 }
{}
