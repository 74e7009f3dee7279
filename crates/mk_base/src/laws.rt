//! What always holds of the limits of a budget. The function does nothing: its clauses are the law.
ghost use Rattle.std.specs.Prelude.{◌≡◌};

use super::{QUESTIONS, UNITS};

/// The limits of a budget: an evaluation, a value and a record may each spend 50,000 units of work, and ask
/// 256 questions about files.
pub fn budget_limits()
    ensures units { UNITS ≡ 50000 }
    ensures questions { QUESTIONS ≡ 256 }
{}
