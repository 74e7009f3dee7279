//! What holds of every evaluation that is asked for, as a function that does nothing.
ghost use Rattle.eval_ask.specs.Ask.{AskingSpends};

/// What is spent on an evaluation that is asked for and on what is made of it is all that both cost. Or the
/// evaluation was kept, and at least one answer was checked; then it is that less the evaluation.
pub fn asking_spends()
    ensures { AskingSpends }
{}
