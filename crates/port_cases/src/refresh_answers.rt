//! What turns of a refresh told, in the words of a case.

use case_lines::Answer;
use index_keep::Refreshed;
use turn_amounts::Spent;

/// Adds to the answer of a case what each of these turns of a refresh told.
pub(crate) fn tell_turns(answer: &mut Answer, turns: &[Refreshed]) {
    for turn in turns {
        tell(answer, *turn);
    }
}

/// Adds to the answer of a case what a turn of a refresh told: `more` or `row` with what was spent, or
/// `done`.
fn tell(answer: &mut Answer, turn: Refreshed) {
    match turn {
        Refreshed::More(spent) => tell_spent(answer, "more", spent),
        Refreshed::Evaluated(spent) => tell_spent(answer, "row", spent),
        Refreshed::Done => answer.word("done"),
    }
}

/// Adds to the answer of a case a word and what a turn of a refresh spent: units and checks.
fn tell_spent(answer: &mut Answer, what: &'static str, spent: Spent) {
    answer.word(what);
    answer.number(spent.units);
    answer.number(spent.checks);
}
