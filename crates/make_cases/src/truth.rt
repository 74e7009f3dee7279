//! Cases of truth: whether conditions hold.
use crate::files::given_name;
use case_lines::{Answer, Trouble, as_number, as_text};
use mk_base::{Budget, UNITS};
use mk_cond::truth;
use mk_env::Env;
use mk_files::MemoryFiles;
use std::alloc::Global;

/// The makefile in which the conditions of cases of truth are.
const MAKEFILE: &str = "/ports/a/b/Makefile";

/// The call `truth TEXT` of a case of truth: whether the condition holds under its directive, or the kind of
/// its fault; then the units spent and the questions counted. In `truth TEXT within LIMIT after N` there are
/// so many units, after so many questions were counted.
pub fn truth_answer(
    alloc: Global,
    variables: &Env,
    world: &mut MemoryFiles,
    given: &[Vec<u8>],
) -> Result<Answer, Trouble> {
    let (text, limit, count) = match given {
        [text] => (text, UNITS, 0),
        [text, limit, count] => (text, as_number(limit)?, as_number(count)?),
        _ => return Err(Trouble::NoCase),
    };
    let mut budget = Budget::new(limit);
    for _ in 0..count {
        budget.ask().map_err(|_| Trouble::NoCase)?;
    }
    let text = as_text(text)?;
    let makefile = given_name(alloc, MAKEFILE.as_bytes())?;
    let mut answer = Answer::new(alloc);
    match truth(alloc, variables, text, &makefile, world, &mut budget) {
        Ok(true) => answer.word("true"),
        Ok(false) => answer.word("false"),
        Err(stop) => answer.stop(stop),
    }
    answer.number(budget.spent());
    answer.number(budget.questions());
    Ok(answer)
}
