//! Cases of variables: their texts, and what texts with references to them expand to.
use case_lines::{Answer, Trouble, as_number, as_text, one_text};
use mk_base::{Budget, Fault, FaultKind, PureStop, Stop, UNITS};
use mk_env::{Env, expand, expand_inside, expand_now, expand_variable, modify};
use std::alloc::Global;

/// The calls `expand TEXT`, `expand now TEXT`, `variable NAME`, `inside TEXT` of a case of variables: what
/// one of these calls expands a text to, with the units spent; of a fault its kind. A number in front is the
/// limit of the budget.
pub fn expansion(
    alloc: Global,
    variables: &Env,
    call: &str,
    given: &[Vec<u8>],
) -> Result<Answer, Trouble> {
    let (limit, text) = match given {
        [text] => (UNITS, text),
        [limit, text] => (as_number(limit)?, text),
        _ => return Err(Trouble::NoCase),
    };
    let text = as_text(text)?;
    let mut budget = Budget::new(limit);
    let outcome = match call {
        "expand now" => expand_now(alloc, variables, text, &mut budget),
        "variable" => expand_variable(alloc, variables, text, &mut budget),
        "inside" | "inside within" => expand_inside(alloc, variables, text, &mut budget),
        _ => expand(alloc, variables, text, &mut budget),
    };
    Ok(expansion_answer(alloc, outcome, &budget))
}

/// The call `modify MODIFIERS on TEXT` of a case of variables: what the modifiers make of a text that is
/// given, in the form of `expand`. A number after `within` is the limit of the budget.
pub fn modified(alloc: Global, variables: &Env, given: &[Vec<u8>]) -> Result<Answer, Trouble> {
    let (limit, modifiers, text) = match given {
        [modifiers, text] => (UNITS, modifiers, text),
        [modifiers, text, limit] => (as_number(limit)?, modifiers, text),
        _ => return Err(Trouble::NoCase),
    };
    let mut budget = Budget::new(limit);
    let (text, modifiers) = (as_text(text)?, as_text(modifiers)?);
    let outcome = modify(alloc, variables, text, modifiers, &mut budget);
    Ok(expansion_answer(alloc, outcome, &budget))
}

/// Shows in a case of variables what a text expands to, or the kind of its fault, with the units spent.
fn expansion_answer(
    alloc: Global,
    outcome: Result<String, PureStop<FaultKind>>,
    budget: &Budget,
) -> Answer {
    let mut answer = Answer::new(alloc);
    match outcome {
        Ok(text) => answer.text(text.as_bytes()),
        Err(stop) => answer.stop(Stop::from(stop)),
    }
    answer.number(budget.spent());
    answer
}

/// The calls `get NAME`, `get from copy NAME` of a case of variables: the text of a variable, or `undefined`.
pub fn text_of_variable(
    alloc: Global,
    variables: &Env,
    given: &[Vec<u8>],
) -> Result<Answer, Trouble> {
    let name = one_text(given)?;
    Ok(match variables.get(name) {
        Some(text) if variables.defined(name) => Answer::of_text(alloc, text),
        None if !variables.defined(name) => Answer::of_word(alloc, "undefined"),
        _ => Answer::of_word(alloc, "both"),
    })
}
