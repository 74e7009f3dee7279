//! Cases of conditions: the tree of a condition, as a case shows it.
use case_lines::{Answer, Trouble, one_text};
use mk_cond_tree::{
    Call, Comparison, Condition, ConditionError, Conjunction, Side, Term, read_condition,
};
use mk_text::Span;
use std::alloc::{AllocError, Global};
use std::fmt::Write;

/// The call `condition TEXT` of a case of conditions: the condition's tree as `or(..)` of `and(..)` of terms;
/// or `unclosed`, `unreadable`. A term is `not(..)`, `group(..)`, a call with its argument in single quotes,
/// or sides. A quoted side is in single quotes.
pub fn condition(alloc: Global, given: &[Vec<u8>]) -> Result<Answer, Trouble> {
    let text = one_text(given)?;
    match read_condition(alloc, text) {
        Ok(condition) => condition_answer(alloc, text, &condition),
        Err(ConditionError::Unclosed) => Ok(Answer::of_word(alloc, "unclosed")),
        Err(ConditionError::Unreadable) => Ok(Answer::of_word(alloc, "unreadable")),
        Err(ConditionError::Memory(refused)) => Err(Trouble::Memory(refused)),
    }
}

/// The tree of a condition as the answer of a case of conditions.
fn condition_answer(alloc: Global, text: &str, condition: &Condition) -> Result<Answer, Trouble> {
    let mut out = String::new(alloc);
    show_condition(&mut out, text, condition)?;
    Ok(Answer::of_word(alloc, out.as_str()))
}

/// The call `conjunctions TEXT` of a case of conditions: how many conjunctions the condition has.
pub fn conjunctions(alloc: Global, given: &[Vec<u8>]) -> Result<Answer, Trouble> {
    let mut answer = Answer::new(alloc);
    if let Ok(condition) = read_condition(alloc, one_text(given)?) {
        answer.number((condition.more.len() as u64).saturating_add(1));
    }
    Ok(answer)
}

/// Shows the tree of a condition in a case: `or(..)` with its conjunctions.
#[cycle(show)]
fn show_condition(out: &mut String, text: &str, condition: &Condition) -> Result<(), AllocError> {
    out.push_str("or(")?;
    show_conjunction(out, text, &condition.first)?;
    for conjunction in &condition.more {
        out.push_str(", ")?;
        show_conjunction(out, text, conjunction)?;
    }
    out.push_str(")")
}

/// Shows a conjunction of a condition's tree in a case: `and(..)` with its terms.
#[cycle(show)]
fn show_conjunction(out: &mut String, text: &str, terms: &Conjunction) -> Result<(), AllocError> {
    out.push_str("and(")?;
    show_term(out, text, &terms.first)?;
    for term in &terms.more {
        out.push_str(", ")?;
        show_term(out, text, term)?;
    }
    out.push_str(")")
}

/// Shows a term of a condition's tree in a case: `not(..)`, `group(..)`, a call, or sides.
#[cycle(show)]
fn show_term(out: &mut String, text: &str, term: &Term) -> Result<(), AllocError> {
    match term {
        Term::Not(turned) => {
            out.push_str("not(")?;
            show_term(out, text, turned)?;
            out.push_str(")")
        }
        Term::Group(condition) => {
            out.push_str("group(")?;
            show_condition(out, text, condition)?;
            out.push_str(")")
        }
        Term::Call(call, argument) => {
            out.push_str(call_word(*call))?;
            out.push_str(" '")?;
            out.push_str(at_place(text, *argument))?;
            out.push_str("'")
        }
        Term::Compare(left, comparison, right) => {
            show_side(out, text, *left)?;
            out.push_str(comparison_sign(*comparison))?;
            show_side(out, text, *right)
        }
        Term::Side(side) => show_side(out, text, *side),
    }
}

/// Shows a side of a comparison in a condition's tree in a case: a quoted one in single quotes.
fn show_side(out: &mut String, text: &str, side: Side) -> Result<(), AllocError> {
    match side {
        Side::Quoted(span) => {
            let quoted = at_place(text, span);
            write!(out, "side '{quoted}'")
        }
        Side::Bare(span) => {
            let word = at_place(text, span);
            write!(out, "side {word}")
        }
    }
}

/// What is at a place of a condition's text, as a case shows it in the tree, or `no-place`.
fn at_place(text: &str, span: Span) -> &str {
    text.get(span.start..span.end).unwrap_or("no-place")
}

/// The word for a call in a condition's tree, as a case shows it.
fn call_word(call: Call) -> &'static str {
    match call {
        Call::Defined => "defined",
        Call::Empty => "empty",
        Call::Exists => "exists",
        Call::Make => "make",
        Call::Target => "target",
    }
}

/// The sign of a comparison in a condition's tree, as a case shows it.
fn comparison_sign(comparison: Comparison) -> &'static str {
    match comparison {
        Comparison::Equal => " == ",
        Comparison::Unequal => " != ",
        Comparison::Less => " < ",
        Comparison::AtMost => " <= ",
        Comparison::Greater => " > ",
        Comparison::AtLeast => " >= ",
    }
}
