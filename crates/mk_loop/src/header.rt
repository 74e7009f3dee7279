//! The header of `.for`, read into the iterations of its loop.
ghost use Rattle.std.specs.Prelude.{◌<◌, length, IfOk};
ghost use Rattle.mk_base.specs.Meter.{IsLater};
ghost use Rattle.mk_loop.specs.Scopes.{GivesIterations};
ghost use Rattle.mk_loop.specs.Header.{ReadsForm};

use crate::iterations::Iterations;
use mk_base::{Budget, FaultKind, PureStop};
use mk_env::{Env, expand};
use mk_text::words;
use std::alloc::Global;

/// The iterations of the loop whose `.for` is followed by this text: `VARIABLES in WORDS` (make(1),
/// "FOR LOOPS"). The first word `in` ends the variables. What follows it is expanded and split into
/// words, and each iteration takes one word for each variable. If there are no words, there are no
/// iterations. If the loop is in an outer loop, the words of the outer loop are put into the text
/// first, by `put_words`.
///
/// # Errors
///
/// The fault is `For` if there is no `in`, or no variable before it. Then come the faults of `expand`.
/// Then it is `For` if the number of words isn't a multiple of the number of variables. The other error
/// is that memory runs out.
pub fn read_header(
    alloc: Global,
    variables: &Env,
    header: &str,
    budget: &mut Budget,
) -> Result<Iterations, PureStop<FaultKind>>
    ensures later { IsLater budget.old budget.new }
    ensures gives { GivesIterations result variables.now header.now budget.old budget.new }
{
    let (names, rest) = read_form(alloc, header)?;
    let text = expand(alloc, variables, rest, budget)?;
    let words = words(alloc, text.as_str())?;
    if words.len() % names.len() != 0 {
        return Err(PureStop::Fault(FaultKind::For));
    }
    Ok(Iterations { names, text, words })
}

/// The variables of a loop's header, and what follows its `in`. If there is no `in`, or no variable before
/// it, that is the fault `For`.
fn read_form<'a>(
    alloc: Global,
    header: &'a str,
) -> Result<(Vec<String>, &'a str), PureStop<FaultKind>>
    ensures named { IfOk result (λ form. 0 < length form.0.items) }
    ensures gives { ReadsForm result header.now }
{
    let mut names = Vec::new(alloc);
    for span in &words(alloc, header)? {
        let word = span.of(header);
        if word == "in" {
            if names.is_empty() {
                return Err(PureStop::Fault(FaultKind::For));
            }
            return Ok((names, &header[span.end..]));
        }
        names.push(String::from_str(alloc, word)?)?;
    }
    Err(PureStop::Fault(FaultKind::For))
}
