//! A line of a loop's body with the words of its iteration put in.
ghost use Rattle.std.specs.Prelude.{◌≡◌, ◌↔◌, [], None, IfOk, IfErr};
ghost use Rattle.mk_base.specs.Meter.{IsLater};
ghost use Rattle.mk_ref.specs.Atoms.{left_of};
ghost use Rattle.mk_env.specs.Refusals.{IsUncut};
ghost use Rattle.mk_loop.specs.Passes.{PutsWords};

use crate::iterations::Iteration;
use crate::pass::{Body, Pass};
use mk_base::{Budget, FaultKind, PureStop};
use mk_env::Env;
use mk_ref::{PiecesFault, pieces};
use std::alloc::Global;

/// The line of a loop's body with the words of its iteration put in, all at once, in one pass over the
/// line as it is written (make(1), "FOR LOOPS"). If no word is put in, it is `None`, and the line stays
/// as it is. Each word that is put in costs a unit, so it is `None` exactly if nothing is spent. `loops`
/// are the loops around the line, the innermost last.
///
/// If the name of a reference, as it is written, is a loop's variable, the reference is replaced by the
/// word of that variable. That holds too for a reference in the name or the modifiers of another. A
/// name with a reference in it isn't the name of a loop's variable. Each replaced reference costs one
/// unit. Words are put into its own modifiers first. Then these are applied to its word; the other
/// references in them are expanded among `variables`, and count as inside this one. Then each `$` of
/// the result is doubled.
///
/// The time is linear in the length of the line, the texts that are made and the units that are spent,
/// except for the search for each name among the variables in scope. It takes no stack: references may
/// be nested as deep as the line is long.
///
/// # Errors
///
/// The fault is `Reference` if a reference of the line doesn't end, before any is replaced.
///
/// Then come, from the left, the faults of each reference that is replaced. It is `Budget` if no unit is
/// left for the reference. Then come those of the references in its modifiers, and those that `modify`
/// has for its word.
///
/// A text here is the line, or the modifiers of a replaced reference. It is `Length` if what is joined
/// of a text is longer than 65,536 bytes after a word was put in, or at the text's end if one was. A
/// line into which no word is put has no limit.
///
/// The other error is that memory runs out.
pub fn put_words(
    alloc: Global,
    variables: &Env,
    loops: &[Iteration],
    line: &str,
    budget: &mut Budget,
) -> Result<Option<String>, PureStop<FaultKind>>
    ensures later { IsLater budget.old budget.new }
    ensures none { IfOk result (λ made. made ≡ None ↔ (budget.new.spent ≡ budget.old.spent)) }
    ensures gives { PutsWords result loops.now variables.now line.now budget.old budget.new }
{
    check_closed(alloc, line)?;
    let body = Body {
        line,
        loops,
        variables,
    };
    let mut pass = Pass::new(alloc);
    while pass.at() < line.len() {
        pass = pass.step(alloc, body, budget)?;
    }
    pass.finished(body)
}

/// Checks the line of a loop's body before words are put in. If a reference of it doesn't end, that is the
/// fault `Reference`.
fn check_closed(alloc: Global, line: &str) -> Result<(), PureStop<FaultKind>>
    ensures whole { IfOk result (λ _. left_of line.now ≡ []) }
    ensures err { IfErr result (IsUncut line.now) }
{
    match pieces(alloc, line) {
        Ok(_pieces) => Ok(()),
        Err(PiecesFault::Unclosed { at: _ }) => Err(PureStop::Fault(FaultKind::Reference)),
        Err(PiecesFault::Memory(refused)) => Err(PureStop::Memory(refused)),
    }
}
