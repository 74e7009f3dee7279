//! The truth of the tree of a condition: of its conjunctions and their terms.
ghost use Rattle.std.specs.Prelude.{All};
ghost use Rattle.mk_cond_tree.specs.Placed.{IsTokenIn};
ghost use Rattle.mk_cond_tree.specs.Trees.{or_tokens, and_tokens, not_tokens};
ghost use Rattle.mk_cond_tree.specs.Views.{condition_tree, conjunction_tree, term_tree};
ghost use Rattle.mk_cond.specs.Tasks.{TellsAny, TellsAll, DoesTerm};

use crate::calls::call_truth;
use crate::comparisons::compared;
use crate::lone_sides::side_truth;
use crate::setting::Setting;
use mk_base::{Budget, FaultKind, Stop};
use mk_cond_tree::{Condition, Conjunction, Term};
use mk_paths::Names;
use std::alloc::Global;

/// The truth of a condition by its tree: whether one of its conjunctions holds.
#[cycle(truth)]
pub(crate) fn condition_truth<F: Names>(
    alloc: Global,
    setting: Setting<'_>,
    condition: &Condition,
    files: &mut F,
    budget: &mut Budget,
) -> Result<bool, Stop<FaultKind>>
    requires { All (IsTokenIn setting.text.now) (or_tokens (condition_tree condition.now)) }
    ensures { TellsAny F.Names setting.entry (condition_tree condition.now) result
        budget.old files.old budget.new files.new }
{
    let mut held = conjunction_truth(alloc, setting, &condition.first, files, budget)?;
    for conjunction in &condition.more {
        if held {
            return Ok(true);
        }
        held = conjunction_truth(alloc, setting, conjunction, files, budget)?;
    }
    Ok(held)
}

/// The truth of a conjunction in the tree of a condition: whether all its terms hold.
#[cycle(truth)]
fn conjunction_truth<F: Names>(
    alloc: Global,
    setting: Setting<'_>,
    conjunction: &Conjunction,
    files: &mut F,
    budget: &mut Budget,
) -> Result<bool, Stop<FaultKind>>
    requires { All (IsTokenIn setting.text.now) (and_tokens (conjunction_tree conjunction.now)) }
    ensures { TellsAll F.Names setting.entry (conjunction_tree conjunction.now) result
        budget.old files.old budget.new files.new }
{
    let mut held = term_truth(alloc, setting, &conjunction.first, files, budget)?;
    for term in &conjunction.more {
        if !held {
            return Ok(false);
        }
        held = term_truth(alloc, setting, term, files, budget)?;
    }
    Ok(held)
}

/// The truth of a term in the tree of a condition: a negation, a group, a call, a comparison or a side.
#[cycle(truth)]
fn term_truth<F: Names>(
    alloc: Global,
    setting: Setting<'_>,
    term: &Term,
    files: &mut F,
    budget: &mut Budget,
) -> Result<bool, Stop<FaultKind>>
    requires { All (IsTokenIn setting.text.now) (not_tokens (term_tree term.now)) }
    ensures { DoesTerm F.Names setting.entry (term_tree term.now) result
        budget.old files.old budget.new files.new }
{
    match term {
        Term::Not(turned) => {
            let held = term_truth(alloc, setting, turned, files, budget)?;
            Ok(!held)
        }
        Term::Group(condition) => condition_truth(alloc, setting, condition, files, budget),
        Term::Call(call, argument) => call_truth(
            alloc,
            setting,
            *call,
            argument.of(setting.text),
            files,
            budget,
        ),
        Term::Compare(one, comparison, other) => {
            Ok(compared(alloc, setting, *one, *comparison, *other, budget)?)
        }
        Term::Side(side) => side_truth(alloc, setting, *side, files, budget),
    }
}
