//! The truth of sides of conditions that are alone, without a comparison.
ghost use Rattle.std.specs.Prelude.{◌≡◌, IfOk};
ghost use Rattle.mk_base.specs.Meter.{IsLater};
ghost use Rattle.std.specs.List.{list_any};
ghost use Rattle.mk_cond_tree.specs.Placed.{IsSideIn};
ghost use Rattle.mk_cond.specs.Leaves as leaves;
ghost use Rattle.mk_cond.specs.Leaves.{is_reference_piece};
ghost use Rattle.mk_cond.specs.Tasks.{DoesSide, DoesWord, TellsHasText, TellsHasTrue};

use crate::calls::call_truth;
use crate::numbers::{isnt_zero, number_of};
use crate::setting::Setting;
use mk_base::{Budget, FaultKind, PureStop, Stop};
use mk_cond_tree::Side;
use mk_env::{Env, expand};
use mk_paths::Names;
use mk_ref::{Piece, PiecesFault, pieces};
use std::alloc::{AllocError, Global};

/// The truth of a side that is alone in a condition: of a quoted side or of a word.
pub(crate) fn side_truth<F: Names>(
    alloc: Global,
    setting: Setting<'_>,
    side: Side,
    files: &mut F,
    budget: &mut Budget,
) -> Result<bool, Stop<FaultKind>>
    requires { IsSideIn setting.text.now side }
    ensures { DoesSide F.Names setting.entry side result budget.old files.old budget.new files.new }
{
    match side {
        Side::Quoted(span) => {
            Ok(has_text(alloc, setting.variables, span.of(setting.text), budget)?)
        }
        Side::Bare(span) => word_truth(alloc, setting, span.of(setting.text), files, budget),
    }
}

/// The truth of a word that is alone in a condition: a reference, a number, or the argument of the
/// directive's call.
fn word_truth<F: Names>(
    alloc: Global,
    setting: Setting<'_>,
    word: &str,
    files: &mut F,
    budget: &mut Budget,
) -> Result<bool, Stop<FaultKind>>
    ensures { DoesWord F.Names setting.entry word.now result budget.old files.old budget.new files.new }
{
    if has_reference(alloc, word)? {
        return Ok(has_true(alloc, setting.variables, word, budget)?);
    }
    match number_of(word.as_bytes()) {
        None => call_truth(alloc, setting, setting.form.word, word, files, budget),
        number => Ok(isnt_zero(number)),
    }
}

/// The truth of a quoted side that is alone in a condition: whether it, expanded, isn't empty.
fn has_text(
    alloc: Global,
    variables: &Env,
    source: &str,
    budget: &mut Budget,
) -> Result<bool, PureStop<FaultKind>>
    ensures later { IsLater budget.old budget.new }
    ensures gives { TellsHasText result variables.now source.now budget.old budget.new }
{
    let found = expand(alloc, variables, source, budget)?;
    Ok(!found.is_empty())
}

/// The truth of a side with a reference that is alone in a condition: whether it, expanded, is neither empty
/// nor the number 0.
fn has_true(
    alloc: Global,
    variables: &Env,
    source: &str,
    budget: &mut Budget,
) -> Result<bool, PureStop<FaultKind>>
    ensures later { IsLater budget.old budget.new }
    ensures gives { TellsHasTrue result variables.now source.now budget.old budget.new }
{
    let found = expand(alloc, variables, source, budget)?;
    Ok(is_true(found.as_bytes()))
}

/// Whether the expanded text of a side that is alone is neither empty nor the number 0.
fn is_true(text: &[u8]) -> bool
    ensures { result ≡ leaves.is_true text.now }
{
    !text.is_empty() && isnt_zero(number_of(text))
}

/// Whether there is a reference in a side that is alone in a condition. One that doesn't end counts too.
#[tactic(auto, unfolding(crate::specs::Leaves::has_reference))]
fn has_reference(alloc: Global, text: &str) -> Result<bool, AllocError>
    ensures { IfOk result (λ found. found ≡ leaves.has_reference text.now) }
{
    match pieces(alloc, text) {
        Ok(found) => Ok(refers(found.as_slice())),
        Err(PiecesFault::Unclosed { at: _ }) => Ok(true),
        Err(PiecesFault::Memory(refused)) => Err(refused.into()),
    }
}

/// Whether one of the pieces of a side that is alone is a reference.
fn refers(pieces: &[Piece]) -> bool
    ensures { result ≡ list_any is_reference_piece pieces.now }
{
    pieces
        .iter()
        .any(|piece| matches!(piece, Piece::Reference(_)))
}
