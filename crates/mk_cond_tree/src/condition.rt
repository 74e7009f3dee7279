//! A condition's text read into its tree.
ghost use Rattle.std.specs.Prelude.{◌≡◌, ◌≢◌, [], true, false, option_map, All, IfOk, IfErr};
ghost use Rattle.refusals.specs.Refused.{refused};
ghost use Rattle.mk_cond_tree.specs.declared.condition.ConditionError.TheVariants as errors;
ghost use Rattle.mk_ref.specs.Atoms.{left_of};
ghost use Rattle.mk_cond_tree.specs.Trees.{or_tokens};
ghost use Rattle.mk_cond_tree.specs.Placed.{IsTokenIn};
ghost use Rattle.mk_cond_tree.specs.Views.{condition_tree};
ghost use Rattle.mk_cond_tree.specs.Conditions.{IsConditionOf, IsFaultOf, tree_in};

use crate::nodes::Condition;
use crate::reader::read;
use crate::scanner::tokens;
use mk_ref::{PiecesFault, outside, outside_keeps_places, pieces};
use refusals::OutOfMemory;
use std::alloc::{AllocError, Global};
use thiserror::Error;

/// How many `!` and parentheses may be one inside another. A call's parentheses don't count.
pub const LEVELS: usize = 64;

/// Why a text has no condition.
#[derive(Debug, Clone, Copy, PartialEq, Eq, Error)]
pub enum ConditionError {
    /// A reference doesn't end.
    #[error("a reference doesn't end")]
    Unclosed,
    /// It doesn't follow the grammar, or more than 64 `!` and parentheses are one inside another.
    #[error("not a condition")]
    Unreadable,
    /// Memory ran out.
    #[error("out of memory")]
    Memory(OutOfMemory),
}

impl From<AllocError> for ConditionError {
    ghost from_gives = { λ _ error. error ≡ errors.Memory refused };

    /// If an allocation is refused, a condition isn't read into its tree, and the error is `Memory`.
    fn from(error: AllocError) -> ConditionError {
        ConditionError::Memory(OutOfMemory::from(error))
    }
}

/// The tree of the condition `text`, which is what follows the word of a directive. Nothing is
/// expanded: sides and arguments are places in `text`, at which it can be cut. References are atomic: a
/// parenthesis, a quote or the end of a side is not looked for in them. The time is linear in the
/// length of `text`, and the depth of the recursion is bounded by `LEVELS`.
///
/// The grammar is that of make(1), "CONDITIONALS", where `!` binds most tightly, then `&&`, then `||`:
///
/// ```text
/// or  = and {"||" and}
/// and = not {"&&" not}
/// not = "!" not | "(" or ")" | call | side [comparison side]
/// ```
///
/// # Errors
///
/// `Unclosed` if a reference doesn't end, whatever else is wrong. `Unreadable` if the text isn't a
/// condition. `Memory` if memory for its tokens or its tree runs out.
pub fn read_condition(alloc: Global, text: &str) -> Result<Condition, ConditionError>
    ensures tree { IfOk result (λ condition. IsConditionOf text.now (condition_tree condition)) }
    ensures places { IfOk result (λ condition. All (IsTokenIn text.now)
        (or_tokens (condition_tree condition))) }
    ensures fault { IfErr result (IsFaultOf text.now) }
{
    outside_keeps_places();
    if !ends_each_reference(alloc, text)? {
        return Err(ConditionError::Unclosed);
    }
    let covered = outside(alloc, text)?;
    match tree_in(alloc, covered.as_slice())? {
        Some(condition) => Ok(condition),
        None => Err(ConditionError::Unreadable),
    }
}

/// Whether each reference of a condition's text ends.
fn ends_each_reference(alloc: Global, text: &str) -> Result<bool, AllocError>
    ensures closed { IfOk result (λ ends. ends ≡ true → left_of text.now ≡ []) }
    ensures unclosed { IfOk result (λ ends. ends ≡ false → left_of text.now ≢ []) }
{
    match pieces(alloc, text) {
        Ok(_) => Ok(true),
        Err(PiecesFault::Unclosed { at: _ }) => Ok(false),
        Err(PiecesFault::Memory(refused)) => Err(refused.into()),
    }
}

/// The tree of a condition in whose text dollars cover the references; `None` if it has none.
fn tree_in(alloc: Global, covered: &[u8]) -> Result<Option<Condition>, AllocError>
    ensures { IfOk result (λ read. option_map condition_tree read ≡ tree_in covered.now) }
{
    match tokens(alloc, covered)? {
        Some(tokens) => read(alloc, tokens.as_slice(), LEVELS),
        None => Ok(None),
    }
}
