//! The truth of comparisons in conditions, of numbers and of texts.
ghost use Rattle.std.specs.Prelude.{◌≡◌};
ghost use Rattle.mk_base.specs.Meter.{IsLater};
ghost use Rattle.mk_cond_tree.specs.Placed.{IsSideIn};
ghost use Rattle.mk_cond.specs.Leaves as leaves;
ghost use Rattle.mk_cond.specs.Tasks.{ComparesSides};

use crate::numbers::{number_of, numbers_compare};
use crate::setting::Setting;
use mk_base::{Budget, FaultKind, PureStop};
use mk_cond_tree::{Comparison, Side};
use mk_env::expand;
use std::alloc::Global;

/// Whether this comparison of a condition holds between two sides, which are expanded from the left. If texts
/// are compared by an order, that is the fault `Condition`.
pub(crate) fn compared(
    alloc: Global,
    setting: Setting<'_>,
    one: Side,
    comparison: Comparison,
    other: Side,
    budget: &mut Budget,
) -> Result<bool, PureStop<FaultKind>>
    requires one_in { IsSideIn setting.text.now one }
    requires other_in { IsSideIn setting.text.now other }
    ensures later { IsLater budget.old budget.new }
    ensures gives { ComparesSides result setting.entry one comparison other budget.old budget.new }
{
    let (variables, text) = (setting.variables, setting.text);
    let left = expand(alloc, variables, side_source(text, one), budget)?;
    let right = expand(alloc, variables, side_source(text, other), budget)?;
    let (left, right) = (left.as_str(), right.as_str());
    match sides_compare(
        comparison,
        side_number(one, left),
        side_number(other, right),
        left,
        right,
    ) {
        Some(held) => Ok(held),
        None => Err(PureStop::Fault(FaultKind::Condition)),
    }
}

/// The text of a side of a comparison, as the condition has it written.
fn side_source(text: &str, side: Side) -> &str
    requires { IsSideIn text.now side }
    ensures { result.now ≡ leaves.side_source text.now side }
{
    match side {
        Side::Quoted(span) => span.of(text),
        Side::Bare(span) => span.of(text),
    }
}

/// The number that an expanded side of a comparison is; `None` if it is none. A quoted side is text.
fn side_number(side: Side, found: &str) -> Option<i64>
    ensures { result ≡ leaves.side_number side found.now }
{
    match side {
        Side::Quoted(_) => None,
        Side::Bare(_) => number_or_zero(found.as_bytes()),
    }
}

/// The number that the text of a side of a comparison is; an empty text is 0.
fn number_or_zero(text: &[u8]) -> Option<i64>
    ensures { result ≡ leaves.number_or_zero text.now }
{
    if text.is_empty() {
        Some(0)
    } else {
        number_of(text)
    }
}

/// Whether this comparison of a condition holds between two expanded sides. If both are numbers, they are
/// compared as numbers, and otherwise as texts. It is `None` if texts are compared by an order.
fn sides_compare(
    comparison: Comparison,
    one: Option<i64>,
    other: Option<i64>,
    left: &str,
    right: &str,
) -> Option<bool>
    ensures { result ≡ leaves.sides_compare comparison one other left.now right.now }
{
    match (one, other) {
        (Some(one), Some(other)) => Some(numbers_compare(comparison, one, other)),
        _ => texts_compare(comparison, left, right),
    }
}

/// Whether this comparison of a condition holds between two texts. Texts have no order: `None` if the
/// comparison asks for one.
fn texts_compare(comparison: Comparison, left: &str, right: &str) -> Option<bool>
    ensures { result ≡ leaves.texts_compare comparison left.now right.now }
{
    match comparison {
        Comparison::Equal => Some(left == right),
        Comparison::Unequal => Some(left != right),
        _ => None,
    }
}
