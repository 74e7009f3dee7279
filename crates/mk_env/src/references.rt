//! What references expand to, with their names, values and modifiers, and the texts that they are in.
ghost use Rattle.std.specs.Prelude.{◌≡◌, ◌≢◌, ◌≤◌, string_bytes, length, IfOk, IsTrue};
ghost use Rattle.mk_base.specs.Meter.{IsLater};
ghost use Rattle.mk_ref.specs.Places.{IsPieceIn};
ghost use Rattle.mk_mods.specs.Actions.{action_of, IsExpanded};
ghost use Rattle.mk_env.specs.declared.scope.Undefined.TheVariants as kept;
ghost use Rattle.mk_env.specs.ActiveNames.{meaning_in, mention_in, expanded_value};
ghost use Rattle.mk_env.specs.ExpansionResults.{GivesText, BeginsReference, ExpandsByName, ExpandsNamed, FindsModifiers};
ghost use Rattle.mk_env.specs.ExpansionResults.{Applies, AppliesAll, ExpandsParts, IsAppliedAsItIs, JoinsPiece, JoinsPart};

use crate::bounded_texts::{copy_bounded, has_dollar, means_itself, push_bounded};
use crate::mentions::{Mention, as_written, cut, mentioned};
use crate::modifiers::{apply_expanded, apply_substitution, read_modifiers};
use crate::scope::{Active, ExpansionScope};
use mk_base::{Budget, FaultKind, PureStop};
use mk_mods::{Modifier, Part};
use mk_ref::Piece;
use mk_text::TEXT_LIMIT;
use std::alloc::Global;

/// What a text expands to in a scope: its literals, with each reference replaced by what that means.
#[cycle(expansion)]
pub(crate) fn expand_text(
    alloc: Global,
    scope: ExpansionScope<'_>,
    text: &str,
    budget: &mut Budget,
) -> Result<String, PureStop<FaultKind>>
    ensures later { IsLater budget.old budget.new }
    ensures gives { GivesText result budget.old budget.new (meaning_in scope.entry text.now) }
{
    // Without a dollar the text is its one literal.
    if !has_dollar(text) {
        return copy_bounded(alloc, text);
    }
    let mut joined = String::new(alloc);
    for piece in &cut(alloc, text)? {
        join_piece(alloc, scope, &mut joined, text, piece, budget)?;
    }
    Ok(joined)
}

/// Adds what a piece of a text (a literal, a `$$` pair or a reference) expands to.
#[cycle(expansion)]
fn join_piece(
    alloc: Global,
    scope: ExpansionScope<'_>,
    joined: &mut String,
    text: &str,
    piece: &Piece,
    budget: &mut Budget,
) -> Result<(), PureStop<FaultKind>>
    requires { IsPieceIn text.now piece.now }
    ensures later { IsLater budget.old budget.new }
    ensures gives { JoinsPiece scope.entry text.now piece.now result joined.old joined.new
        budget.old budget.new }
{
    match piece {
        Piece::Literal(span) => push_bounded(joined, span.of(text)),
        Piece::EscapedDollar(_) => push_bounded(joined, "$"),
        Piece::Reference(reference) => {
            let found = expand_reference(alloc, scope, mentioned(text, reference), budget)?;
            push_bounded(joined, found.as_str())
        }
    }
}

/// What a reference expands to: it is paid for, and its name is expanded.
#[cycle(expansion)]
#[tactic(auto, unfolding(crate::specs::Expansion::reference))]
pub(crate) fn expand_reference(
    alloc: Global,
    scope: ExpansionScope<'_>,
    mention: Mention<'_>,
    budget: &mut Budget,
) -> Result<String, PureStop<FaultKind>>
    ensures later { IsLater budget.old budget.new }
    ensures gives { GivesText result budget.old budget.new (mention_in scope.entry mention.entry) }
{
    begin_reference(scope, budget)?;
    // Most names have no reference in them: no copy is made of such a name.
    if means_itself(mention.name) {
        return expand_by_name(alloc, scope, mention, mention.name, budget);
    }
    let name = expand_text(alloc, scope.inside(), mention.name, budget)?;
    expand_by_name(alloc, scope, mention, name.as_str(), budget)
}

/// Spends the unit of a reference that is expanded, and checks that it isn't nested too deep.
#[tactic(auto, unfolding(crate::specs::Expansion::enter_reference))]
fn begin_reference(
    scope: ExpansionScope<'_>,
    budget: &mut Budget,
) -> Result<(), PureStop<FaultKind>>
    ensures later { IsLater budget.old budget.new }
    ensures inside { IfOk result (λ _. scope.entry.levels ≢ 0) }
    ensures gives { BeginsReference result budget.old budget.new scope.entry.levels }
{
    budget.pay()?;
    if scope.levels == 0 {
        return Err(PureStop::Fault(FaultKind::Depth));
    }
    Ok(())
}

/// What a reference that is paid for expands to, once its name is known. It may stay as it is written.
#[cycle(expansion)]
fn expand_by_name(
    alloc: Global,
    scope: ExpansionScope<'_>,
    mention: Mention<'_>,
    name: &str,
    budget: &mut Budget,
) -> Result<String, PureStop<FaultKind>>
    requires { scope.levels ≢ 0 }
    ensures later { IsLater budget.old budget.new }
    ensures gives { ExpandsByName result budget.old budget.new scope.entry mention.entry name.now }
{
    if scope.keeps(name) {
        return Ok(as_written(alloc, mention)?);
    }
    expand_named(alloc, scope.inside(), name, mention.modifiers, budget)
}

/// What a reference whose name is known expands to: the variable's value with the modifiers applied. The
/// scope is that of what is inside the reference.
#[cycle(expansion)]
pub(crate) fn expand_named(
    alloc: Global,
    scope: ExpansionScope<'_>,
    name: &str,
    modifiers: Option<&str>,
    budget: &mut Budget,
) -> Result<String, PureStop<FaultKind>>
    requires { scope.undefined ≡ kept.Empty }
    ensures later { IsLater budget.old budget.new }
    ensures gives { ExpandsNamed result budget.old budget.new scope.entry name.now modifiers.entry }
{
    let modifiers = modifiers_for(alloc, scope, name, modifiers)?;
    let value = expand_value(alloc, scope, name, budget)?;
    apply_modifiers(alloc, scope, value, modifiers.as_slice(), budget)
}

/// The modifiers of a reference to the variable of this name. If the variable's value is being expanded, that
/// is the fault `Recursive`.
fn modifiers_for(
    alloc: Global,
    scope: ExpansionScope<'_>,
    name: &str,
    modifiers: Option<&str>,
) -> Result<Vec<Modifier>, PureStop<FaultKind>>
    ensures gives { FindsModifiers result scope.entry name.now modifiers.entry }
{
    if scope.active.contains(name) {
        return Err(PureStop::Fault(FaultKind::Recursive));
    }
    read_modifiers(alloc, modifiers, scope.variables.profile())
}

/// What the value of the variable of this name expands to; nothing if it isn't defined.
#[cycle(expansion)]
fn expand_value(
    alloc: Global,
    scope: ExpansionScope<'_>,
    name: &str,
    budget: &mut Budget,
) -> Result<String, PureStop<FaultKind>>
    requires { scope.undefined ≡ kept.Empty }
    ensures later { IsLater budget.old budget.new }
    ensures gives { GivesText result budget.old budget.new (expanded_value scope.entry name.now) }
{
    match scope.variables.get(name) {
        None => Ok(String::new(alloc)),
        Some(value) => {
            let within = ExpansionScope {
                active: Active::Name(name, &scope.active),
                ..scope
            };
            expand_text(alloc, within, value, budget)
        }
    }
}

/// What the modifiers of a reference make of its value, from left to right.
#[cycle(expansion)]
pub(crate) fn apply_modifiers(
    alloc: Global,
    scope: ExpansionScope<'_>,
    value: String,
    modifiers: &[Modifier],
    budget: &mut Budget,
) -> Result<String, PureStop<FaultKind>>
    ensures later { IsLater budget.old budget.new }
    ensures gives { AppliesAll result budget.old budget.new scope.entry value modifiers.now }
{
    let mut value = value;
    for modifier in modifiers {
        value = apply_modifier(alloc, scope, value.as_str(), modifier, budget)?;
    }
    Ok(value)
}

/// What a modifier of a reference makes of its value; the references in the modifier are expanded first.
#[cycle(expansion)]
fn apply_modifier(
    alloc: Global,
    scope: ExpansionScope<'_>,
    value: &str,
    modifier: &Modifier,
    budget: &mut Budget,
) -> Result<String, PureStop<FaultKind>>
    ensures later { IsLater budget.old budget.new }
    ensures gives { Applies result budget.old budget.new scope.entry value.now modifier.now }
{
    // What means itself isn't copied.
    if is_literal(modifier) {
        return apply_expanded(alloc, modifier, value);
    }
    match modifier {
        Modifier::Match(pattern) => {
            let pattern = expand_text(alloc, scope, pattern.as_str(), budget)?;
            apply_expanded(alloc, &Modifier::Match(pattern), value)
        }
        Modifier::Exclude(pattern) => {
            let pattern = expand_text(alloc, scope, pattern.as_str(), budget)?;
            apply_expanded(alloc, &Modifier::Exclude(pattern), value)
        }
        Modifier::Substitute(substitution) => {
            let old = expand_parts(alloc, scope, &substitution.old, "", budget)?;
            let new = expand_parts(alloc, scope, &substitution.new, old.as_str(), budget)?;
            apply_substitution(alloc, substitution, old.as_str(), new.as_str(), value)
        }
        Modifier::Change(_) => apply_expanded(alloc, modifier, value),
        Modifier::Suffix { old, new } => {
            let old = expand_text(alloc, scope, old.as_str(), budget)?;
            let new = expand_text(alloc, scope, new.as_str(), budget)?;
            apply_expanded(alloc, &Modifier::Suffix { old, new }, value)
        }
    }
}

/// Whether the texts of a reference's modifier mean themselves, as is seen at once. It doesn't look into a
/// substitution.
fn is_literal(modifier: &Modifier) -> bool
    ensures expanded { IsTrue result → IsExpanded (action_of modifier.now) }
    ensures applied { IsTrue result → IsAppliedAsItIs (action_of modifier.now) }
{
    match modifier {
        Modifier::Match(pattern) | Modifier::Exclude(pattern) => means_itself(pattern.as_str()),
        Modifier::Suffix { old, new } => means_itself(old.as_str()) && means_itself(new.as_str()),
        Modifier::Substitute(_) | Modifier::Change(_) => false,
    }
}

/// What references in the old or the new text of a reference's `:S` mean: what the text's parts expand to,
/// joined from the left, given the old text.
#[cycle(expansion)]
fn expand_parts(
    alloc: Global,
    scope: ExpansionScope<'_>,
    parts: &[Part],
    old: &str,
    budget: &mut Budget,
) -> Result<String, PureStop<FaultKind>>
    ensures later { IsLater budget.old budget.new }
    ensures gives { ExpandsParts result budget.old budget.new scope.entry old.now parts.now }
{
    let mut joined = String::new(alloc);
    for part in parts {
        join_part(alloc, scope, &mut joined, part, old, budget)?;
    }
    Ok(joined)
}

/// Adds what a part of the old or the new text of `:S` expands to.
#[cycle(expansion)]
fn join_part(
    alloc: Global,
    scope: ExpansionScope<'_>,
    joined: &mut String,
    part: &Part,
    old: &str,
    budget: &mut Budget,
) -> Result<(), PureStop<FaultKind>>
    requires small { length (string_bytes joined.old) ≤ TEXT_LIMIT }
    ensures small { IfOk result (λ _. length (string_bytes joined.new) ≤ TEXT_LIMIT) }
    ensures later { IsLater budget.old budget.new }
    ensures gives { JoinsPart scope.entry old.now part.now result joined.old joined.new
        budget.old budget.new }
{
    match part {
        Part::Text(text) => push_bounded(joined, text.as_str()),
        Part::Whole => push_bounded(joined, old),
        Part::Reference(source) => {
            let found = expand_text(alloc, scope, source.as_str(), budget)?;
            push_bounded(joined, found.as_str())
        }
    }
}
