//! Texts of a makefile with their references expanded, among its variables.
ghost use Rattle.mk_base.specs.Meter.{IsLater};
ghost use Rattle.mk_env.specs.Expansion.{expand, expand_now, variable};
ghost use Rattle.mk_env.specs.ExpansionResults.{GivesText, ExpandsInside, Modifies};

use crate::Env;
use crate::insides::mention_of;
use crate::modifiers::read_modifiers;
use crate::references::{apply_modifiers, expand_named, expand_reference, expand_text};
use crate::scope::{ExpansionScope, Undefined};
use mk_base::{Budget, FaultKind, PureStop};
use std::alloc::Global;

/// How many references may be nested, over values, names and modifiers.
pub const REFERENCE_LEVELS: u32 = 32;

/// The expansion of a text: each reference replaced by what it means, from the left, and each `$$` by one
/// dollar (make(1), "VARIABLES"). Each reference costs one unit of the budget. The budget says afterwards
/// what was spent, after a fault too. The value of a variable that isn't defined is an empty text.
///
/// # Errors
///
/// The fault is `Reference` if a reference doesn't end, before anything of that text is expanded.
///
/// Then, for each reference, faults are looked for in this order. `Budget` if no unit is left. `Depth`
/// if more than 32 references are nested, over values, names and modifiers. Those of its name, which is
/// expanded first. `Recursive` if the value of that name is being expanded. `Modifier` if its modifiers
/// can't be read. Those of its value. Those of its modifiers, which are applied from left to right; the
/// references in each are expanded as it is applied.
///
/// It is `Length` if a text, as it is joined from the left, or the result of a modifier is longer than
/// 65,536 bytes; no longer text is made.
///
/// The other error is that memory runs out.
pub fn expand(
    alloc: Global,
    variables: &Env,
    text: &str,
    budget: &mut Budget,
) -> Result<String, PureStop<FaultKind>>
    ensures later { IsLater budget.old budget.new }
    ensures gives { GivesText result budget.old budget.new (expand variables.now text.now) }
{
    expand_text(alloc, ExpansionScope::outermost(variables), text, budget)
}

/// What the assignment `:=` stores: the expansion of a text by `expand`, except for references in the text
/// itself to variables that aren't defined. If the name of such a reference, once expanded, isn't defined, it
/// is kept as it is written, and its modifiers aren't read. It costs its unit and what its name costs. The
/// errors are those of `expand`.
pub fn expand_now(
    alloc: Global,
    variables: &Env,
    text: &str,
    budget: &mut Budget,
) -> Result<String, PureStop<FaultKind>>
    ensures later { IsLater budget.old budget.new }
    ensures gives { GivesText result budget.old budget.new (expand_now variables.now text.now) }
{
    let scope = ExpansionScope {
        undefined: Undefined::Kept,
        ..ExpansionScope::outermost(variables)
    };
    expand_text(alloc, scope, text, budget)
}

/// What a reference to the variable of this name expands to, with the costs and errors of `expand`. If the
/// name isn't defined, that is an empty text. The name is taken as it is, and isn't expanded.
pub fn expand_variable(
    alloc: Global,
    variables: &Env,
    name: &str,
    budget: &mut Budget,
) -> Result<String, PureStop<FaultKind>>
    ensures later { IsLater budget.old budget.new }
    ensures gives { GivesText result budget.old budget.new (variable variables.now name.now) }
{
    budget.pay()?;
    let scope = ExpansionScope::outermost(variables).inside();
    expand_named(alloc, scope, name, None, budget)
}

/// What a reference with this inside expands to. The inside is a name and, after its first colon outside
/// references, modifiers, as in `empty(NAME:MODIFIERS)` of a condition (make(1), "CONDITIONALS"). A mark that
/// would close a reference is a byte like any other in it.
///
/// Its costs and errors are those that `expand` has for a reference that isn't inside another. If a
/// reference in the inside doesn't end, the fault is `Reference`, before anything is paid.
pub fn expand_inside(
    alloc: Global,
    variables: &Env,
    inside: &str,
    budget: &mut Budget,
) -> Result<String, PureStop<FaultKind>>
    ensures later { IsLater budget.old budget.new }
    ensures gives { ExpandsInside result budget.old budget.new variables.now inside.now }
{
    let mention = mention_of(alloc, inside)?;
    expand_reference(alloc, ExpansionScope::outermost(variables), mention, budget)
}

/// What the modifiers that follow the colon of a reference make of a text, among these variables. The text is
/// given in place of that reference's value, such as the word that a loop puts there, and is taken as it is.
/// The reference is already paid for, and the references in the modifiers count as inside it.
///
/// The fault is `Modifier` if the modifiers can't be read. Then come the faults of applying them from
/// left to right, as for `expand`. The other error is that memory runs out.
pub fn modify(
    alloc: Global,
    variables: &Env,
    text: &str,
    modifiers: &str,
    budget: &mut Budget,
) -> Result<String, PureStop<FaultKind>>
    ensures later { IsLater budget.old budget.new }
    ensures gives { Modifies result budget.old budget.new variables.now modifiers.now text.now }
{
    let modifiers = read_modifiers(alloc, Some(modifiers), variables.profile())?;
    let text = String::from_str(alloc, text)?;
    let scope = ExpansionScope::outermost(variables).inside();
    apply_modifiers(alloc, scope, text, modifiers.as_slice(), budget)
}
