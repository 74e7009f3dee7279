//! Variables of a port's makefile that are asked for its record, with the one budget of that.
ghost use Rattle.std.specs.Prelude.{◌≡◌, ◌++◌, map, option_map, string_bytes, IfOk};
ghost use Rattle.mk_text.specs.Words.{words_of};
ghost use Rattle.port_rules.specs.Values as values;
ghost use Rattle.port_rules.specs.Values.{GivesOwn, GivesText, GivesTextFor};
ghost use Rattle.port_rules.specs.Values.{GivesWords, GivesWordsFor, MayGive, MayGiveFor};

use mk_base::{Budget, FaultKind, PureStop};
use mk_env::{Env, expand_variable};
use mk_text::words;
use std::alloc::{AllocError, Global};

/// The value of a variable that is asked for a port's record; `None`, at no cost, if it isn't defined.
#[tactic(auto, unfolding(crate::specs::Values::value))]
pub(crate) fn value(
    alloc: Global,
    env: &Env,
    name: &str,
    budget: &mut Budget,
) -> Result<Option<String>, PureStop<FaultKind>>
    ensures { MayGive result (values.value env.now name.now) budget.old budget.new }
{
    if !env.defined(name) {
        return Ok(None);
    }
    let text = expand_variable(alloc, env, name, budget)?;
    Ok(Some(text))
}

/// The value of a variable that is asked for a port's record, or of another one if the first isn't defined.
#[tactic(auto, unfolding(crate::specs::Values::value_or))]
pub(crate) fn value_or(
    alloc: Global,
    env: &Env,
    name: &str,
    other: &str,
    budget: &mut Budget,
) -> Result<Option<String>, PureStop<FaultKind>>
    ensures { MayGive result (values.value_or env.now name.now other.now) budget.old budget.new }
{
    match value(alloc, env, name, budget)? {
        Some(text) => Ok(Some(text)),
        None => value(alloc, env, other, budget),
    }
}

/// The value of a variable for a package of a port: of the variable with the package's ending, or of the one
/// without if that isn't defined. For `-`, whose ending is empty, both are the same variable.
pub(crate) fn package_value(
    alloc: Global,
    env: &Env,
    name: &str,
    subpackage: &str,
    budget: &mut Budget,
) -> Result<Option<String>, PureStop<FaultKind>>
    ensures { MayGiveFor result env.now name.now subpackage.now budget.old budget.new }
{
    if subpackage == "-" {
        return value(alloc, env, name, budget);
    }
    let own = with_ending(alloc, name, subpackage)?;
    value_or(alloc, env, own.as_str(), name, budget)
}

/// The value of a variable of one package of a port alone: of the variable whose name has the package's
/// ending.
pub(crate) fn own_value(
    alloc: Global,
    env: &Env,
    name: &str,
    subpackage: &str,
    budget: &mut Budget,
) -> Result<Option<String>, PureStop<FaultKind>>
    ensures { GivesOwn result env.now name.now subpackage.now budget.old budget.new }
{
    if subpackage == "-" {
        return value(alloc, env, name, budget);
    }
    let own = with_ending(alloc, name, subpackage)?;
    value(alloc, env, own.as_str(), budget)
}

/// The name of a variable of one package of a port alone: with the package's ending.
fn with_ending(alloc: Global, name: &str, subpackage: &str) -> Result<String, AllocError>
    ensures { IfOk result (λ own. string_bytes own ≡ name.now ++ values.ending subpackage.now) }
{
    let ending = ending(subpackage);
    format!(in alloc; "{name}{ending}")
}

/// The ending of the names of the variables that one package of a port has alone.
pub(crate) fn ending(subpackage: &str) -> &str
    ensures { result.now ≡ values.ending subpackage.now }
{
    if subpackage == "-" { "" } else { subpackage }
}

/// The text of a variable that is asked for a port's record; empty if it isn't defined.
#[tactic(auto, unfolding(crate::specs::Values::asked_text))]
pub(crate) fn asked_text(
    alloc: Global,
    env: &Env,
    name: &str,
    budget: &mut Budget,
) -> Result<String, PureStop<FaultKind>>
    ensures { GivesText result (values.asked_text env.now name.now) budget.old budget.new }
{
    let found = value(alloc, env, name, budget)?;
    Ok(text_of(alloc, found))
}

/// The words of a variable that is asked for a port's record.
#[tactic(auto, unfolding(crate::specs::Values::asked_words))]
pub(crate) fn asked_words(
    alloc: Global,
    env: &Env,
    name: &str,
    budget: &mut Budget,
) -> Result<Vec<String>, PureStop<FaultKind>>
    ensures { GivesWords result (values.asked_words env.now name.now) budget.old budget.new }
{
    let found = value(alloc, env, name, budget)?;
    let text = text_of(alloc, found);
    Ok(words_in(alloc, text.as_str())?)
}

/// The words of a variable that is asked for a port's record, their letters lowered.
#[tactic(auto, unfolding(crate::specs::Values::lowercase_words))]
pub(crate) fn lowercase_words(
    alloc: Global,
    env: &Env,
    name: &str,
    budget: &mut Budget,
) -> Result<Vec<String>, PureStop<FaultKind>>
    ensures { GivesWords result (values.lowercase_words env.now name.now) budget.old budget.new }
{
    let found = value(alloc, env, name, budget)?;
    let text = text_of(alloc, found);
    let lowered = text.as_str().to_ascii_lowercase(alloc)?;
    Ok(words_in(alloc, lowered.as_str())?)
}

/// The text of a variable for a package of a port; empty if it isn't defined.
#[tactic(auto, unfolding(crate::specs::Values::package_text))]
pub(crate) fn package_text(
    alloc: Global,
    env: &Env,
    name: &str,
    subpackage: &str,
    budget: &mut Budget,
) -> Result<String, PureStop<FaultKind>>
    ensures { GivesTextFor result env.now name.now subpackage.now budget.old budget.new }
{
    let found = package_value(alloc, env, name, subpackage, budget)?;
    Ok(text_of(alloc, found))
}

/// The words of a variable for a package of a port.
#[tactic(auto, unfolding(crate::specs::Values::package_words))]
pub(crate) fn package_words(
    alloc: Global,
    env: &Env,
    name: &str,
    subpackage: &str,
    budget: &mut Budget,
) -> Result<Vec<String>, PureStop<FaultKind>>
    ensures { GivesWordsFor result env.now name.now subpackage.now budget.old budget.new }
{
    let found = package_value(alloc, env, name, subpackage, budget)?;
    let text = text_of(alloc, found);
    Ok(words_in(alloc, text.as_str())?)
}

/// The text of an asked variable's value; empty if there is none.
fn text_of(alloc: Global, found: Option<String>) -> String
    ensures { string_bytes result ≡ values.text_or_empty (option_map string_bytes found) }
{
    match found {
        Some(text) => text,
        None => String::new(alloc),
    }
}

/// The words of a variable's text, each a text of its own. It fails only if memory runs out.
pub fn words_in(alloc: Global, text: &str) -> Result<Vec<String>, AllocError>
    ensures { IfOk result (λ found. map string_bytes found.items ≡ words_of text.now) }
{
    let mut found = Vec::new(alloc);
    for span in &words(alloc, text)? {
        found.push(String::from_str(alloc, span.of(text))?)?;
    }
    Ok(found)
}
