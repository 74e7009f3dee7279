//! Modifiers of references applied to values.
ghost use Rattle.mk_mods.specs.Actions.{action_of, IsExpanded};
ghost use Rattle.mk_mods.specs.Applied.{applied};
ghost use Rattle.mk_mods.specs.Joined.{joined};
ghost use Rattle.mk_mods.specs.Made.{MakesText, FailsTooLong, MakesValue, FailsUnmade, kept_words, changed_words};

use crate::bounded_words::add_word;
use crate::modifiers::Modifier;
use crate::substitution::join_substituted;
use crate::word_maps::{WordChange, add_changed};
use mk_glob::glob;
use mk_text::{TextFault, words};
use std::alloc::Global;

/// What a modifier of a reference makes of a value. No part of the modifier may be a reference
/// (`Modifier::is_expanded`).
///
/// The value is split into words at blanks (spaces and tabs). `Match` keeps the words that match the
/// pattern, and `Exclude` those that don't. The other modifiers make something of each word. The words
/// are then joined by single spaces, and those that became empty are left out.
///
/// The time is at most in proportion to the length of the pattern, or of the old text, times that of
/// the value, plus that of the result.
///
/// # Errors
///
/// `Length` if the result, or the old or the new text of a substitution, has more than 65,536 bytes; no
/// longer text is made. `Memory` if memory runs out.
pub fn apply(alloc: Global, modifier: &Modifier, value: &str) -> Result<String, TextFault>
    requires { IsExpanded (action_of modifier.now) }
    ensures ok { MakesValue result (applied (action_of modifier.now) value.now) }
    ensures err { FailsUnmade result (applied (action_of modifier.now) value.now) }
{
    match modifier {
        Modifier::Match(pattern) => join_kept(alloc, pattern.as_str(), true, value),
        Modifier::Exclude(pattern) => join_kept(alloc, pattern.as_str(), false, value),
        Modifier::Substitute(substitution) => join_substituted(alloc, substitution, value),
        Modifier::Change(map) => join_changed(alloc, WordChange::Map(*map), value),
        Modifier::Suffix { old, new } => {
            let suffix = WordChange::Suffix(old.as_str(), new.as_str());
            join_changed(alloc, suffix, value)
        }
    }
}

/// What `:M` or `:N` makes of a value: the words that match a pattern, or those that don't, joined by spaces.
fn join_kept(alloc: Global, pattern: &str, matching: bool, value: &str) -> Result<String, TextFault>
    ensures ok { MakesText result (joined (kept_words matching pattern.now value.now)) }
    ensures err { FailsTooLong result (joined (kept_words matching pattern.now value.now)) }
{
    let mut made = String::new(alloc);
    for span in &words(alloc, value)? {
        let word = span.of(value);
        if glob(pattern, word) == matching {
            add_word(&mut made, word)?;
        }
    }
    Ok(made)
}

/// What a modifier that changes each word, as `:T` or `old=new`, makes of a value: the changed words, joined
/// by spaces.
fn join_changed(alloc: Global, change: WordChange<'_>, value: &str) -> Result<String, TextFault>
    ensures ok { MakesText result (joined (changed_words change.entry value.now)) }
    ensures err { FailsTooLong result (joined (changed_words change.entry value.now)) }
{
    let mut made = String::new(alloc);
    for span in &words(alloc, value)? {
        add_changed(alloc, &mut made, change, span.of(value))?;
    }
    Ok(made)
}
