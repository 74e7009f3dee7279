//! The modifier `:S` applied to a value: one text in place of another.
ghost use Rattle.std.specs.Prelude.{◌<◌, ◌++◌, length};
ghost use Rattle.std.specs.List.{flat_map};
ghost use Rattle.mk_mods.specs.Actions.{symbols_of, AllPlain};
ghost use Rattle.mk_mods.specs.Substituted.{text_of, somewhere_replaced};
ghost use Rattle.mk_mods.specs.Made.{MakesText, FailsTooLong, MakesValue, FailsUnmade, MakesWord, FailsOverlong};
ghost use Rattle.mk_mods.specs.Made.{word_replaced, words_replaced, value_replaced, value_substituted, all_from_first};

use crate::bounded_words::add_word;
use crate::modifiers::{Part, Substitution};
use mk_text::{TextFault, add_text, words};
use std::alloc::Global;

/// What the modifier `:S`, whose parts have no reference, makes of the words of a value, joined by spaces.
pub(crate) fn join_substituted(
    alloc: Global,
    substitution: &Substitution,
    value: &str,
) -> Result<String, TextFault>
    requires old { AllPlain (flat_map symbols_of substitution.now.old.items) }
    requires new { AllPlain (flat_map symbols_of substitution.now.new.items) }
    ensures ok { MakesValue result (value_substituted substitution.now value.now) }
    ensures err { FailsUnmade result (value_substituted substitution.now value.now) }
{
    let old = text_of(alloc, &substitution.old, "")?;
    let new = text_of(alloc, &substitution.new, old.as_str())?;
    join_replaced(alloc, substitution, old.as_str(), new.as_str(), value)
}

/// What a substitution (`:S`) makes of a value if `old` and `new` are its old and its new text, already
/// expanded. The parts of the substitution don't matter, only where and how often it acts. If the old text is
/// empty, it acts only at an anchor. The words are split and joined as by `apply`.
///
/// The time is at most in proportion to the length of the old text times that of the value, plus that
/// of the result.
///
/// # Errors
///
/// `Length` if the result has more than 65,536 bytes; no longer text is made. `Memory` if memory runs
/// out.
pub fn substitute(
    alloc: Global,
    substitution: &Substitution,
    old: &str,
    new: &str,
    value: &str,
) -> Result<String, TextFault>
    ensures ok { MakesValue result (value_replaced substitution.now old.now new.now value.now) }
    ensures err { FailsUnmade result (value_replaced substitution.now old.now new.now value.now) }
{
    join_replaced(alloc, substitution, old, new, value)
}

/// The old or the new text of a substitution `:S`, by its parts, none of which is a reference. `Part::Whole`
/// means the old text.
fn text_of(alloc: Global, parts: &[Part], old: &str) -> Result<String, TextFault>
    requires { AllPlain (flat_map symbols_of parts.now) }
    ensures ok { MakesText result (text_of old.now (flat_map symbols_of parts.now)) }
    ensures err { FailsTooLong result (text_of old.now (flat_map symbols_of parts.now)) }
{
    let mut made = String::new(alloc);
    for part in parts {
        match part {
            Part::Text(text) => add_text(&mut made, text.as_str())?,
            Part::Whole => add_text(&mut made, old)?,
            Part::Reference(_) => unreachable!(),
        }
    }
    Ok(made)
}

/// The words of a value, joined by spaces, with the new text of a substitution `:S` in place of the old one.
fn join_replaced(
    alloc: Global,
    substitution: &Substitution,
    old: &str,
    new: &str,
    value: &str,
) -> Result<String, TextFault>
    ensures ok { MakesText result (words_replaced substitution.now old.now new.now value.now) }
    ensures err { FailsTooLong result (words_replaced substitution.now old.now new.now value.now) }
{
    let mut made = String::new(alloc);
    let mut done = false;
    for span in &words(alloc, value)? {
        let word = span.of(value);
        if done {
            add_word(&mut made, word)?;
            continue;
        }
        match replaced(alloc, substitution, old, new, word)? {
            Some(changed) => {
                add_word(&mut made, changed.as_str())?;
                done = substitution.once;
            }
            None => add_word(&mut made, word)?,
        }
    }
    Ok(made)
}

/// A word after a substitution `:S`: with the new text in place of the old one, where the anchors allow it.
/// It is `None` if the word doesn't match.
fn replaced(
    alloc: Global,
    substitution: &Substitution,
    old: &str,
    new: &str,
    word: &str,
) -> Result<Option<String>, TextFault>
    ensures ok { MakesWord result (word_replaced substitution.now old.now new.now word.now) }
    ensures err { FailsOverlong result (word_replaced substitution.now old.now new.now word.now) }
{
    match (substitution.starts, substitution.ends) {
        (true, true) => {
            if word == old {
                Ok(Some(joined(alloc, "", new, "")?))
            } else {
                Ok(None)
            }
        }
        (true, false) => match word.strip_prefix(old) {
            Some(behind) => Ok(Some(joined(alloc, "", new, behind)?)),
            None => Ok(None),
        },
        (false, true) => match word.strip_suffix(old) {
            Some(front) => Ok(Some(joined(alloc, front, new, "")?)),
            None => Ok(None),
        },
        (false, false) => somewhere_replaced(alloc, substitution.every, old, new, word),
    }
}

/// A word after a substitution `:S` without anchors: with the new text in place of the old one, at the first
/// place or at every one. It is `None` if the old text is nowhere in the word, or is empty.
fn somewhere_replaced(
    alloc: Global,
    every: bool,
    old: &str,
    new: &str,
    word: &str,
) -> Result<Option<String>, TextFault>
    ensures ok { MakesWord result (somewhere_replaced every old.now new.now word.now) }
    ensures err { FailsOverlong result (somewhere_replaced every old.now new.now word.now) }
{
    if old.is_empty() {
        return Ok(None);
    }
    match word.split_once(old) {
        None => Ok(None),
        Some((front, behind)) => {
            if every {
                Ok(Some(all_replaced(alloc, old, new, front, behind)?))
            } else {
                Ok(Some(joined(alloc, front, new, behind)?))
            }
        }
    }
}

/// A word after a substitution `:S` with the flag `g`: the new text in place of each old one, from the left.
/// `front` is the part of the word before the first old one, and `behind` is what follows that.
fn all_replaced(
    alloc: Global,
    old: &str,
    new: &str,
    front: &str,
    behind: &str,
) -> Result<String, TextFault>
    requires { 0 < length old.now }
    ensures ok { MakesText result (all_from_first old.now new.now front.now behind.now) }
    ensures err { FailsTooLong result (all_from_first old.now new.now front.now behind.now) }
{
    let mut made = joined(alloc, front, new, "")?;
    let mut rest = behind;
    while let Some((front, behind)) = rest.split_once(old) {
        add_text(&mut made, front)?;
        add_text(&mut made, new)?;
        rest = behind;
    }
    add_text(&mut made, rest)?;
    Ok(made)
}

/// A word that a substitution `:S` made: what is before a place of the old text, the new text, and what is
/// behind. It fails with `Length` if these are too long.
fn joined(alloc: Global, front: &str, new: &str, behind: &str) -> Result<String, TextFault>
    ensures ok { MakesText result (front.now ++ (new.now ++ behind.now)) }
    ensures err { FailsTooLong result (front.now ++ (new.now ++ behind.now)) }
{
    let mut made = String::new(alloc);
    add_text(&mut made, front)?;
    add_text(&mut made, new)?;
    add_text(&mut made, behind)?;
    Ok(made)
}
