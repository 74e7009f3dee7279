//! What a modifier makes of one word: `:R`, `:E`, `:H`, `:T`, `:L`, `:U` and `old=new`.
ghost use Rattle.std.specs.Prelude.{◌≡◌, ◌≤◌, ◌++◌, length, string_bytes};
ghost use Rattle.mk_mods.specs.Made.{AddsWord, FailsToAdd};
ghost use Rattle.mk_mods.specs.WordChanges.{word_change, with_suffix};
ghost use Rattle.mk_mods.specs.Views.{changed_word};
ghost use Rattle.mk_mods.specs.declared.modifiers.WordMap.TheVariants as maps;

use crate::bounded_words::add_word;
use crate::modifiers::WordMap;
use mk_text::{TEXT_LIMIT, TextFault, add_text};
use std::alloc::Global;

/// What is made of each word: by a modifier of one letter, or by `old=new`.
#[derive(Debug, Clone, Copy)]
pub(crate) enum WordChange<'t> {
    /// What the modifier of a letter makes of it.
    Map(WordMap),
    /// The word with the second text in place of the first, if it ends in that one.
    Suffix(&'t str, &'t str),
}

/// What the modifier `:R` makes of a word: what comes before its last dot; without a dot, the word.
fn root(word: &str) -> &str
    ensures { result.now ≡ word_change maps.Root word.now }
{
    match word.rsplit_once('.') {
        Some((root, _)) => root,
        None => word,
    }
}

/// What the modifier `:E` makes of a word: what follows its last dot; without a dot, nothing.
fn extension(word: &str) -> &str
    ensures { result.now ≡ word_change maps.Extension word.now }
{
    match word.rsplit_once('.') {
        Some((_, extension)) => extension,
        None => "",
    }
}

/// What the modifier `:H` makes of a word: what comes before its last slash, or a slash if that is nothing;
/// without a slash, a dot.
fn head(word: &str) -> &str
    ensures { result.now ≡ word_change maps.Head word.now }
{
    match word.rsplit_once('/') {
        Some((head, _)) => { if head.is_empty() { "/" } else { head } }
        None => ".",
    }
}

/// What the modifier `:T` makes of a word: what follows its last slash; without a slash, the word.
fn tail(word: &str) -> &str
    ensures { result.now ≡ word_change maps.Tail word.now }
{
    match word.rsplit_once('/') {
        Some((_, tail)) => tail,
        None => word,
    }
}

/// Adds what the modifier of a letter, or `old=new`, makes of a word to the words before it, which are joined
/// by single spaces.
pub(crate) fn add_changed(
    alloc: Global,
    made: &mut String,
    change: WordChange<'_>,
    word: &str,
) -> Result<(), TextFault>
    requires { length (string_bytes made.old) ≤ TEXT_LIMIT }
    ensures ok { AddsWord result made.old made.new (changed_word change.entry word.now) }
    ensures err { FailsToAdd result made.old (changed_word change.entry word.now) }
{
    match change {
        WordChange::Map(map) => add_mapped(alloc, made, map, word),
        WordChange::Suffix(old, new) => add_with_suffix(made, old, new, word),
    }
}

/// Adds what the modifier `old=new` makes of a word: the word, with the new text in place of the old one if
/// it ends in that.
fn add_with_suffix(made: &mut String, old: &str, new: &str, word: &str) -> Result<(), TextFault>
    requires { length (string_bytes made.old) ≤ TEXT_LIMIT }
    ensures ok { AddsWord result made.old made.new (with_suffix old.now new.now word.now) }
    ensures err { FailsToAdd result made.old (with_suffix old.now new.now word.now) }
{
    match word.strip_suffix(old) {
        Some(front) => add_two(made, front, new),
        None => add_word(made, word),
    }
}

/// Adds the word that `old=new` makes of two texts: what the word has before its suffix, and the new suffix.
fn add_two(made: &mut String, front: &str, new: &str) -> Result<(), TextFault>
    requires { length (string_bytes made.old) ≤ TEXT_LIMIT }
    ensures ok { AddsWord result made.old made.new (front.now ++ new.now) }
    ensures err { FailsToAdd result made.old (front.now ++ new.now) }
{
    if front.is_empty() {
        return add_word(made, new);
    }
    add_word(made, front)?;
    add_text(made, new)
}

/// Adds what the modifier of a letter, as `:R` or `:L`, makes of a word to the words before it.
fn add_mapped(alloc: Global, made: &mut String, map: WordMap, word: &str) -> Result<(), TextFault>
    requires { length (string_bytes made.old) ≤ TEXT_LIMIT }
    ensures ok { AddsWord result made.old made.new (word_change map word.now) }
    ensures err { FailsToAdd result made.old (word_change map word.now) }
{
    match map {
        WordMap::Root => add_word(made, root(word)),
        WordMap::Extension => add_word(made, extension(word)),
        WordMap::Head => add_word(made, head(word)),
        WordMap::Tail => add_word(made, tail(word)),
        WordMap::Lower => add_word(made, word.to_ascii_lowercase(alloc)?.as_str()),
        WordMap::Upper => add_word(made, word.to_ascii_uppercase(alloc)?.as_str()),
    }
}
