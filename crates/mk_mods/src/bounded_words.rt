//! The words that modifiers make, joined within the limit of a text.
ghost use Rattle.std.specs.Prelude.{◌≤◌, length, string_bytes};
ghost use Rattle.mk_mods.specs.Made.{AddsWord, FailsToAdd};

use mk_text::{TEXT_LIMIT, TextFault, add_text};

/// Adds a word that a modifier made or kept to the words before it, which are joined by single spaces, unless
/// the word is empty. If the whole would then be too long, it fails with `Length`; if memory runs out, it
/// fails with `Memory`.
pub(crate) fn add_word(made: &mut String, word: &str) -> Result<(), TextFault>
    requires { length (string_bytes made.old) ≤ TEXT_LIMIT }
    ensures ok { AddsWord result made.old made.new word.now }
    ensures err { FailsToAdd result made.old word.now }
{
    if word.is_empty() {
        return Ok(());
    }
    if !made.is_empty() {
        add_text(made, " ")?;
    }
    add_text(made, word)
}
