//! The kind of a line that is a directive: its word, and what follows that.
ghost use Rattle.std.specs.Prelude.{◌≡◌, option_map};
ghost use Rattle.std.specs.List.{prefix_len};
ghost use Rattle.std.specs.Char.{is_ascii_alphabetic};
ghost use Rattle.mk_ast.specs.Kinds.{shown_kind, directive_in, directive_after_dot, directive_named};

use crate::kinds::{Directive, LineKind};
use mk_text::skip_blanks;

/// The directive that a line of a makefile is, if it is one: a dot, any blanks, and a directive's word as the
/// longest run of letters.
pub(crate) fn directive_in(text: &str) -> Option<LineKind<'_>>
    ensures { option_map shown_kind result ≡ directive_in text.now }
{
    match text.strip_prefix('.') {
        Some(after_dot) => directive_after_dot(skip_blanks(after_dot)),
        None => None,
    }
}

/// The directive whose word begins this text, which follows the dot of a line, if there is one.
fn directive_after_dot(text: &str) -> Option<LineKind<'_>>
    ensures { option_map shown_kind result ≡ directive_after_dot text.now }
{
    let end = letters(text.as_bytes());
    match directive_named(&text[..end]) {
        Some(word) => Some(LineKind::Directive {
            word,
            rest: &text[end..],
        }),
        None => None,
    }
}

/// How many ASCII letters the text after a directive's dot begins with: these are its word.
fn letters(bytes: &[u8]) -> usize
    ensures { result ≡ prefix_len is_ascii_alphabetic bytes.now }
{
    for (at, byte) in bytes.iter().enumerate() {
        if !byte.is_ascii_alphabetic() {
            return at;
        }
    }
    bytes.len()
}

/// The directive with this word, as `if` or `include`, if there is one.
fn directive_named(word: &str) -> Option<Directive>
    ensures { result ≡ directive_named word.now }
{
    match word {
        "if" => Some(Directive::If),
        "ifdef" => Some(Directive::Ifdef),
        "ifndef" => Some(Directive::Ifndef),
        "ifmake" => Some(Directive::Ifmake),
        "ifnmake" => Some(Directive::Ifnmake),
        "elif" => Some(Directive::Elif),
        "elifdef" => Some(Directive::Elifdef),
        "elifndef" => Some(Directive::Elifndef),
        "elifmake" => Some(Directive::Elifmake),
        "elifnmake" => Some(Directive::Elifnmake),
        "else" => Some(Directive::Else),
        "endif" => Some(Directive::Endif),
        "for" => Some(Directive::For),
        "endfor" => Some(Directive::Endfor),
        "include" => Some(Directive::Include),
        "sinclude" => Some(Directive::Sinclude),
        "undef" => Some(Directive::Undef),
        _ => None,
    }
}
