//! The kind of a line that is an assignment: its operator, its name and its value.
ghost use Rattle.std.specs.Prelude.{◌≡◌, ◌==◌, ◌<◌, length, option_map, slice_index};
ghost use Rattle.std.specs.List.{list_any, position};
ghost use Rattle.mk_text.specs.Blanks.{is_blank};
ghost use Rattle.mk_ref.specs.Outside.{outside};
ghost use Rattle.mk_ast.specs.Kinds.{shown_kind, is_mark, is_operator_sign, is_word, operator_of, operator_start};
ghost use Rattle.mk_ast.specs.Kinds.{assignment_in, assignment_at};

use crate::kinds::{LineKind, Operator};
use mk_text::{is_blank, skip_blanks, trim_blanks};

/// Whether a byte of a line is one of the marks `:` and `!` that make a dependency.
fn is_mark(byte: u8) -> bool
    ensures { result ≡ is_mark byte }
{
    byte == b':' || byte == b'!'
}

/// Whether a line with these bytes before its `=` is no assignment: `:` or `!`, the marks that make a
/// dependency, is among them.
pub(crate) fn has_mark(bytes: &[u8]) -> bool
    ensures { result ≡ list_any is_mark bytes.now }
{
    bytes.iter().any(|byte| is_mark(*byte))
}

/// The assignment that a line of a makefile is, if it is one. `plain` is what of the line is outside
/// references.
pub(crate) fn assignment_in<'t>(text: &'t str, plain: &[u8]) -> Option<LineKind<'t>>
    requires { plain.now ≡ outside text.now }
    ensures { option_map shown_kind result ≡ assignment_in text.now }
{
    match first_equals(plain) {
        Some(at) => assignment_at(text, plain, at),
        None => None,
    }
}

/// The index of the first `=` in a line, if there is one: it may make the line an assignment.
fn first_equals(bytes: &[u8]) -> Option<usize>
    ensures { result ≡ position (λ b. b == 61) bytes.now }
{
    bytes.iter().position(|byte| *byte == b'=')
}

/// The assignment that a line of a makefile is, if it is one. The line's first `=` outside references is at
/// this index.
fn assignment_at<'t>(text: &'t str, plain: &[u8], at: usize) -> Option<LineKind<'t>>
    requires same { plain.now ≡ outside text.now }
    requires within { at < length text.now }
    requires equals { slice_index text.now at ≡ 61 }
    ensures { option_map shown_kind result ≡ assignment_at text.now at }
{
    // If the `=` comes first, this is the `=` itself, which isn't a sign.
    let before = at.saturating_sub(1);
    let sign = text.as_bytes()[before];
    let start = if is_sign(sign) { before } else { at };
    let name = trim_blanks(&text[..start]);
    if !is_word(name) || has_mark(&plain[..start]) {
        return None;
    }
    Some(LineKind::Assignment {
        operator: operator_of(sign),
        name,
        value: skip_blanks(&text[at + 1..]),
    })
}

/// Whether a text may be the name in an assignment: one word, so it isn't empty and has no blank (space or
/// tab).
pub fn is_word(text: &str) -> bool
    ensures { result ≡ is_word text.now }
{
    !text.is_empty() && !has_blank(text.as_bytes())
}

/// Whether a blank is among the bytes of an assignment's name.
fn has_blank(bytes: &[u8]) -> bool
    ensures { result ≡ list_any is_blank bytes.now }
{
    bytes.iter().any(|byte| is_blank(*byte))
}

/// Whether a byte before the `=` of an assignment belongs to its operator.
fn is_sign(byte: u8) -> bool
    ensures { result ≡ is_operator_sign byte }
{
    byte == b'?' || byte == b'+' || is_mark(byte)
}

/// The operator of an assignment whose `=` has this byte before it, as `+=`.
fn operator_of(byte: u8) -> Operator
    ensures { result ≡ operator_of byte }
{
    match byte {
        b'?' => Operator::Default,
        b'+' => Operator::Append,
        b':' => Operator::Expand,
        b'!' => Operator::Shell,
        _ => Operator::Set,
    }
}
