//! The kind of a line of a makefile: command, directive, assignment, dependency, blank or bad.
ghost use Rattle.std.specs.Prelude.{◌≡◌, IfOk};
ghost use Rattle.mk_ast.specs.Kinds.{shown_kind, line_kind, plain_kind};

use crate::assignments::{assignment_in, has_mark};
use crate::directives::directive_in;
use crate::kinds::LineKind;
use mk_ref::outside;
use mk_text::trim_blanks;
use std::alloc::{AllocError, Global};

/// The kind of a logical line of a makefile. Blanks are spaces and tabs.
///
/// - `Command`: it begins with a tab.
/// - `Directive`: it begins with a dot, any blanks, and a directive's word as the longest run of ASCII
///   letters there. No blank need follow it: `.if(1)` is a directive, and `.ifx` and `.IF` are not.
/// - Any other line has its `plain_kind`.
///
/// The time is linear in the length of `text`.
///
/// # Errors
///
/// `AllocError` if memory runs out, either for the places of the references or for a copy of the line
/// without them.
#[tactic(auto, unfolding(crate::specs::Kinds::line_kind))]
pub fn line_kind(alloc: Global, text: &str) -> Result<LineKind<'_>, AllocError>
    ensures { IfOk result (λ kind. shown_kind kind ≡ line_kind text.now) }
{
    if text.starts_with('\t') {
        return Ok(LineKind::Command);
    }
    match directive_in(text) {
        Some(directive) => Ok(directive),
        None => plain_kind(alloc, text),
    }
}

/// The kind of a line of a makefile that can be neither a command nor a directive, such as a line of a loop's
/// body into which words were put. It is the first of these kinds that fits. Blanks are spaces and tabs.
///
/// - `Blank`: it holds nothing but blanks.
/// - `Assignment`: the first `=` outside references, with one of `? + : !` directly before it or none,
///   follows one word, which has no `:` or `!` outside references. Blanks may come before the word and
///   after it. A word holds no blank, not even in a reference.
/// - `Dependency`: it has a `:` or `!` outside references.
/// - `Bad`: any other line.
///
/// A reference that doesn't end reaches to the end of the line. The time is linear in the length of
/// `text`.
///
/// # Errors
///
/// `AllocError` if memory runs out, either for the places of the references or for a copy of the line
/// without them.
#[tactic(auto, unfolding(crate::specs::Kinds::plain_kind))]
pub fn plain_kind(alloc: Global, text: &str) -> Result<LineKind<'_>, AllocError>
    ensures { IfOk result (λ kind. shown_kind kind ≡ plain_kind text.now) }
{
    if trim_blanks(text).is_empty() {
        return Ok(LineKind::Blank);
    }
    let plain = outside(alloc, text)?;
    match assignment_in(text, plain.as_slice()) {
        Some(assignment) => Ok(assignment),
        None if has_mark(plain.as_slice()) => Ok(LineKind::Dependency),
        None => Ok(LineKind::Bad),
    }
}
