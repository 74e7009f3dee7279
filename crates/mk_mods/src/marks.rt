//! The marks of a text of modifiers: its characters, its `$$` pairs and its references.
ghost use Rattle.std.specs.Prelude.{◌≡◌, map, Some, IfOk, IfErr};
ghost use Rattle.std.specs.Str.{chars};
ghost use Rattle.mk_ref.specs.Places.{piece_in_text, IsPieceIn};
ghost use Rattle.mk_mods.specs.Marks.{marks_of, piece_marks, is_char, mark_source, Char};
ghost use Rattle.mk_mods.specs.Views.{shown_mark, IsUnread, AddsText, AddsMarks};

use crate::modifier_lists::ModsFault;
use mk_ref::{Piece, pieces};
use std::alloc::{AllocError, Global};

/// A character outside references, a pair, or a reference.
#[derive(Debug, Clone, Copy)]
pub(crate) enum Mark<'t> {
    /// A character outside references and pairs.
    Char(char),
    /// `$$`.
    EscapedDollar,
    /// A reference, as it is written.
    Reference(&'t str),
}

impl Mark<'_> {
    /// Whether a mark of a text of modifiers is this character.
    pub(crate) fn is(&self, character: char) -> bool
        ensures { result ≡ is_char character (shown_mark self.now) }
    {
        match self {
            Mark::Char(own) => *own == character,
            Mark::EscapedDollar | Mark::Reference(_) => false,
        }
    }

    /// Adds a mark of a text of modifiers to another text, as it is written.
    pub(crate) fn write_to(&self, text: &mut String) -> Result<(), AllocError>
        ensures { AddsText result text.old text.new (mark_source (shown_mark self.now)) }
    {
        match self {
            Mark::Char(own) => text.push(*own),
            Mark::EscapedDollar => text.push_str("$$"),
            Mark::Reference(source) => text.push_str(source),
        }
    }
}

/// The marks of a text of modifiers, from left to right: characters, `$$` pairs and references. It fails with
/// `BadMod` if a reference doesn't end.
pub(crate) fn marks(alloc: Global, text: &str) -> Result<Vec<Mark<'_>>, ModsFault>
    ensures ok { IfOk result (λ marks. marks_of text.now ≡ Some (map shown_mark marks.items)) }
    ensures err { IfErr result (IsUnread (marks_of text.now)) }
{
    let mut marks = Vec::new(alloc);
    for piece in &pieces(alloc, text)? {
        push_piece(&mut marks, piece, text)?;
    }
    Ok(marks)
}

/// Adds the marks of a piece of a text of modifiers: its characters, or a `$$` pair or a reference as one
/// mark.
fn push_piece<'t>(marks: &mut Vec<Mark<'t>>, piece: &Piece, text: &'t str) -> Result<(), AllocError>
    requires { IsPieceIn text.now piece.now }
    ensures { AddsMarks result marks.old marks.new (piece_marks (piece_in_text text.now piece.now)) }
{
    match piece {
        Piece::Literal(span) => push_chars(marks, span.of(text))?,
        Piece::EscapedDollar(_) => marks.push(Mark::EscapedDollar)?,
        Piece::Reference(reference) => marks.push(Mark::Reference(reference.whole.of(text)))?,
    }
    Ok(())
}

/// Adds each character of a literal as a mark of a text of modifiers.
fn push_chars(marks: &mut Vec<Mark<'_>>, literal: &str) -> Result<(), AllocError>
    ensures { AddsMarks result marks.old marks.new (map Char (chars literal.now)) }
{
    for character in literal.chars() {
        marks.push(Mark::Char(character))?;
    }
    Ok(())
}
