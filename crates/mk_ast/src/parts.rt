//! The part that a line is of the frame of a block, as `.if`, `.else` or `.endfor`, or that it is none.
ghost use Rattle.std.specs.Prelude.{◌≡◌};
ghost use Rattle.mk_text.specs.Lines.{LogicalLine};
ghost use Rattle.mk_ast.specs.Kinds.{shown_kind};
ghost use Rattle.mk_ast.specs.Parts.{part_of, part_by, part_with};
ghost use Rattle.mk_ast.specs.FrameParts.{shown_part};

use crate::directives::directive_in;
use crate::kinds::{Directive, LineKind};
use mk_text::Logical;

/// A part that divides or closes the block that it is in.
#[derive(Debug, Clone, Copy, PartialEq, Eq)]
pub(crate) enum InnerPart {
    /// A form of `.elif`.
    Elif,
    /// `.else`
    Else,
    /// `.endif`, which closes a choice.
    Endif,
    /// `.endfor`, which closes a loop.
    Endfor,
}

/// A part of a block's frame, or any other line.
#[derive(Debug, Clone, Copy, PartialEq, Eq)]
pub(crate) enum FramePart {
    /// A form of `.if`, which opens a choice.
    If,
    /// `.for`, which opens a loop.
    For,
    /// A part inside a block.
    Inner(InnerPart),
    /// Any other line.
    Plain,
}

/// The part of a block's frame that a line of a makefile is, as `.if` or `.endfor`, or `Plain`.
pub(crate) fn part_of(line: &Logical) -> FramePart
    ensures { shown_part result line.now ≡ part_of line.now }
{
    match directive_in(line.text()) {
        Some(kind) => part_by(kind),
        None => FramePart::Plain,
    }
}

/// The part of a block's frame that a line of this kind is; a line that is no directive is `Plain`.
fn part_by(kind: LineKind) -> FramePart
    ensures { (line : LogicalLine) → shown_part result line ≡ part_by line (shown_kind kind.entry) }
{
    match kind {
        LineKind::Directive { word, rest: _ } => part_with(word),
        _ => FramePart::Plain,
    }
}

/// The part of a block's frame that a directive makes of its line; `.include`, `.sinclude` and `.undef` make
/// none.
fn part_with(word: Directive) -> FramePart
    ensures { (line : LogicalLine) → shown_part result line ≡ part_with line word }
{
    match word {
        Directive::If
        | Directive::Ifdef
        | Directive::Ifndef
        | Directive::Ifmake
        | Directive::Ifnmake => FramePart::If,
        Directive::Elif
        | Directive::Elifdef
        | Directive::Elifndef
        | Directive::Elifmake
        | Directive::Elifnmake => FramePart::Inner(InnerPart::Elif),
        Directive::Else => FramePart::Inner(InnerPart::Else),
        Directive::Endif => FramePart::Inner(InnerPart::Endif),
        Directive::For => FramePart::For,
        Directive::Endfor => FramePart::Inner(InnerPart::Endfor),
        Directive::Include | Directive::Sinclude | Directive::Undef => FramePart::Plain,
    }
}
