//! The pieces of a text: literals, `$$` pairs and references, as places in it.
ghost use Rattle.std.specs.Prelude.{◌≡◌, ◌<◌, ◌≤◌, ◌+◌, ◌^◌, [], ◌∷◌, ◌++◌, length, drop, map, All, Some, IfOk, IfErr, OnOk};
ghost use Rattle.refusals.specs.Refused.{refused};
ghost use Rattle.std.specs.Option.{ForSome};
ghost use Rattle.mk_ref.specs.declared.pieces_of_text.PiecesFault.TheVariants as faults;
ghost use Rattle.mk_ref.specs.Atoms.{opening_of, atoms_of, left_of};
ghost use Rattle.mk_ref.specs.Pieces.{pieces_of};
ghost use Rattle.mk_ref.specs.Places.{piece_in_text, span_of_piece, FollowFrom, IsPieceIn, IsFaultOf};
ghost use Rattle.mk_ref.specs.Firsts.{literal_at, reference_at, BeginsAt};

use crate::ends::{Inside, inside_from};
use crate::opening::{Opening, opening_at};
use mk_text::Span;
use refusals::OutOfMemory;
use std::alloc::{AllocError, Global};
use thiserror::Error;

/// A piece of a text, as places in it.
#[derive(Debug, Clone, Copy, PartialEq, Eq)]
pub enum Piece {
    /// Text that means itself, at least one byte.
    Literal(Span),
    /// `$$`, which means one dollar.
    EscapedDollar(Span),
    /// A reference to a variable.
    Reference(Reference),
}

/// The places of a reference to a variable: `${NAME}`, `${NAME:MODIFIERS}`, the same in parentheses,
/// or `$X` with one ASCII letter.
#[derive(Debug, Clone, Copy, PartialEq, Eq)]
pub struct Reference {
    /// All of it, from its `$` to its closing mark.
    pub whole: Span,
    /// Its name, which may be empty and may hold references.
    pub name: Span,
    /// Its modifiers: what follows its colon, up to its closing mark. They may be empty and may hold
    /// references. `None` if it has no colon.
    pub modifiers: Option<Span>,
}

/// Why a text has no pieces.
#[derive(Debug, Clone, Copy, PartialEq, Eq, Error)]
pub enum PiecesFault {
    /// A reference doesn't end.
    #[error("the reference at byte {at} doesn't end")]
    Unclosed {
        /// The index of the `$` that begins the outermost such reference.
        at: usize,
    },
    /// Memory ran out.
    #[error("out of memory")]
    Memory(OutOfMemory),
}

impl From<AllocError> for PiecesFault {
    ghost from_gives = { λ _ fault. fault ≡ faults.Memory refused };

    /// If an allocation is refused, a text isn't cut into pieces, and the fault is `Memory`.
    fn from(error: AllocError) -> PiecesFault {
        PiecesFault::Memory(OutOfMemory::from(error))
    }
}

impl Piece {
    /// The index after the last byte of a piece of a text: of a literal, a `$$` pair or a reference.
    fn end(&self) -> usize
        ensures { result ≡ (span_of_piece self.now).end }
    {
        match self {
            Piece::Literal(span) | Piece::EscapedDollar(span) => span.end,
            Piece::Reference(reference) => reference.whole.end,
        }
    }
}

/// The pieces of a text, from left to right: literals, pairs and references. Each directly follows the
/// one before it, from the beginning of the text to its end.
///
/// `$$` is a pair. `${` and `$(` begin a reference, which ends at the first `}`, or `)`, outside the
/// references inside it; a pair inside is passed over. Its name goes up to the first `:` outside inner
/// references, and its modifiers are what follows that `:`. A `$` with an ASCII letter after it is a
/// reference whose name is this letter. Any other `$` is itself, also at the end of the text.
///
/// The time is linear in the length of `text`.
///
/// # Errors
///
/// `Unclosed` if a reference doesn't end. `Memory` if memory runs out, either for the pieces or for the
/// marks of references that are one inside another.
pub fn pieces(alloc: Global, text: &str) -> Result<Vec<Piece>, PiecesFault>
    ensures pieces { IfOk result (λ found. map (piece_in_text text.now) found.items
        ≡ pieces_of (atoms_of text.now)) }
    ensures whole { IfOk result (λ found. left_of text.now ≡ []) }
    ensures order { IfOk result (λ found. FollowFrom 0 found.items (length text.now)) }
    ensures places { IfOk result (λ found. All (IsPieceIn text.now) found.items) }
    ensures fault { IfErr result (IsFaultOf text.now) }
{
    let bytes = text.as_bytes();
    let mut found = Vec::new(alloc);
    let mut literal = 0;
    let mut at = 0;
    while at < bytes.len() {
        let Some(opening) = opening_at(bytes, at) else {
            at += 1;
            continue;
        };
        let Some(piece) = piece_at(alloc, text, at, opening)? else {
            return Err(PiecesFault::Unclosed { at });
        };
        push_literal(&mut found, literal, at)?;
        push(&mut found, piece)?;
        at = piece.end();
        literal = at;
    }
    push_literal(&mut found, literal, at)?;
    Ok(found)
}

/// Adds the literal at this place of the text to its pieces, unless the literal is empty.
fn push_literal(found: &mut Vec<Piece>, start: usize, end: usize) -> Result<(), AllocError>
    ensures { OnOk result (found.new.items ≡ found.old.items ++ literal_at start end) }
{
    if start < end {
        push(found, Piece::Literal(Span { start, end }))?;
    }
    Ok(())
}

/// Adds a piece of a text to those found so far.
fn push(found: &mut Vec<Piece>, piece: Piece) -> Result<(), AllocError>
    ensures { OnOk result (found.new.items ≡ found.old.items ++ piece ∷ []) }
{
    found.push(piece)?;
    Ok(())
}

/// The piece of a text that `opening` begins at `at`: a `$$` pair or a reference. It is `None` if it is a
/// reference that doesn't end.
fn piece_at(
    alloc: Global,
    text: &str,
    at: usize,
    opening: Opening,
) -> Result<Option<Piece>, AllocError>
    requires room { at + 2 ≤ length text.now }
    requires opens { opening_of (drop at text.now) ≡ Some opening }
    ensures { IfOk result (BeginsAt text.now at) }
{
    let two = Span {
        start: at,
        end: at + 2,
    };
    match opening {
        Opening::Doubled => Ok(Some(Piece::EscapedDollar(two))),
        Opening::Letter => Ok(Some(Piece::Reference(Reference {
            whole: two,
            name: Span {
                start: at + 1,
                end: at + 2,
            },
            modifiers: None,
        }))),
        Opening::Marked(closing) => {
            match inside_from(alloc, text.as_bytes(), at + 2, closing)? {
                Some(inside) => Ok(Some(Piece::Reference(reference_at(at, inside)))),
                None => Ok(None),
            }
        }
    }
}

/// The places of the reference that begins at `at` with a mark and has this inside: of all of it, its name
/// and its modifiers.
fn reference_at(at: usize, inside: Inside) -> Reference
    requires start { at + 2 < 2 ^ 64 }
    requires close { inside.close + 1 < 2 ^ 64 }
    requires colon { ForSome inside.colon (λ colon. colon < inside.close) }
    ensures { result ≡ reference_at at inside }
{
    let Inside { colon, close } = inside;
    let (name_end, modifiers) = match colon {
        Some(colon) => (
            colon,
            Some(Span {
                start: colon + 1,
                end: close,
            }),
        ),
        None => (close, None),
    };
    Reference {
        whole: Span {
            start: at,
            end: close + 1,
        },
        name: Span {
            start: at + 2,
            end: name_end,
        },
        modifiers,
    }
}
