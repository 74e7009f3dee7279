//! What of a text is outside its references and `$$` pairs.
ghost use Rattle.std.specs.Prelude.{◌≡◌, ◌++◌, map, All, IfOk, OnOk};
ghost use Rattle.std.specs.List.{flat_map};
ghost use Rattle.mk_ref.specs.Places.{piece_in_text, IsPieceIn, IsUnclosedAt};
ghost use Rattle.mk_ref.specs.Outside.{outside, dollars, covered_piece};

use crate::pieces_of_text::{Piece, PiecesFault, pieces};
use std::alloc::{AllocError, Global};

/// The bytes of `text` that are outside references, with a dollar in place of each byte of references and
/// `$$` pairs. A reference that doesn't end reaches to the end of the text, and dollars replace it too. Every
/// other byte is the text's own, at its own place, so what is found in these bytes can be cut out of the text
/// there. The time is linear in the length of `text`.
///
/// # Errors
///
/// `AllocError` if memory runs out, either for the bytes or for the places of the references.
pub fn outside(alloc: Global, text: &str) -> Result<Vec<u8>, AllocError>
    ensures { IfOk result (λ bytes. bytes.items ≡ outside text.now) }
{
    match pieces(alloc, text) {
        Ok(found) => covered(alloc, text, found.as_slice()),
        Err(PiecesFault::Unclosed { at }) => outside_up_to(alloc, text, at),
        Err(PiecesFault::Memory(refused)) => Err(refused.into()),
    }
}

/// The bytes of a text that are outside references, if the reference that begins at `at` is the first that
/// doesn't end. Dollars replace all from there on.
fn outside_up_to(alloc: Global, text: &str, at: usize) -> Result<Vec<u8>, AllocError>
    requires { IsUnclosedAt text.now at }
    ensures { IfOk result (λ bytes. bytes.items ≡ outside text.now) }
{
    let front = &text[..at];
    match pieces(alloc, front) {
        Ok(found) => {
            let mut bytes = covered(alloc, front, found.as_slice())?;
            push_dollars(&mut bytes, &text[at..])?;
            Ok(bytes)
        }
        // Before the first reference that doesn't end, each reference ends.
        Err(PiecesFault::Unclosed { at: _ }) => unreachable!(),
        Err(PiecesFault::Memory(refused)) => Err(refused.into()),
    }
}

/// The bytes of pieces of a text, with dollars over references and `$$` pairs.
fn covered(alloc: Global, text: &str, found: &[Piece]) -> Result<Vec<u8>, AllocError>
    requires { All (IsPieceIn text.now) found.now }
    ensures { IfOk result (λ bytes. bytes.items
        ≡ flat_map covered_piece (map (piece_in_text text.now) found.now)) }
{
    let mut bytes = Vec::new(alloc);
    for piece in found {
        push_piece(&mut bytes, piece, text)?;
    }
    Ok(bytes)
}

/// Adds the bytes of a piece of a text that is outside references, or dollars in place of a reference or a
/// `$$` pair.
fn push_piece(bytes: &mut Vec<u8>, piece: &Piece, text: &str) -> Result<(), AllocError>
    requires { IsPieceIn text.now piece.now }
    ensures { OnOk result (bytes.new.items ≡ bytes.old.items
        ++ covered_piece (piece_in_text text.now piece.now)) }
{
    match piece {
        Piece::Literal(span) => bytes.extend_from_slice(span.of(text).as_bytes()),
        Piece::EscapedDollar(_) => bytes.extend_from_slice(b"$$"),
        Piece::Reference(reference) => push_dollars(bytes, reference.whole.of(text)),
    }
}

/// Adds a dollar in place of each byte of a reference.
fn push_dollars(bytes: &mut Vec<u8>, text: &str) -> Result<(), AllocError>
    ensures { OnOk result (bytes.new.items ≡ bytes.old.items ++ dollars text.now) }
{
    for _ in text.as_bytes() {
        bytes.push(b'$')?;
    }
    Ok(())
}
