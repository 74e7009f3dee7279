//! Texts to be expanded, cut at their references, and each reference as it is mentioned: its name and its
//! modifiers.
ghost use Rattle.std.specs.Prelude.{◌≡◌, [], All, string_bytes, IfOk, IfErr};
ghost use Rattle.mk_text.specs.Words.{span_text};
ghost use Rattle.mk_ref.specs.Atoms.{left_of};
ghost use Rattle.mk_ref.specs.Places.{IsPieceIn, IsReferenceIn};
ghost use Rattle.mk_env.specs.Mentions.{HasModifiersOf, GivesPieces};
ghost use Rattle.mk_env.specs.Refusals.{IsUncut};

use mk_base::{FaultKind, PureStop};
use mk_ref::{Piece, PiecesFault, Reference, pieces};
use std::alloc::{AllocError, Global};

/// A reference by its texts.
#[derive(Clone, Copy, Debug)]
pub(crate) struct Mention<'a> {
    /// All that it is written as.
    pub(crate) written: &'a str,
    /// Its name, which may have references in it.
    pub(crate) name: &'a str,
    /// Its modifiers, if it has a colon.
    pub(crate) modifiers: Option<&'a str>,
}

/// The texts of a reference that this text mentions: all of it, its name and its modifiers.
pub(crate) fn mentioned<'a>(text: &'a str, reference: &Reference) -> Mention<'a>
    requires { IsReferenceIn text.now reference.now }
    ensures written { result.written.now ≡ span_text text.now reference.now.whole }
    ensures name { result.name.now ≡ span_text text.now reference.now.name }
    ensures modifiers { HasModifiersOf result text.now reference.now }
{
    let modifiers = match &reference.modifiers {
        Some(span) => Some(span.of(text)),
        None => None,
    };
    Mention {
        written: reference.whole.of(text),
        name: reference.name.of(text),
        modifiers,
    }
}

/// A copy of a reference as the text mentions it, for one that isn't expanded.
pub(crate) fn as_written(alloc: Global, mention: Mention<'_>) -> Result<String, AllocError>
    ensures { IfOk result (λ text. string_bytes text ≡ mention.entry.written.now) }
{
    String::from_str(alloc, mention.written)
}

/// The pieces of a text that is to be expanded: literals, `$$` pairs and references. If a reference doesn't
/// end, that is the fault `Reference`.
pub(crate) fn cut(alloc: Global, text: &str) -> Result<Vec<Piece>, PureStop<FaultKind>>
    ensures pieces { GivesPieces result text.now }
    ensures whole { IfOk result (λ found. left_of text.now ≡ []) }
    ensures places { IfOk result (λ found. All (IsPieceIn text.now) found.items) }
    ensures err { IfErr result (IsUncut text.now) }
{
    match pieces(alloc, text) {
        Ok(found) => Ok(found),
        Err(PiecesFault::Unclosed { at: _ }) => Err(PureStop::Fault(FaultKind::Reference)),
        Err(PiecesFault::Memory(refused)) => Err(PureStop::Memory(refused)),
    }
}
