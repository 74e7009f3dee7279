//! The words of a text of a makefile, as places in it.
ghost use Rattle.std.specs.Prelude.{◌≡◌, map, All, IfOk};
ghost use Rattle.mk_text.specs.Words.{words_of, word_spans, span_text, IsSpanOf};

use crate::blanks::is_blank;
use std::alloc::{AllocError, Global};

/// A place in a text, in bytes: from `start` up to `end`, which isn't part of it.
#[derive(Debug, Clone, Copy, PartialEq, Eq)]
pub struct Span {
    /// The index of its first byte.
    pub start: usize,
    /// The index of the byte after its last one.
    pub end: usize,
}

impl Span {
    /// The part of `text` at this place, such as a word. `text` is the text that the place was found in.
    pub fn of<'t>(&self, text: &'t str) -> &'t str
        requires { IsSpanOf text.now self.now }
        ensures { result.now ≡ span_text text.now self.now }
    {
        &text[self.start..self.end]
    }
}

/// The places of the words of a makefile's text, from left to right: the longest stretches without a blank
/// (space or tab). They are in bytes of `text`, and `Span::of` gives the text of each. The time is linear in
/// the length of `text`.
///
/// # Errors
///
/// `AllocError` if memory for the list runs out.
pub fn words(alloc: Global, text: &str) -> Result<Vec<Span>, AllocError>
    ensures spans { IfOk result (λ spans. spans.items ≡ word_spans text.now) }
    ensures texts { IfOk result (λ spans. map (span_text text.now) spans.items
        ≡ words_of text.now) }
    ensures within { IfOk result (λ spans. All (IsSpanOf text.now) spans.items) }
{
    let mut spans = Vec::new(alloc);
    let mut start = 0;
    for (at, byte) in text.as_bytes().iter().enumerate() {
        if is_blank(*byte) {
            if start < at {
                spans.push(Span { start, end: at })?;
            }
            start = at + 1;
        }
    }
    if start < text.len() {
        spans.push(Span {
            start,
            end: text.len(),
        })?;
    }
    Ok(spans)
}
