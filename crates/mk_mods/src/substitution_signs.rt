//! The signs of the old and the new text of a substitution `:S`, as they are written, and the parts that they
//! give.
ghost use Rattle.std.specs.Prelude.{◌≡◌, ◌<◌, [], length, map, string_bytes, IfOk, IfErr};
ghost use Rattle.mk_mods.specs.Signs.{signs_before, sign_of, is_escapable, is_bare, without_start, without_end};
ghost use Rattle.mk_mods.specs.Views.{shown_mark, shown_sign, shown_signs, IsUnread, IsEscape, IsSignAt, ReadsFirst};
ghost use Rattle.mk_mods.specs.Views.{MakesParts, AddsSign, LeavesSymbols, symbols_with};

use crate::marks::Mark;
use crate::modifier_lists::ModsFault;
use crate::modifiers::Part;
use std::alloc::{AllocError, Global};

/// A character or a reference of the old or the new text of `:S`.
#[derive(Debug, Clone, Copy)]
pub(crate) enum SubstitutionSign<'t> {
    /// A character that means itself: one after a backslash, or the dollar that a pair is.
    Plain(char),
    /// A character that may be an anchor, or mean the old text.
    Bare(char),
    /// A reference, as it is written.
    Reference(&'t str),
}

impl SubstitutionSign<'_> {
    /// Whether a sign of a substitution `:S` is this character, and isn't plain.
    fn is_bare(&self, character: char) -> bool
        ensures { result ≡ is_bare character (shown_sign self.now) }
    {
        match self {
            SubstitutionSign::Bare(own) => *own == character,
            SubstitutionSign::Plain(_) | SubstitutionSign::Reference(_) => false,
        }
    }
}

/// The sign of a substitution `:S` that a mark is, if no backslash makes the mark plain.
fn sign_of<'t>(mark: Mark<'t>) -> SubstitutionSign<'t>
    ensures { shown_sign result ≡ sign_of (shown_mark mark.entry) }
{
    match mark {
        Mark::Char(character) => SubstitutionSign::Bare(character),
        Mark::EscapedDollar => SubstitutionSign::Plain('$'),
        Mark::Reference(source) => SubstitutionSign::Reference(source),
    }
}

/// Whether a backslash makes a character plain in the texts of a substitution `:S`: the delimiter, `^`, `$`,
/// `&` and `\`.
fn is_escapable(delimiter: char, character: char) -> bool
    ensures { result ≡ is_escapable delimiter character }
{
    character == delimiter || matches!(character, '^' | '$' | '&' | '\\')
}

/// The plain sign of a substitution `:S` that two marks are, if the first is a backslash that makes the
/// second plain.
fn escaped<'t>(delimiter: char, mark: Mark<'t>, next: Mark<'t>) -> Option<SubstitutionSign<'t>>
    ensures { IsEscape result delimiter mark.entry next.entry }
{
    match (mark, next) {
        (Mark::Char('\\'), Mark::Char(character)) if is_escapable(delimiter, character) => {
            Some(SubstitutionSign::Plain(character))
        }
        _ => None,
    }
}

/// The sign of a substitution `:S` that a mark begins, and of how many marks it is made. `behind` is the
/// marks after that mark.
fn sign_at<'t>(
    delimiter: char,
    mark: Mark<'t>,
    behind: &[Mark<'t>],
) -> (SubstitutionSign<'t>, usize)
    ensures { IsSignAt result delimiter mark.entry behind.now }
{
    if let Some(next) = behind.first() {
        if let Some(plain) = escaped(delimiter, mark, *next) {
            return (plain, 2);
        }
    }
    (sign_of(mark), 1)
}

/// The signs of the old or the new text of a substitution `:S`, up to the delimiter, and the marks after it.
/// It fails with `BadMod` if there is no delimiter.
pub(crate) fn signs_before<'m, 't>(
    alloc: Global,
    delimiter: char,
    marks: &'m [Mark<'t>],
) -> Result<(Vec<SubstitutionSign<'t>>, &'m [Mark<'t>]), ModsFault>
    ensures ok { ReadsFirst shown_signs result (signs_before delimiter) marks.now }
    ensures err { IfErr result (IsUnread (signs_before delimiter (map shown_mark marks.now))) }
    ensures shorter { IfOk result (λ read. length read.1.now < length marks.now) }
{
    let mut signs = Vec::new(alloc);
    let mut at = 0;
    while at < marks.len() {
        let mark = marks[at];
        if mark.is(delimiter) {
            return Ok((signs, &marks[at + 1..]));
        }
        let (sign, width) = sign_at(delimiter, mark, &marks[at + 1..]);
        signs.push(sign)?;
        at += width;
    }
    Err(ModsFault::BadMod)
}

/// Whether the signs of the old text of `:S` begin with the anchor `^`, and the other signs.
pub(crate) fn without_start<'s, 't>(
    signs: &'s [SubstitutionSign<'t>],
) -> (bool, &'s [SubstitutionSign<'t>])
    ensures { (result.0, map shown_sign result.1.now) ≡ without_start (map shown_sign signs.now) }
{
    match signs.split_first() {
        Some((first, others)) if first.is_bare('^') => (true, others),
        _ => (false, signs),
    }
}

/// Whether the signs of the old text of `:S` end with the anchor `$`, and the other signs.
pub(crate) fn without_end<'s, 't>(
    signs: &'s [SubstitutionSign<'t>],
) -> (bool, &'s [SubstitutionSign<'t>])
    ensures { (result.0, map shown_sign result.1.now) ≡ without_end (map shown_sign signs.now) }
{
    match signs.split_last() {
        Some((last, others)) if last.is_bare('$') => (true, others),
        _ => (false, signs),
    }
}

/// The parts that the signs of the old or of the new text of `:S` give: texts, references and, in the new
/// one, `&`.
pub(crate) fn parts_of(
    alloc: Global,
    in_new: bool,
    signs: &[SubstitutionSign<'_>],
) -> Result<Vec<Part>, AllocError>
    ensures { MakesParts result in_new signs.now }
{
    let mut parts = Vec::new(alloc);
    let mut text = String::new(alloc);
    for sign in signs {
        text = push_sign(alloc, in_new, *sign, &mut parts, text)?;
    }
    push_text(alloc, &mut parts, text)?;
    Ok(parts)
}

/// Adds a sign of a substitution `:S` to its parts or to the text that follows them. It gives the text that
/// follows them then.
fn push_sign(
    alloc: Global,
    in_new: bool,
    sign: SubstitutionSign<'_>,
    parts: &mut Vec<Part>,
    mut text: String,
) -> Result<String, AllocError>
    ensures { AddsSign result (symbols_with parts.old text) parts.new in_new sign.entry }
{
    if in_new && sign.is_bare('&') {
        let left = push_text(alloc, parts, text)?;
        parts.push(Part::Whole)?;
        return Ok(left);
    }
    match sign {
        SubstitutionSign::Plain(character) | SubstitutionSign::Bare(character) => {
            text.push(character)?;
            Ok(text)
        }
        SubstitutionSign::Reference(source) => {
            let left = push_text(alloc, parts, text)?;
            parts.push(Part::Reference(String::from_str(alloc, source)?))?;
            Ok(left)
        }
    }
}

/// Adds a text as a part of a substitution `:S`, unless it is empty, and gives an empty text for what comes
/// after it.
fn push_text(alloc: Global, parts: &mut Vec<Part>, text: String) -> Result<String, AllocError>
    ensures empty { IfOk result (λ empty. string_bytes empty ≡ []) }
    ensures parts { LeavesSymbols result parts.new (symbols_with parts.old text) }
{
    if !text.is_empty() {
        parts.push(Part::Text(text))?;
    }
    Ok(String::new(alloc))
}
