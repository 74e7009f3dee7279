//! The modifier `old=new`, which replaces a suffix, read from marks.
ghost use Rattle.std.specs.Prelude.{◌≡◌, ◌<◌, ◌+◌, length, map, string_bytes, IfOk, IfSome};
ghost use Rattle.mk_mods.specs.Grammar.{cut_before, takes_text};
ghost use Rattle.mk_mods.specs.Views.{shown_mark, shown_cut, ReadsSuffix, source_of_marks};

use crate::marks::Mark;
use crate::modifiers::Modifier;
use std::alloc::{AllocError, Global};

/// Whether a modifier begins with a letter after which `=` is a character like any other, so it isn't
/// `old=new`.
pub(crate) fn takes_text(marks: &[Mark<'_>]) -> bool
    ensures { result ≡ takes_text (map shown_mark marks.now) }
{
    match marks.split_first() {
        Some((mark, _)) => mark.is('M') || mark.is('N') || mark.is('S'),
        None => false,
    }
}

/// The modifier `old=new` with which marks begin, and the marks after it. It is `None` if there is no `=`
/// before the next colon.
pub(crate) fn suffix_modifier<'m, 't>(
    alloc: Global,
    marks: &'m [Mark<'t>],
) -> Result<Option<(Modifier, &'m [Mark<'t>])>, AllocError>
    ensures read { ReadsSuffix result marks.now }
    ensures shorter { IfOk result (λ it. IfSome it (λ r. length r.1.now < length marks.now)) }
{
    let (own, behind) = cut_before(':', marks);
    let (old, later) = cut_before('=', own);
    let Some((_sign, new)) = later.split_first() else {
        return Ok(None);
    };
    let old = written(alloc, old)?;
    let new = written(alloc, new)?;
    Ok(Some((Modifier::Suffix { old, new }, behind)))
}

/// The marks of the modifier `old=new` cut in two, before the first that is this character: a colon or `=`.
fn cut_before<'m, 't>(character: char, marks: &'m [Mark<'t>]) -> (&'m [Mark<'t>], &'m [Mark<'t>])
    ensures cut { cut_before character (map shown_mark marks.now) ≡ shown_cut result }
    ensures whole { length result.0.now + length result.1.now ≡ length marks.now }
{
    for (at, mark) in marks.iter().enumerate() {
        if mark.is(character) {
            return (&marks[..at], &marks[at..]);
        }
    }
    (marks, &[])
}

/// The text of one side of the modifier `old=new`, as its marks are written.
fn written(alloc: Global, marks: &[Mark<'_>]) -> Result<String, AllocError>
    ensures { IfOk result (λ text. string_bytes text ≡ source_of_marks marks.now) }
{
    let mut text = String::new(alloc);
    for mark in marks {
        mark.write_to(&mut text)?;
    }
    Ok(text)
}
