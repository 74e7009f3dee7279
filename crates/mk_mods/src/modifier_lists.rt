//! The list of a reference's modifiers, read from the text after its colon.
ghost use Rattle.std.specs.Prelude.{◌≡◌, ◌<◌, ◌≤◌, length, map, IfOk, IfErr};
ghost use Rattle.refusals.specs.Refused.{refused};
ghost use Rattle.mk_mods.specs.Actions.{action_of, replacement_of};
ghost use Rattle.mk_mods.specs.Grammar.{flags_of, substitution_from, word_map_of, lettered_modifier};
ghost use Rattle.mk_mods.specs.Grammar.{suffix_or_lettered, first_modifier, modifiers_in, modifiers_of};
ghost use Rattle.mk_mods.specs.Views.{shown_mark, shown_flags, IsUnread, unread_by, ReadsFirst, ReadsPattern};
ghost use Rattle.mk_mods.specs.Views.{ReadsModifiers, ReadsMods};
ghost use Rattle.mk_mods.specs.declared.modifier_lists.ModsFault.TheVariants.{Memory};

use crate::marks::{Mark, marks};
use crate::modifiers::{Modifier, Substitution, WordMap};
use crate::substitution_signs::{parts_of, signs_before, without_end, without_start};
use crate::suffix_modifier::{suffix_modifier, takes_text};
use mk_ref::PiecesFault;
use mk_text::Profile;
use refusals::OutOfMemory;
use std::alloc::{AllocError, AllocFailed, Global};
use thiserror::Error;

/// Why a text wasn't read as modifiers.
#[derive(Debug, Clone, Copy, PartialEq, Eq, Error)]
pub enum ModsFault {
    /// The text isn't one or more modifiers with colons between them.
    #[error("not modifiers with colons between")]
    BadMod,
    /// Memory ran out.
    #[error("out of memory")]
    Memory(OutOfMemory),
}

impl From<AllocError> for ModsFault {
    ghost from_gives = { λ _ fault. fault ≡ Memory refused };

    /// If an allocation is refused, a text isn't read as modifiers, and the fault is `Memory`.
    fn from(error: AllocError) -> ModsFault {
        ModsFault::Memory(OutOfMemory::from(error))
    }
}

impl<T: Drop> From<AllocFailed<T>> for ModsFault {
    ghost from_gives = { λ _ fault. fault ≡ Memory refused };

    /// If an allocation that gives a value back is refused, a text isn't read as modifiers, and the fault is
    /// `Memory`.
    fn from(error: AllocFailed<T>) -> ModsFault {
        ModsFault::Memory(OutOfMemory::from(error))
    }
}

impl From<PiecesFault> for ModsFault {
    ghost from_gives = { λ unclosed fault. fault ≡ unread_by unclosed };

    /// Why a text isn't read as modifiers if it isn't cut at its references: `BadMod` if one of these doesn't
    /// end.
    fn from(fault: PiecesFault) -> ModsFault {
        match fault {
            PiecesFault::Unclosed { .. } => ModsFault::BadMod,
            PiecesFault::Memory(refused) => ModsFault::Memory(refused),
        }
    }
}

/// The modifiers of a reference, in the order in which they are applied.
#[derive(Debug, Drop)]
pub struct Mods {
    /// Each of them; there is at least one.
    pub modifiers: Vec<Modifier>,
}

impl Mods {
    /// Reads the list of a reference's modifiers, which is what follows its colon: modifiers with a colon
    /// between each two.
    ///
    /// References in it are taken whole and stay as they are written; a backslash before one hides
    /// nothing.
    ///
    /// - `M` or `N`, and a pattern. The pattern ends before the next colon that has no backslash
    ///   directly before it. Backslashes stay in it.
    /// - `S`, a delimiter, the old text, the delimiter, the new text, the delimiter, and any run of the
    ///   flags `g` and `1`. Any character that begins no reference and no `$$` is a delimiter. In both
    ///   texts a backslash makes the delimiter, `^`, `$`, `&` and itself plain, and before anything
    ///   else it stays. `$$` is a plain dollar. An old text may begin with the anchor `^` and end with
    ///   the anchor `$`; in the new one `&` means the old text.
    /// - One of `R`, `E`, `H`, `T`, `L` and `U`.
    /// - In profile 2, `old=new`, if it begins with none of `M`, `N` and `S`. The old text ends before the
    ///   first `=`, and the new one before the next colon. Backslashes stay in both.
    ///
    /// The time is linear in the length of `text`.
    ///
    /// # Errors
    ///
    /// `BadMod` if the text is anything else, also if it is empty, or if a reference in it doesn't end.
    /// `Memory` if memory runs out.
    pub fn read(alloc: Global, text: &str, profile: Profile) -> Result<Mods, ModsFault>
        ensures ok { ReadsMods result (modifiers_of profile text.now) }
        ensures err { IfErr result (IsUnread (modifiers_of profile text.now)) }
    {
        let marks = marks(alloc, text)?;
        let modifiers = modifiers_in(alloc, profile, &marks)?;
        Ok(Mods { modifiers })
    }
}

/// The list of modifiers that marks are, with a colon between each two.
fn modifiers_in(
    alloc: Global,
    profile: Profile,
    marks: &[Mark<'_>],
) -> Result<Vec<Modifier>, ModsFault>
    ensures ok { ReadsModifiers result (modifiers_in profile (map shown_mark marks.now)) }
    ensures err { IfErr result (IsUnread (modifiers_in profile (map shown_mark marks.now))) }
{
    let mut modifiers = Vec::new(alloc);
    let (first, mut behind) = first_modifier(alloc, profile, marks)?;
    modifiers.push(first)?;
    while let Some((mark, later)) = behind.split_first() {
        if !mark.is(':') {
            return Err(ModsFault::BadMod);
        }
        let (modifier, rest) = first_modifier(alloc, profile, later)?;
        modifiers.push(modifier)?;
        behind = rest;
    }
    Ok(modifiers)
}

/// The first modifier of a list that is read in this profile of the make language, and the marks after it.
fn first_modifier<'m, 't>(
    alloc: Global,
    profile: Profile,
    marks: &'m [Mark<'t>],
) -> Result<(Modifier, &'m [Mark<'t>]), ModsFault>
    ensures ok { ReadsFirst action_of result (first_modifier profile) marks.now }
    ensures err { IfErr result (IsUnread (first_modifier profile (map shown_mark marks.now))) }
    ensures shorter { IfOk result (λ read. length read.1.now < length marks.now) }
{
    match profile {
        Profile::One => lettered_modifier(alloc, marks),
        Profile::Two => suffix_or_lettered(alloc, marks),
    }
}

/// The first modifier of a list in profile 2 (`old=new`, or else the modifier that begins with a letter of
/// its own), and the marks after it.
fn suffix_or_lettered<'m, 't>(
    alloc: Global,
    marks: &'m [Mark<'t>],
) -> Result<(Modifier, &'m [Mark<'t>]), ModsFault>
    ensures ok { ReadsFirst action_of result suffix_or_lettered marks.now }
    ensures err { IfErr result (IsUnread (suffix_or_lettered (map shown_mark marks.now))) }
    ensures shorter { IfOk result (λ read. length read.1.now < length marks.now) }
{
    if takes_text(marks) {
        return lettered_modifier(alloc, marks);
    }
    match suffix_modifier(alloc, marks)? {
        Some(read) => Ok(read),
        None => lettered_modifier(alloc, marks),
    }
}

/// The first modifier of a list, if it begins with a letter of its own (`M`, `N`, `S`, or one that stands
/// alone), and the marks after it.
fn lettered_modifier<'m, 't>(
    alloc: Global,
    marks: &'m [Mark<'t>],
) -> Result<(Modifier, &'m [Mark<'t>]), ModsFault>
    ensures ok { ReadsFirst action_of result lettered_modifier marks.now }
    ensures err { IfErr result (IsUnread (lettered_modifier (map shown_mark marks.now))) }
    ensures shorter { IfOk result (λ read. length read.1.now < length marks.now) }
{
    let Some((Mark::Char(letter), rest)) = marks.split_first() else {
        return Err(ModsFault::BadMod);
    };
    match letter {
        'M' => {
            let (pattern, behind) = pattern_from(alloc, rest)?;
            Ok((Modifier::Match(pattern), behind))
        }
        'N' => {
            let (pattern, behind) = pattern_from(alloc, rest)?;
            Ok((Modifier::Exclude(pattern), behind))
        }
        'S' => {
            let (substitution, behind) = substitution_from(alloc, rest)?;
            Ok((Modifier::Substitute(substitution), behind))
        }
        _ => match word_map_of(*letter) {
            Some(map) => Ok((Modifier::Change(map), rest)),
            None => Err(ModsFault::BadMod),
        },
    }
}

/// The modifier of this one letter, as `T`; `None` if the letter has none.
fn word_map_of(letter: char) -> Option<WordMap>
    ensures { result ≡ word_map_of letter }
{
    match letter {
        'R' => Some(WordMap::Root),
        'E' => Some(WordMap::Extension),
        'H' => Some(WordMap::Head),
        'T' => Some(WordMap::Tail),
        'L' => Some(WordMap::Lower),
        'U' => Some(WordMap::Upper),
        _ => None,
    }
}

/// The pattern of `:M` or `:N`, and the marks after it, which begin with a colon.
fn pattern_from<'m, 't>(
    alloc: Global,
    marks: &'m [Mark<'t>],
) -> Result<(String, &'m [Mark<'t>]), AllocError>
    ensures read { ReadsPattern result marks.now }
    ensures shorter { IfOk result (λ read. length read.1.now ≤ length marks.now) }
{
    let mut pattern = String::new(alloc);
    let mut escaped = false;
    for (at, mark) in marks.iter().enumerate() {
        if mark.is(':') && !escaped {
            return Ok((pattern, &marks[at..]));
        }
        mark.write_to(&mut pattern)?;
        escaped = mark.is('\\');
    }
    Ok((pattern, &[]))
}

/// Reads a modifier of a list that is a substitution, `:S`, from its delimiter on; and the marks after it.
fn substitution_from<'m, 't>(
    alloc: Global,
    marks: &'m [Mark<'t>],
) -> Result<(Substitution, &'m [Mark<'t>]), ModsFault>
    ensures ok { ReadsFirst replacement_of result substitution_from marks.now }
    ensures err { IfErr result (IsUnread (substitution_from (map shown_mark marks.now))) }
    ensures shorter { IfOk result (λ read. length read.1.now ≤ length marks.now) }
{
    let Some((Mark::Char(delimiter), marks)) = marks.split_first() else {
        return Err(ModsFault::BadMod);
    };
    let (old, after_old) = signs_before(alloc, *delimiter, marks)?;
    let (new, after_new) = signs_before(alloc, *delimiter, after_old)?;
    let (every, once, behind) = flags_of(after_new);
    let (starts, others) = without_start(&old);
    let (ends, middle) = without_end(others);
    let substitution = Substitution {
        old: parts_of(alloc, false, middle)?,
        new: parts_of(alloc, true, &new)?,
        starts,
        ends,
        every,
        once,
    };
    Ok((substitution, behind))
}

/// Whether the flags `g` and `1` of a substitution `:S` are given, and the marks after the flags.
fn flags_of<'m, 't>(marks: &'m [Mark<'t>]) -> (bool, bool, &'m [Mark<'t>])
    ensures flags { flags_of (map shown_mark marks.now) ≡ shown_flags result }
    ensures shorter { length result.2.now ≤ length marks.now }
{
    let mut every = false;
    let mut once = false;
    for (at, mark) in marks.iter().enumerate() {
        if mark.is('g') {
            every = true;
        } else if mark.is('1') {
            once = true;
        } else {
            return (every, once, &marks[at..]);
        }
    }
    (every, once, &[])
}
