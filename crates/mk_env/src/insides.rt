//! References that are given by their inside, as in `empty(NAME:MODIFIERS)`.
ghost use Rattle.std.specs.Prelude.{◌≡◌, ◌==◌, ◌<◌, ◌+◌, [], length, take, drop, slice_index, IfOk, IfErr, Some};
ghost use Rattle.std.specs.List.{position};
ghost use Rattle.mk_ref.specs.Atoms.{left_of};
ghost use Rattle.mk_ref.specs.Outside.{outside};
ghost use Rattle.mk_env.specs.Mentions.{lent_text, name_inside, modifiers_inside};
ghost use Rattle.mk_env.specs.Refusals.{IsUncut};

use crate::mentions::{Mention, cut};
use mk_base::{FaultKind, PureStop};
use mk_ref::outside;
use std::alloc::Global;

/// The name and the modifiers of the reference that has this inside. If a reference in the inside doesn't
/// end, that is the fault `Reference`.
pub(crate) fn mention_of<'a>(
    alloc: Global,
    inside: &'a str,
) -> Result<Mention<'a>, PureStop<FaultKind>>
    ensures whole { IfOk result (λ found. left_of inside.now ≡ []) }
    ensures written { IfOk result (λ found. found.written.now ≡ inside.now) }
    ensures name { IfOk result (λ found. found.name.now ≡ name_inside inside.now) }
    ensures modifiers { IfOk result (λ it. lent_text it.modifiers ≡ modifiers_inside inside.now) }
    ensures err { IfErr result (IsUncut inside.now) }
{
    let _pieces = cut(alloc, inside)?;
    let plain = outside(alloc, inside)?;
    Ok(parted(inside, plain.as_slice()))
}

/// The name and the modifiers of the reference with this inside, in which every reference ends. `plain` is
/// what `outside` gives of the inside.
fn parted<'a>(inside: &'a str, plain: &[u8]) -> Mention<'a>
    requires same { plain.now ≡ outside inside.now }
    requires whole { left_of inside.now ≡ [] }
    ensures written { result.written.now ≡ inside.now }
    ensures name { result.name.now ≡ name_inside inside.now }
    ensures modifiers { lent_text result.modifiers ≡ modifiers_inside inside.now }
{
    match first_colon(plain) {
        Some(at) => parted_at(inside, at),
        None => Mention {
            written: inside,
            name: inside,
            modifiers: None,
        },
    }
}

/// The index of the first colon in a reference's inside: there its name ends.
fn first_colon(bytes: &[u8]) -> Option<usize>
    ensures { result ≡ position (λ b. b == 58) bytes.now }
{
    bytes.iter().position(|byte| *byte == b':')
}

/// The name and the modifiers of the reference with this inside, whose name ends at the colon at this index.
fn parted_at<'a>(inside: &'a str, at: usize) -> Mention<'a>
    requires within { at < length inside.now }
    requires colon { slice_index inside.now at ≡ 58 }
    ensures written { result.written.now ≡ inside.now }
    ensures name { result.name.now ≡ take at inside.now }
    ensures modifiers { lent_text result.modifiers ≡ Some (drop (at + 1) inside.now) }
{
    Mention {
        written: inside,
        name: &inside[..at],
        modifiers: Some(&inside[at + 1..]),
    }
}
