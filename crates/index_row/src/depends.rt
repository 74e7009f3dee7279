//! The dependencies of a port in the bytes of a row: how they are written and read.
ghost use Rattle.std.specs.Prelude.{◌≡◌, length, OnOk};
ghost use Rattle.index_row.specs.Reads.{counted_items, list};
ghost use Rattle.index_row.specs.Ports.{depend_number, depend_kind_of, depend_kind, depend};
ghost use Rattle.index_row.specs.Answers.{Gives, Adds};

use crate::scalars::{
    read_byte, read_number, read_str, read_text, write_byte, write_number, write_text,
};
use crate::unread::Unread;
use port_rules::{Depend, DependKind};
use std::alloc::{AllocError, Global};

/// The kind of a dependency that has this number in the bytes of a row.
#[tactic(auto, unfolding(crate::specs::Ports::depend_kind_of))]
fn kind_numbered(number: u8) -> Option<DependKind>
    ensures { result ≡ depend_kind_of number }
{
    match number {
        1 => Some(DependKind::Build),
        2 => Some(DependKind::Lib),
        3 => Some(DependKind::Run),
        4 => Some(DependKind::Test),
        _ => None,
    }
}

/// The number of a dependency's kind in the bytes of a row.
fn number_of(kind: DependKind) -> u8
    ensures { result ≡ depend_number kind }
{
    match kind {
        DependKind::Build => 1,
        DependKind::Lib => 2,
        DependKind::Run => 3,
        DependKind::Test => 4,
    }
}

/// Reads the kind of a dependency from the bytes of a row.
#[tactic(auto, unfolding(crate::specs::Ports::depend_kind))]
fn read_kind(bytes: &[u8]) -> Result<(DependKind, &[u8]), Unread>
    ensures { Gives (λ x. (x.0, x.1.now)) result (depend_kind bytes.now) }
{
    let (number, rest) = read_byte(bytes)?;
    match kind_numbered(number) {
        Some(kind) => Ok((kind, rest)),
        None => Err(Unread::Damaged),
    }
}

/// Reads a dependency from the bytes of a row, after the dependency before it, if there is one.
#[tactic(auto, unfolding(crate::specs::Ports::depend))]
fn read_depend<'b>(
    alloc: Global,
    before: Option<&Depend>,
    bytes: &'b [u8],
) -> Result<(Depend, &'b [u8]), Unread>
    ensures { Gives (λ x. (x.0, x.1.now)) result (depend bytes.now) }
{
    let (kind, rest) = read_kind(bytes)?;
    let (subpackage, rest) = read_str(rest)?;
    let (item, rest) = read_text(alloc, rest)?;
    let depend = Depend::new(alloc, before, kind, subpackage, item)?;
    Ok((depend, rest))
}

/// Reads a list of dependencies, its length first, from the bytes of a row.
#[tactic(auto, unfolding(crate::specs::Reads::list))]
pub(crate) fn read_depends(alloc: Global, bytes: &[u8]) -> Result<(Vec<Depend>, &[u8]), Unread>
    ensures { Gives (λ x. (x.0.items, x.1.now)) result (list depend bytes.now) }
{
    let (count, rest) = read_number(bytes)?;
    depends_in(alloc, count, rest)
}

/// Reads so many dependencies from the bytes of a row.
fn depends_in(alloc: Global, count: u64, bytes: &[u8]) -> Result<(Vec<Depend>, &[u8]), Unread>
    ensures { Gives (λ x. (x.0.items, x.1.now)) result (counted_items depend count bytes.now) }
{
    let mut found = Vec::with_capacity(alloc, usize::min(count as usize, bytes.len()))?;
    let mut rest = bytes;
    for _ in 0..count {
        let (depend, after) = read_depend(alloc, found.last(), rest)?;
        found.push(depend)?;
        rest = after;
    }
    Ok((found, rest))
}

/// Writes the kind of a dependency into the bytes of a row.
fn write_kind(out: &mut Vec<u8>, kind: DependKind) -> Result<(), AllocError>
    ensures { OnOk result (Adds depend_kind out.old.items out.new.items kind) }
{
    write_byte(out, number_of(kind))
}

/// Writes a dependency into the bytes of a row.
fn write_depend(out: &mut Vec<u8>, written: &Depend) -> Result<(), AllocError>
    ensures { OnOk result (Adds depend out.old.items out.new.items written.now) }
{
    write_kind(out, written.kind())?;
    write_text(out, written.subpackage())?;
    write_text(out, written.item())
}

/// Writes a list of dependencies, its length first, into the bytes of a row.
pub(crate) fn write_depends(out: &mut Vec<u8>, written: &[Depend]) -> Result<(), AllocError>
    ensures { OnOk result (Adds (list depend) out.old.items out.new.items written.now) }
{
    write_number(out, written.len() as u64)?;
    put_depends(out, written)
}

/// Writes dependencies, one after another, into the bytes of a row.
fn put_depends(out: &mut Vec<u8>, written: &[Depend]) -> Result<(), AllocError>
    ensures { OnOk result
        (Adds (counted_items depend (length written.now)) out.old.items out.new.items written.now) }
{
    for depend in written {
        write_depend(out, depend)?;
    }
    Ok(())
}
