//! The faults of makefiles in the bytes of a row: how they are written and read.
ghost use Rattle.std.specs.Prelude.{◌≡◌, OnOk};
ghost use Rattle.index_row.specs.Faults.{kind_of, fault_kind, fault};
ghost use Rattle.index_row.specs.Answers.{Gives, Adds};

use crate::scalars::{read_byte, read_number, read_str, write_byte, write_number, write_text};
use crate::unread::Unread;
use mk_base::{Fault, FaultKind};
use std::alloc::{AllocError, Global};

/// The kind of fault that has this number in the bytes of a row.
#[tactic(auto, unfolding(crate::specs::Faults::kind_of))]
fn kind_numbered(number: u8) -> Option<FaultKind>
    ensures { result ≡ kind_of number }
{
    match number {
        1 => Some(FaultKind::Line),
        2 => Some(FaultKind::Block),
        3 => Some(FaultKind::Condition),
        4 => Some(FaultKind::For),
        5 => Some(FaultKind::Include),
        6 => Some(FaultKind::IncludeDepth),
        7 => Some(FaultKind::Reference),
        8 => Some(FaultKind::Modifier),
        9 => Some(FaultKind::Recursive),
        10 => Some(FaultKind::Depth),
        11 => Some(FaultKind::Budget),
        12 => Some(FaultKind::Length),
        13 => Some(FaultKind::Shell),
        14 => Some(FaultKind::Utf8),
        15 => Some(FaultKind::Flavor),
        16 => Some(FaultKind::NoName),
        17 => Some(FaultKind::BadName),
        18 => Some(FaultKind::Questions),
        _ => None,
    }
}

/// Reads the kind of a fault from the bytes of a row.
#[tactic(auto, unfolding(crate::specs::Faults::fault_kind))]
fn read_kind(bytes: &[u8]) -> Result<(FaultKind, &[u8]), Unread>
    ensures { Gives (λ x. (x.0, x.1.now)) result (fault_kind bytes.now) }
{
    let (number, rest) = read_byte(bytes)?;
    match kind_numbered(number) {
        Some(kind) => Ok((kind, rest)),
        None => Err(Unread::Damaged),
    }
}

/// Reads the fault of a makefile from the bytes of a row.
#[tactic(auto, unfolding(crate::specs::Faults::fault))]
pub(crate) fn read_fault(alloc: Global, bytes: &[u8]) -> Result<(Fault, &[u8]), Unread>
    ensures { Gives (λ x. (x.0, x.1.now)) result (fault bytes.now) }
{
    let (kind, rest) = read_kind(bytes)?;
    let (name, rest) = read_str(rest)?;
    let (line, rest) = read_number(rest)?;
    Ok((Fault::new(alloc, kind, name, line)?, rest))
}

/// Writes the kind of a fault into the bytes of a row.
fn write_kind(out: &mut Vec<u8>, kind: FaultKind) -> Result<(), AllocError>
    ensures { OnOk result (Adds fault_kind out.old.items out.new.items kind) }
{
    write_byte(out, kind.number())
}

/// Writes the fault of a makefile into the bytes of a row.
pub(crate) fn write_fault(out: &mut Vec<u8>, written: &Fault) -> Result<(), AllocError>
    ensures { OnOk result (Adds fault out.old.items out.new.items written.now) }
{
    write_kind(out, written.kind())?;
    write_text(out, written.name())?;
    write_number(out, written.line())
}
