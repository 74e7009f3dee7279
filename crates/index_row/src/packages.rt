//! The packages of a port in the bytes of a row: how they are written and read.
ghost use Rattle.std.specs.Prelude.{◌≡◌, length, OnOk};
ghost use Rattle.index_row.specs.Reads.{counted_items, list};
ghost use Rattle.index_row.specs.Ports.{port_package};
ghost use Rattle.index_row.specs.Answers.{Gives, Adds};

use crate::names::{read_name, write_name};
use crate::scalars::{read_number, read_text, write_number, write_text};
use crate::unread::Unread;
use port_rules::Package;
use std::alloc::{AllocError, Global};

/// Reads a package of a port from the bytes of a row.
#[tactic(auto, unfolding(crate::specs::Ports::port_package))]
fn read_package(alloc: Global, bytes: &[u8]) -> Result<(Package, &[u8]), Unread>
    ensures { Gives (λ x. (x.0, x.1.now)) result (port_package bytes.now) }
{
    let (subpackage, rest) = read_text(alloc, bytes)?;
    let (name, rest) = read_name(alloc, rest)?;
    let (comment, rest) = read_text(alloc, rest)?;
    Ok((Package::new(subpackage, name, comment), rest))
}

/// Reads the list of a port's packages, its length first, from the bytes of a row.
#[tactic(auto, unfolding(crate::specs::Reads::list))]
pub(crate) fn read_packages(alloc: Global, bytes: &[u8]) -> Result<(Vec<Package>, &[u8]), Unread>
    ensures { Gives (λ x. (x.0.items, x.1.now)) result (list port_package bytes.now) }
{
    let (count, rest) = read_number(bytes)?;
    packages_in(alloc, count, rest)
}

/// Reads so many packages of a port from the bytes of a row.
fn packages_in(alloc: Global, count: u64, bytes: &[u8]) -> Result<(Vec<Package>, &[u8]), Unread>
    ensures { Gives (λ x. (x.0.items, x.1.now)) result (counted_items port_package count bytes.now) }
{
    let mut found = Vec::with_capacity(alloc, usize::min(count as usize, bytes.len()))?;
    let mut rest = bytes;
    for _ in 0..count {
        let (one, after) = read_package(alloc, rest)?;
        found.push(one)?;
        rest = after;
    }
    Ok((found, rest))
}

/// Writes a package of a port into the bytes of a row.
fn write_package(alloc: Global, out: &mut Vec<u8>, written: &Package) -> Result<(), AllocError>
    ensures { OnOk result (Adds port_package out.old.items out.new.items written.now) }
{
    write_text(out, written.subpackage())?;
    write_name(alloc, out, written.name())?;
    write_text(out, written.comment())
}

/// Writes the list of a port's packages, its length first, into the bytes of a row.
pub(crate) fn write_packages(
    alloc: Global,
    out: &mut Vec<u8>,
    written: &[Package],
) -> Result<(), AllocError>
    ensures { OnOk result (Adds (list port_package) out.old.items out.new.items written.now) }
{
    write_number(out, written.len() as u64)?;
    put_packages(alloc, out, written)
}

/// Writes packages of a port, one after another, into the bytes of a row.
fn put_packages(alloc: Global, out: &mut Vec<u8>, written: &[Package]) -> Result<(), AllocError>
    ensures { OnOk result
        (Adds (counted_items port_package (length written.now)) out.old.items out.new.items written.now) }
{
    for one in written {
        write_package(alloc, out, one)?;
    }
    Ok(())
}
