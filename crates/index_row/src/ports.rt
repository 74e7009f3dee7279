//! The records of ports in the bytes of a row: how they are written and read.
ghost use Rattle.std.specs.Prelude.{◌≡◌, OnOk};
ghost use Rattle.index_row.specs.Ports.{flavors, port};
ghost use Rattle.index_row.specs.Answers.{Gives, Adds};

use crate::depends::{read_depends, write_depends};
use crate::packages::{read_packages, write_packages};
use crate::scalars::{read_text, write_text};
use crate::text_lists::{read_texts, write_texts};
use crate::unread::Unread;
use port_rules::{PortFlavors, PortRecord};
use std::alloc::{AllocError, Global};

/// Reads the flavors of a port from the bytes of a row.
#[tactic(auto, unfolding(crate::specs::Ports::flavors))]
fn read_flavors(alloc: Global, bytes: &[u8]) -> Result<(PortFlavors, &[u8]), Unread>
    ensures { Gives (λ x. (x.0, x.1.now)) result (flavors bytes.now) }
{
    let (chosen, rest) = read_texts(alloc, bytes)?;
    let (proper, rest) = read_texts(alloc, rest)?;
    let (pseudo, rest) = read_texts(alloc, rest)?;
    Ok((PortFlavors::new(chosen, proper, pseudo), rest))
}

/// Reads the record of a port from the bytes of a row.
#[tactic(auto, unfolding(crate::specs::Ports::port))]
pub(crate) fn read_port(alloc: Global, bytes: &[u8]) -> Result<(PortRecord, &[u8]), Unread>
    ensures { Gives (λ x. (x.0, x.1.now)) result (port bytes.now) }
{
    let (flavors, rest) = read_flavors(alloc, bytes)?;
    let (maintainer, rest) = read_text(alloc, rest)?;
    let (categories, rest) = read_texts(alloc, rest)?;
    let (packages, rest) = read_packages(alloc, rest)?;
    let (depends, rest) = read_depends(alloc, rest)?;
    let record = PortRecord::new(alloc, flavors, maintainer, categories, packages, depends)?;
    Ok((record, rest))
}

/// Writes the flavors of a port into the bytes of a row.
fn write_flavors(out: &mut Vec<u8>, written: &PortFlavors) -> Result<(), AllocError>
    ensures { OnOk result (Adds flavors out.old.items out.new.items written.now) }
{
    write_texts(out, written.chosen())?;
    write_texts(out, written.proper())?;
    write_texts(out, written.pseudo())
}

/// Writes the record of a port into the bytes of a row.
pub(crate) fn write_port(
    alloc: Global,
    out: &mut Vec<u8>,
    written: &PortRecord,
) -> Result<(), AllocError>
    ensures { OnOk result (Adds port out.old.items out.new.items written.now) }
{
    write_flavors(out, written.flavors())?;
    write_text(out, written.maintainer())?;
    write_texts(out, written.categories())?;
    write_packages(alloc, out, written.packages())?;
    write_depends(out, written.depends())
}
