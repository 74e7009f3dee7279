//! The paths on which the plain reference's index depends beside the listed ones: those that items of ports
//! name.
ghost use Rattle.std.specs.Prelude.{◌≡◌, map, string_bytes, IfOk, OnOk, option_map};
ghost use Rattle.std.specs.List.{filter_map};
ghost use Rattle.port_index.specs.Dependencies.{target_by, targets_in};
ghost use Rattle.port_index.specs.Seen.{AddsPath, AddsTexts, entries_in, row_says};
ghost use Rattle.plain_reference.specs.Needed.{GivesBeside};

use port_deps::read_wanted;
use port_index::{MemoryRows, Row};
use port_rules::Depend;
use std::alloc::{AllocError, Global};

/// The paths on which the plain reference's index depends beside the listed ones, by the rows of the listed
/// ones: those that the items of their ports name. Some may be listed themselves. It fails only if memory
/// runs out.
pub(crate) fn paths_beside(
    alloc: Global,
    listed: &[String],
    rows: &MemoryRows,
) -> Result<Vec<String>, AllocError>
    ensures { GivesBeside result (map string_bytes listed.now) (entries_in rows.now) }
{
    let mut beside = Vec::new(alloc);
    let mut finder = rows.finder();
    for path in listed {
        add_targets(alloc, &mut beside, finder.get(path))?;
    }
    Ok(beside)
}

/// Adds to the paths beside the listed ones those that the items of the port in this row name, without
/// subpackages. Without a row, or if the row is no port, it adds none.
fn add_targets(alloc: Global, paths: &mut Vec<String>, row: Option<&Row>) -> Result<(), AllocError>
    ensures { OnOk result (AddsTexts (targets_in (row_says row.entry)) paths.old paths.new) }
{
    match row {
        Some(Row::Port(port)) => add_named(alloc, paths, port.depends()),
        _ => Ok(()),
    }
}

/// Adds to the paths beside the listed ones those that the items of these dependencies name, without
/// subpackages.
fn add_named(alloc: Global, paths: &mut Vec<String>, depends: &[Depend]) -> Result<(), AllocError>
    ensures { OnOk result (AddsTexts (filter_map target_by depends.now) paths.old paths.new) }
{
    for depend in depends {
        add_target(alloc, paths, depend)?;
    }
    Ok(())
}

/// Adds to the paths beside the listed ones the path that the item of a dependency names, without a
/// subpackage. If the item can't be read, it adds none.
fn add_target(alloc: Global, paths: &mut Vec<String>, depend: &Depend) -> Result<(), AllocError>
    ensures { OnOk result (AddsPath (target_by depend.now) paths.old paths.new) }
{
    if let Some(target) = target_of(alloc, depend)? {
        paths.push(target)?;
    }
    Ok(())
}

/// The path beside the listed ones that the item of a dependency names, without a subpackage. `None` if the
/// item can't be read.
fn target_of(alloc: Global, depend: &Depend) -> Result<Option<String>, AllocError>
    ensures { IfOk result (λ path. option_map string_bytes path ≡ target_by depend.now) }
{
    let wanted = read_wanted(alloc, depend.item())?;
    match wanted.as_ref() {
        Some(wanted) => Ok(Some(wanted.path().port_path(alloc)?)),
        None => Ok(None),
    }
}
