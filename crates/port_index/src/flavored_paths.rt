//! The targets of items that choose flavors: the paths with flavors that the items of a port name.
ghost use Rattle.std.specs.Prelude.{◌≡◌, filter, string_bytes, IfOk, option_map};
ghost use Rattle.std.specs.List.{filter_map};
ghost use Rattle.port_deps.specs.ItemText.{has_comma};
ghost use Rattle.port_index.specs.Dependencies as the_dependencies;
ghost use Rattle.port_index.specs.Dependencies.{targets_in};
ghost use Rattle.port_index.specs.Flavored as flavored;
ghost use Rattle.port_index.specs.Seen.{GivesPath, GivesTexts, row_says};

use crate::path_outcomes::Row;
use crate::root_edges::target_of;
use crate::tree_paths::add_found;
use port_deps::{has_comma, read_wanted};
use port_rules::Depend;
use std::alloc::{AllocError, Global};

/// The paths with a comma that the items of the port in this row name, without subpackages: those that choose
/// flavors. Without a row, or if the row is no port, there are none. An item that can't be read names none.
/// It fails only if memory runs out.
pub fn flavored_targets(alloc: Global, row: Option<&Row>) -> Result<Vec<String>, AllocError>
    ensures { IfOk result (GivesTexts (filter has_comma (targets_in (row_says row.entry)))) }
{
    let mut found = Vec::new(alloc);
    for depend in depends_of(row) {
        add_found(&mut found, flavored_target(alloc, depend)?)?;
    }
    Ok(found)
}

/// The dependencies of the port in this row, whose targets are wanted. Without a row, or if the row is no
/// port, there are none.
fn depends_of(row: Option<&Row>) -> &[Depend]
    ensures { filter_map the_dependencies.target_by result.now ≡ targets_in (row_says row.entry) }
{
    match row {
        Some(Row::Port(port)) => port.depends(),
        _ => &[],
    }
}

/// The target of a dependency, if it is flavored: the path that the item names, without a subpackage, if the
/// item can be read and the path has a comma.
fn flavored_target(alloc: Global, depend: &Depend) -> Result<Option<String>, AllocError>
    ensures { IfOk result (GivesPath (flavored.flavored_target depend.now)) }
{
    if !has_comma(depend.item()) {
        return Ok(None);
    }
    Ok(if_flavored(target_by(alloc, depend)?))
}

/// The target of a dependency: the path that the item names, without a subpackage, if the item can be read.
fn target_by(alloc: Global, depend: &Depend) -> Result<Option<String>, AllocError>
    ensures { IfOk result (GivesPath (the_dependencies.target_by depend.now)) }
{
    let wanted = read_wanted(alloc, depend.item())?;
    target_of(alloc, wanted.as_ref())
}

/// The target of an item, if it has a comma, and so chooses flavors.
fn if_flavored(path: Option<String>) -> Option<String>
    ensures { option_map string_bytes result ≡ flavored.if_flavored (option_map string_bytes path) }
{
    let path = path?;
    if has_comma(path.as_str()) {
        Some(path)
    } else {
        None
    }
}
