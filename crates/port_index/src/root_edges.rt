//! The edges of the roots of a ports tree, by the rows of its paths: what the ports depend on, with statuses.
ghost use Rattle.std.specs.Prelude.{◌≡◌, map, IfOk, OnOk};
ghost use Rattle.std.specs.Option.{option_copied};
ghost use Rattle.port_deps.specs.Seen.{found_seen};
ghost use Rattle.port_index.specs.Dependencies as needs;
ghost use Rattle.port_index.specs.Dependencies.{item_at, items_in};
ghost use Rattle.port_index.specs.FromRows.{AreItemsAmong, PutsItems, IsEdgeOf, AreEdgesOf, AreEdgesAmong, GivesEdgesFrom};
ghost use Rattle.port_index.specs.Seen.{GivesPath, row_says};

use crate::memory_rows::MemoryRows;
use crate::path_outcomes::Row;
use crate::tree_paths::is_found_in;
use port_deps::{Found, Item, RootEdge, Wanted, items, resolve};
use std::alloc::{AllocError, Global};

/// An item of the root at a path, of which an edge is made.
#[derive(Debug, Drop)]
struct RootItem {
    root: String,
    item: Item,
}

/// The items of the ports at these paths, in the order of the paths, for their edges.
fn items_of_all(
    alloc: Global,
    paths: &[String],
    rows: &MemoryRows,
) -> Result<Vec<RootItem>, AllocError>
    ensures { IfOk result (AreItemsAmong paths.now rows.now) }
{
    let mut found = Vec::new(alloc);
    let mut finder = rows.finder();
    for path in paths {
        add_items(alloc, &mut found, path, finder.get(path))?;
    }
    Ok(found)
}

/// Adds the items of the port in this row of a path. Without a row, or if the row is no port, there are none,
/// and it adds none.
fn add_items(
    alloc: Global,
    found: &mut Vec<RootItem>,
    path: &str,
    row: Option<&Row>,
) -> Result<(), AllocError>
    ensures { OnOk result (PutsItems (items_in path.now (row_says row.entry)) found.old found.new) }
{
    match row {
        Some(Row::Port(port)) => put_items(alloc, found, path, items(alloc, port)?),
        _ => Ok(()),
    }
}

/// Adds items of the port at a path, each with that path.
fn put_items(
    alloc: Global,
    found: &mut Vec<RootItem>,
    path: &str,
    items: Vec<Item>,
) -> Result<(), AllocError>
    ensures { OnOk result (PutsItems (map (item_at path.now) items.items) found.old found.new) }
{
    for item in items {
        found.push(RootItem {
            root: String::from_str(alloc, path)?,
            item,
        })?;
    }
    Ok(())
}

/// The target of a root's edge: the path that its item asks for, without a subpackage, if the item can be
/// read.
pub(crate) fn target_of(
    alloc: Global,
    wanted: Option<&Wanted>,
) -> Result<Option<String>, AllocError>
    ensures { IfOk result (GivesPath (needs.target_in (option_copied wanted.entry))) }
{
    match wanted {
        Some(wanted) => Ok(Some(wanted.path().port_path(alloc)?)),
        None => Ok(None),
    }
}

/// The edges of the items of ports, in their order. The status of each depends on the row of the path that
/// the item names.
fn edges_of_all(
    alloc: Global,
    items: Vec<RootItem>,
    rows: &MemoryRows,
) -> Result<Vec<RootEdge>, AllocError>
    ensures { IfOk result (AreEdgesOf items.items rows.now) }
{
    let mut found = Vec::with_capacity(alloc, items.len())?;
    for rooted in items {
        found.push(edge_of(alloc, rooted, rows)?)?;
    }
    Ok(found)
}

/// The edge of an item of a port, with the status by the row of the path that the item names.
fn edge_of(alloc: Global, rooted: RootItem, rows: &MemoryRows) -> Result<RootEdge, AllocError>
    ensures { IfOk result (IsEdgeOf rooted rows.now) }
{
    let RootItem { root, item } = rooted;
    let found = match target_of(alloc, item.wanted())? {
        Some(path) => found_as(rows.get(path.as_str())),
        None => Found::NotThere,
    };
    Ok(RootEdge::new(root, resolve(item, found)))
}

/// What an item finds at the path that it names, if that has this row, or no row.
fn found_as(row: Option<&Row>) -> Found<'_>
    ensures { found_seen result ≡ needs.found_of (row_says row.entry) }
{
    match row {
        Some(Row::Port(port)) => Found::Port(port),
        Some(Row::Faulty(fault) | Row::BadPort(fault)) => Found::Faulted(fault.kind()),
        Some(Row::Lists(_) | Row::BadList(_) | Row::FlavoredList | Row::Other) => Found::NotPort,
        Some(Row::Absent) | None => Found::NotThere,
    }
}

/// The edges of the ports at these paths, by their rows: those of each port in the order of its items. The
/// status of each depends on the row of the path that its item names. It fails only if memory runs out.
pub(crate) fn edges_among(
    alloc: Global,
    paths: &[String],
    rows: &MemoryRows,
) -> Result<Vec<RootEdge>, AllocError>
    ensures { IfOk result (AreEdgesAmong paths.now rows.now) }
{
    let items = items_of_all(alloc, paths, rows)?;
    edges_of_all(alloc, items, rows)
}

/// The edges of the port at a path, if that is one of these, in the order of its items. Of all rows, it looks
/// at the port's own, and at those of the paths that its items name. It fails only if memory runs out.
pub(crate) fn edges_from(
    alloc: Global,
    path: &str,
    paths: &[String],
    rows: &MemoryRows,
) -> Result<Vec<RootEdge>, AllocError>
    ensures { GivesEdgesFrom path.now paths.now rows.now result }
{
    if !is_found_in(paths, path) {
        return Ok(Vec::new(alloc));
    }
    let mut items = Vec::new(alloc);
    add_items(alloc, &mut items, path, rows.get(path))?;
    edges_of_all(alloc, items, rows)
}
