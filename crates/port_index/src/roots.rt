//! The roots of a ports tree, its ports and the faults where a port should be, by the rows of its paths.
ghost use Rattle.std.specs.Prelude.{◌≡◌, IfOk, OnOk, option_map};
ghost use Rattle.port_deps.specs.Roots.{state_lent};
ghost use Rattle.port_index.specs.Dependencies as needs;
ghost use Rattle.port_index.specs.Finders.{KeepsFinding};
ghost use Rattle.port_index.specs.FromRows.{AreRootsAmong, IsRootAmong, AddsRoot, FindsPortsThat, AddsPortIfFound};
ghost use Rattle.port_index.specs.Seen.{row_says};

use crate::memory_rows::MemoryRows;
use crate::path_finder::PathFinder;
use crate::path_outcomes::Row;
use crate::tree_paths::is_found_in;
use mk_base::Fault;
use port_deps::Root;
use port_rules::PortRecord;
use std::alloc::{AllocError, Global};

/// The root at a path, by the path's row, if that path is one of these and there is a root. It takes no
/// memory.
pub(crate) fn root_among<'a>(
    path: &'a str,
    paths: &[String],
    rows: &'a MemoryRows,
) -> Option<Root<'a>>
    ensures { IsRootAmong path.now paths.now rows.now result }
{
    if is_found_in(paths, path) {
        root_with(path, rows.get(path))
    } else {
        None
    }
}

/// The root at a path with this row, if the row is a port or a fault.
fn root_with<'a>(path: &'a str, row: Option<&'a Row>) -> Option<Root<'a>>
    ensures { result ≡ needs.root_with path.now (needs.root_state (row_says row.entry)) }
{
    match state_of(row) {
        Some(state) => Some(Root::new(path, state)),
        None => None,
    }
}

/// The roots at these paths, by their rows, in their order: the ports, and the faults there. They are lent by
/// the paths and the rows. It fails only if memory runs out.
pub(crate) fn roots_among<'a>(
    alloc: Global,
    paths: &'a [String],
    rows: &'a MemoryRows,
) -> Result<Vec<Root<'a>>, AllocError>
    ensures { IfOk result (AreRootsAmong paths.now rows.now) }
{
    let mut found = Vec::with_capacity(alloc, paths.len())?;
    let mut finder = rows.finder();
    for path in paths {
        add_root(&mut found, path, finder.get(path))?;
    }
    Ok(found)
}

/// Adds the root at a path with this row, if there is a root.
fn add_root<'a>(
    found: &mut Vec<Root<'a>>,
    path: &'a str,
    row: Option<&'a Row>,
) -> Result<(), AllocError>
    ensures { OnOk result (AddsRoot path.now (row_says row.entry) found.old found.new) }
{
    if let Some(root) = root_with(path, row) {
        found.push(root)?;
    }
    Ok(())
}

/// The roots at these paths that are ports and pass a test, in the order of the paths, which is that of their
/// bytes. They are lent by the paths and the rows. It goes through the rows, so paths whose row doesn't pass
/// the test aren't looked at. It fails only if memory runs out.
pub(crate) fn ports_among<'a, F: Fn(&PortRecord) -> bool>(
    alloc: Global,
    paths: &'a [String],
    rows: &'a MemoryRows,
    passes: F,
) -> Result<Vec<Root<'a>>, AllocError>
    requires { F.IsAlwaysCallable passes }
    ensures { FindsPortsThat F.Fn passes paths.now rows.now result }
{
    let mut found = Vec::new(alloc);
    let mut finder = PathFinder::new(paths);
    for (path, known) in &rows.noted.rows {
        if let Row::Port(port) = &known.row {
            if passes(port) {
                add_port(&mut found, &mut finder, path, port)?;
            }
        }
    }
    Ok(found)
}

/// Adds the root at a path that is a port, if the path is found.
fn add_port<'a>(
    found: &mut Vec<Root<'a>>,
    finder: &mut PathFinder<'_>,
    path: &'a str,
    port: &'a PortRecord,
) -> Result<(), AllocError>
    ensures added { AddsPortIfFound path.now port.now finder.old found.old found.new result }
    ensures finder { KeepsFinding finder.old finder.new }
{
    if finder.has(path) {
        found.push(Root::new(path, Ok(port)))?;
    }
    Ok(())
}

/// The state of the root that a row makes, if it makes one: a port, or a fault.
fn state_of(row: Option<&Row>) -> Option<Result<&PortRecord, &Fault>>
    ensures { option_map state_lent result ≡ needs.root_state (row_says row.entry) }
{
    match row {
        Some(Row::Port(port)) => Some(Ok(port)),
        Some(Row::Faulty(fault) | Row::BadPort(fault) | Row::BadList(fault)) => Some(Err(fault)),
        Some(Row::Absent | Row::Lists(_) | Row::FlavoredList | Row::Other) | None => None,
    }
}
