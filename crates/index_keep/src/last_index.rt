//! The last index, that before files changed: its lists are kept while no renewed row names other paths.
ghost use Rattle.std.specs.Prelude.{◌≡◌, true, IfSome};
ghost use Rattle.port_index.specs.Seen.{row_seen};
ghost use Rattle.index_keep.specs.Last.{NamesAsBefore};
ghost use Rattle.index_keep.specs.StartFacts.{KeepsIfAlike, KeepsListsIfAlike};

use port_index::{KnownIndex, MemoryRows, Row, name_alike};

/// The last index, which was at hand before files changed.
#[derive(Drop)]
pub(crate) struct HeldIndex {
    pub(crate) index: KnownIndex,
    /// Whether each makefile that has changed since was there before.
    pub(crate) were_there: bool,
}

/// The outdated rows of the last index, and their paths.
#[derive(Debug, Drop)]
pub(crate) struct LastIndex {
    pub(crate) outdated: MemoryRows,
    pub(crate) paths: Vec<String>,
}

/// The outdated rows of the last index, with the index's listed paths.
#[derive(Debug, Drop)]
pub(crate) struct LastLists {
    pub(crate) listed: Vec<String>,
    pub(crate) last: LastIndex,
}

impl LastIndex {
    /// Whether the last index has an outdated row of this path that names the same paths as this new row.
    fn names_alike(&self, path: &str, row: &Row) -> bool
        ensures { result ≡ true → NamesAsBefore path.now (row_seen row.now) self.now }
    {
        match self.outdated.get(path) {
            Some(old) => name_alike(old, row),
            None => false,
        }
    }
}

/// The last index, if its outdated row of this path names the same paths as this new row.
pub(crate) fn if_alike(last: Option<LastIndex>, path: &str, row: &Row) -> Option<LastIndex>
    ensures { IfSome result (KeepsIfAlike last path.now row.now) }
{
    let last = last?;
    if last.names_alike(path, row) {
        Some(last)
    } else {
        None
    }
}

/// The lists of the last index, if its outdated row of this path names the same paths as this new row.
pub(crate) fn lists_if_alike(lists: Option<LastLists>, path: &str, row: &Row) -> Option<LastLists>
    ensures { IfSome result (KeepsListsIfAlike lists path.now row.now) }
{
    let lists = lists?;
    if lists.last.names_alike(path, row) {
        Some(lists)
    } else {
        None
    }
}
