//! The index of a ports tree in the plain reference, made at once from files.
ghost use Rattle.std.specs.Result.{result_err};
ghost use Rattle.mk_paths.specs.FilesView.{view_world};
ghost use Rattle.plain_reference.specs.Listing.{FillsPaths, GivesIndex, ListsAllPaths, ListsDirectories};
ghost use Rattle.plain_reference.specs.Listing.{TellsWorkOfIndex, TellsListWork};
ghost use Rattle.plain_reference.specs.Right.{AreOutcomes, Stay};
ghost use Rattle.port_index.specs.KeptFiles.{KeepsFiles};
ghost use Rattle.port_index.specs.Seen.{entries_in};

use crate::beside::paths_beside;
use crate::effort::Effort;
use crate::filled_rows::fill;
use mk_files::Listing;
use mk_paths::{FilesFault, Settings};
use port_index::{IndexPaths, KnownIndex, MemoryRows, directories, known_rows_are_enough, listed};
use std::alloc::Global;

/// The plain reference's index of a ports tree, and the effort for it.
#[derive(Debug, Drop)]
pub struct Index {
    /// The index, by the rows of its paths.
    pub known: KnownIndex,
    /// The effort that the index took.
    pub effort: Effort,
}

/// The plain reference's index of these files under these settings, made at once.
///
/// Each directory that a path without flavors and subpackage names is evaluated without flavors, if the
/// search path finds its makefile. So is the trees' own directory, shown as `.`.
///
/// If the makefile describes a port, the directory is a root. If it is a list, each word of its SUBDIR that
/// has a comma is a root, if it is a path below the list's directory that leads to a port. A fault makes the
/// directory, or that word, a root with the fault. A fault of SUBDIR makes its directory one.
///
/// Each makefile on which this depends is evaluated once for each choice of flavors: those of roots and
/// lists, and those that items name. It fails if the files fail, or if memory runs out.
pub fn index_files<F: Listing>(
    alloc: Global,
    files: &mut F,
    settings: &Settings,
) -> Result<Index, FilesFault>
    ensures known { GivesIndex result (view_world (F.view files.old) settings.now) }
    ensures effort { TellsWorkOfIndex result (view_world (F.view files.old) settings.now) }
    ensures keeps { KeepsFiles (result_err result) (F.view files.old) (F.view files.new) }
{
    let mut rows = MemoryRows::new(alloc);
    let Listed {
        directories,
        paths,
        effort,
    } = list(alloc, files, settings, &mut rows)?;
    known_rows_are_enough();
    let beside = paths_beside(alloc, &paths, &rows)?;
    let more = fill(alloc, files, settings, &beside, &mut rows)?;
    Ok(Index {
        known: KnownIndex {
            paths: IndexPaths {
                directories,
                listed: paths,
            },
            rows,
            edges: None,
        },
        effort: effort.and(more),
    })
}

/// The directories and the listed paths of the plain reference's index, and the effort to learn what they
/// lead to.
#[derive(Drop)]
struct Listed {
    directories: Vec<String>,
    paths: Vec<String>,
    effort: Effort,
}

/// Lists the directories and the paths of the plain reference's index. Each of them that has no row yet gets
/// one.
fn list<F: Listing>(
    alloc: Global,
    files: &mut F,
    settings: &Settings,
    rows: &mut MemoryRows,
) -> Result<Listed, FilesFault>
    requires { AreOutcomes (view_world (F.view files.old) settings.now) (entries_in rows.old) }
    ensures right { AreOutcomes (view_world (F.view files.old) settings.now) (entries_in rows.new) }
    ensures stay { Stay (entries_in rows.old) (entries_in rows.new) }
    ensures fills { FillsPaths result (view_world (F.view files.old) settings.now) rows.old rows.new }
    ensures effort { TellsListWork result (view_world (F.view files.old) settings.now) rows.old }
    ensures directories { ListsDirectories result (F.view files.old).files }
    ensures listed { ListsAllPaths result (view_world (F.view files.old) settings.now) }
    ensures keeps { KeepsFiles (result_err result) (F.view files.old) (F.view files.new) }
{
    known_rows_are_enough();
    let directories = directories(alloc, files)?;
    let first = fill(alloc, files, settings, &directories, rows)?;
    let paths = listed(alloc, &directories, rows)?;
    let more = fill(alloc, files, settings, &paths, rows)?;
    Ok(Listed {
        directories,
        paths,
        effort: first.and(more),
    })
}
