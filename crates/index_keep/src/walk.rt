//! The walk of a refresh through the paths on which the index depends, stage after stage, until each path has
//! its row.
ghost use Rattle.std.specs.Prelude.{string_bytes, OnOk, OnErr};
ghost use Rattle.port_index.specs.Seen.{known_seen};
ghost use Rattle.read_trace.specs.Recorder.{view_of};
ghost use Rattle.index_store.specs.Entries.{SameRows, SameProfiles};
ghost use Rattle.index_keep.specs.Right.{LeavesAskedFiles};
ghost use Rattle.index_keep.specs.Shown.{MarksAsking};
ghost use Rattle.index_keep.specs.TurnFacts.{AreKeptAfter, BeginsWalk, HoldsLast};
ghost use Rattle.index_keep.specs.WalkFacts.{BeginsAnew, BeginsStage, ComesToLast, ComesToListed};
ghost use Rattle.index_keep.specs.WalkFacts.{ComesToNext, FollowsLast, WalksWithRow};
ghost use Rattle.index_keep.specs.declared.walk.Walk.TheVariants.{Directories, Listed, Needed};

use crate::beside::paths_beside;
use crate::last_index::{HeldIndex, LastIndex, LastLists, if_alike, lists_if_alike};
use crate::path_ask::FoundPath;
use crate::refresh_start::{Begun, begin, begin_over};
use crate::stage::{Stage, found_among, lacking_among};
use index_store::PathRows;
use mk_files::{Files, Listing};
use mk_paths::{FilesFault, Settings};
use port_index::{
    KnownRow, alike_rows_list_the_same, directories, known_rows_are_enough, listed,
    makefiles_are_of_directories, makefiles_are_there, needed_are_named,
};
use read_trace::Recorder;
use std::alloc::{AllocError, Global};
use std::collections::BTreeSet;
use text_parts::clones_of;

/// The stage of the directories, all of them, and the lists of the index of before, if it may still have the same.
#[derive(Debug, Drop)]
pub(crate) struct DirectoryStage {
    pub(crate) stage: Stage,
    pub(crate) directories: Vec<String>,
    pub(crate) lists: Option<LastLists>,
}

/// The stage of the listed paths, all of them, the directories, and the index of before, if it may still have the same
/// lists.
#[derive(Debug, Drop)]
pub(crate) struct ListedStage {
    pub(crate) stage: Stage,
    pub(crate) directories: Vec<String>,
    pub(crate) listed: Vec<String>,
    pub(crate) last: Option<LastIndex>,
}

/// The last stage, that of the paths beside the listed ones on which the index depends, and the directories and the listed
/// paths.
#[derive(Debug, Drop)]
pub(crate) struct LastStage {
    pub(crate) stage: Stage,
    pub(crate) directories: Vec<String>,
    pub(crate) listed: Vec<String>,
    /// The paths beside the listed ones that have a makefile. They aren't known if the lists of the index of before are
    /// kept, since no rows have to go then.
    pub(crate) beside: Option<Vec<String>>,
}

/// A refresh that is under way.
#[derive(Debug, Drop)]
pub(crate) enum Walk {
    /// It goes through the directories.
    Directories(DirectoryStage),
    /// It goes through the listed paths: directories, and what lists among them name.
    Listed(ListedStage),
    /// It goes through the other paths on which the index depends.
    Needed(LastStage),
}

/// What a walk comes to next.
#[derive(Drop)]
pub(crate) enum Next {
    /// This path has no fresh row, and this is its makefile.
    Lacks(Walk, FoundPath),
    /// Each path with a makefile on which the index depends has a fresh row.
    All(LastStage),
}

/// The walk with which a refresh begins after files of these names have changed, by the index before that, if it is in
/// memory. The rows that asked for these names are marked. If it fails, nothing is marked.
pub(crate) fn begin_walk<F: Listing + Drop, R: PathRows>(
    alloc: Global,
    files: &mut Recorder<F>,
    settings: &Settings,
    rows: &mut R,
    last: Option<HeldIndex>,
    changed: &BTreeSet<String>,
) -> Result<Walk, FilesFault>
    requires kept { AreKeptAfter F.view R.entries files.old settings.now changed.now rows.old }
    requires last { HoldsLast F.view R.entries files.old settings.now changed.now rows.old last }
    ensures walk { BeginsWalk F.view R.entries files.old settings.now rows.new result }
    ensures marked { OnOk result (MarksAsking R.entries changed.now rows.old rows.new) }
    ensures err { OnErr result (SameRows (R.entries rows.old) (R.entries rows.new)) }
    ensures profiles { SameProfiles (R.profiles rows.old) (R.profiles rows.new) }
    ensures leaves { LeavesAskedFiles F.view result files.old files.new }
{
    match last {
        Some(held) => {
            let HeldIndex { index, were_there } = held;
            let are_there = makefiles_are_there(alloc, files, changed)?;
            let begun = begin_over(alloc, index, changed)?;
            let outdated = clones_of(alloc, &begun.lists.last.paths)?;
            let serves = were_there && are_there;
            let first = first_stage(alloc, files, begun, serves)?;
            rows.mark(&outdated)?;
            Ok(Walk::Directories(first))
        }
        None => {
            let directories = directories(alloc, files)?;
            let paths = clones_of(alloc, &directories)?;
            let known = begin(alloc, rows, changed)?;
            Ok(Walk::Directories(DirectoryStage {
                stage: Stage::new(paths, known),
                directories,
                lists: None,
            }))
        }
    }
}

/// The first stage of a walk, over directories: those of the index of before if they serve, or else those that
/// are there.
fn first_stage<F: Listing + Drop>(
    alloc: Global,
    files: &mut Recorder<F>,
    begun: Begun,
    serves: bool,
) -> Result<DirectoryStage, FilesFault>
    ensures stage { BeginsStage (view_of F.view files.old).files begun serves result }
    ensures leaves { LeavesAskedFiles F.view result files.old files.new }
{
    if serves {
        return Ok(kept_stage(alloc, begun)?);
    }
    let directories = directories(alloc, files)?;
    Ok(other_stage(alloc, directories, begun)?)
}

/// The stage of a walk over the directories of the index of before, whose lists may be kept.
fn kept_stage(alloc: Global, begun: Begun) -> Result<DirectoryStage, AllocError>
    ensures { FollowsLast begun result }
{
    let Begun {
        known,
        directories,
        lists,
    } = begun;
    let paths = found_among(alloc, &lists.last.paths, &directories)?;
    Ok(DirectoryStage {
        stage: Stage::new(paths, known),
        directories,
        lists: Some(lists),
    })
}

/// The stage of a walk over directories that aren't those of the index of before.
fn other_stage(
    alloc: Global,
    directories: Vec<String>,
    begun: Begun,
) -> Result<DirectoryStage, AllocError>
    ensures { BeginsAnew directories begun result }
{
    let known = begun.known;
    let paths = lacking_among(alloc, &directories, &known)?;
    Ok(DirectoryStage {
        stage: Stage::new(paths, known),
        directories,
        lists: None,
    })
}

impl Walk {
    /// Goes on with a refresh's walk to the next path with a makefile that has no fresh row, or to its end.
    /// It fails if the files fail, or if memory runs out.
    pub(crate) fn next<F: Files + Drop>(
        self,
        alloc: Global,
        files: &mut Recorder<F>,
        settings: &Settings,
    ) -> Result<Next, FilesFault>
        ensures next { ComesToNext F.view files.old settings.now self result }
        ensures leaves { LeavesAskedFiles F.view result files.old files.new }
    {
        match self {
            Walk::Directories(first) => next_directory(alloc, files, settings, first),
            Walk::Listed(listed) => next_listed(alloc, files, settings, listed),
            Walk::Needed(last) => next_needed(alloc, files, settings, last),
        }
    }

    /// The walk of a refresh, told of one more fresh row. It fails only if memory runs out.
    pub(crate) fn with_row(self, path: String, row: KnownRow) -> Result<Walk, AllocError>
        ensures { WalksWithRow (string_bytes path) (known_seen row) self result }
    {
        alike_rows_list_the_same();
        match self {
            Walk::Directories(first) => {
                let DirectoryStage {
                    mut stage,
                    directories,
                    lists,
                } = first;
                let lists = lists_if_alike(lists, path.as_str(), &row.row);
                stage.know(path, row)?;
                Ok(Walk::Directories(DirectoryStage {
                    stage,
                    directories,
                    lists,
                }))
            }
            Walk::Listed(next) => {
                let ListedStage {
                    mut stage,
                    directories,
                    listed,
                    last,
                } = next;
                let last = if_alike(last, path.as_str(), &row.row);
                stage.know(path, row)?;
                Ok(Walk::Listed(ListedStage {
                    stage,
                    directories,
                    listed,
                    last,
                }))
            }
            Walk::Needed(last) => {
                let mut last = last;
                last.stage.know(path, row)?;
                Ok(Walk::Needed(last))
            }
        }
    }
}

/// Goes on with a walk in its stage of the directories, and then in that of the listed paths.
fn next_directory<F: Files + Drop>(
    alloc: Global,
    files: &mut Recorder<F>,
    settings: &Settings,
    first: DirectoryStage,
) -> Result<Next, FilesFault>
    ensures next { ComesToNext F.view files.old settings.now (Directories first) result }
    ensures leaves { LeavesAskedFiles F.view result files.old files.new }
{
    known_rows_are_enough();
    let mut first = first;
    match first.stage.pass(alloc, files, settings)? {
        Some(found) => Ok(Next::Lacks(Walk::Directories(first), found)),
        None => next_listed(alloc, files, settings, listed_stage(alloc, first)?),
    }
}

/// The walk's stage of the listed paths, after that of the directories. The list of the index of before is
/// kept, if it may be.
fn listed_stage(alloc: Global, first: DirectoryStage) -> Result<ListedStage, AllocError>
    ensures { ComesToListed first result }
{
    alike_rows_list_the_same();
    let DirectoryStage {
        stage,
        directories,
        lists,
    } = first;
    let known = stage.known;
    match lists {
        Some(lists) => {
            let LastLists { listed, last } = lists;
            let paths = found_among(alloc, &last.paths, &listed)?;
            Ok(ListedStage {
                stage: Stage::new(paths, known),
                directories,
                listed,
                last: Some(last),
            })
        }
        None => {
            let listed = listed(alloc, &directories, &known)?;
            let paths = lacking_among(alloc, &listed, &known)?;
            Ok(ListedStage {
                stage: Stage::new(paths, known),
                directories,
                listed,
                last: None,
            })
        }
    }
}

/// Goes on with a walk in its stage of the listed paths, and then in its last stage.
fn next_listed<F: Files + Drop>(
    alloc: Global,
    files: &mut Recorder<F>,
    settings: &Settings,
    listed: ListedStage,
) -> Result<Next, FilesFault>
    ensures next { ComesToNext F.view files.old settings.now (Listed listed) result }
    ensures leaves { LeavesAskedFiles F.view result files.old files.new }
{
    known_rows_are_enough();
    let mut listed = listed;
    match listed.stage.pass(alloc, files, settings)? {
        Some(found) => Ok(Next::Lacks(Walk::Listed(listed), found)),
        None => {
            let last = last_stage(alloc, files, settings, listed)?;
            next_needed(alloc, files, settings, last)
        }
    }
}

/// The walk's last stage, that of the paths beside the listed ones, after that of these.
fn last_stage<F: Files + Drop>(
    alloc: Global,
    files: &mut Recorder<F>,
    settings: &Settings,
    next: ListedStage,
) -> Result<LastStage, FilesFault>
    ensures last { ComesToLast F.view files.old settings.now next result }
    ensures leaves { LeavesAskedFiles F.view result files.old files.new }
{
    alike_rows_list_the_same();
    known_rows_are_enough();
    needed_are_named();
    let ListedStage {
        stage,
        directories,
        listed,
        last,
    } = next;
    let known = stage.known;
    match last {
        Some(last) => Ok(LastStage {
            stage: Stage::new(last.paths, known),
            directories,
            listed,
            beside: None,
        }),
        None => {
            makefiles_are_of_directories(settings);
            let beside = paths_beside(alloc, files, settings, &listed, &known)?;
            let paths = lacking_among(alloc, &beside, &known)?;
            Ok(LastStage {
                stage: Stage::new(paths, known),
                directories,
                listed,
                beside: Some(beside),
            })
        }
    }
}

/// Goes on with a walk in its last stage, that of the paths beside the listed ones, up to its end.
fn next_needed<F: Files + Drop>(
    alloc: Global,
    files: &mut Recorder<F>,
    settings: &Settings,
    last: LastStage,
) -> Result<Next, FilesFault>
    ensures next { ComesToNext F.view files.old settings.now (Needed last) result }
    ensures leaves { LeavesAskedFiles F.view result files.old files.new }
{
    let mut last = last;
    match last.stage.pass(alloc, files, settings)? {
        Some(found) => Ok(Next::Lacks(Walk::Needed(last), found)),
        None => Ok(Next::All(last)),
    }
}
