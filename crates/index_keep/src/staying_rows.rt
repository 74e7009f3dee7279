//! The rows that stay at the end of a refresh, and those that nothing needs, which are taken out.
ghost use Rattle.std.specs.Prelude.{map, string_bytes, OnErr};
ghost use Rattle.index_store.specs.Entries.{SameRows};
ghost use Rattle.index_keep.specs.EndFacts.{GivesOthers, GivesOthersOf, KeepsStaying, LeavesNeeded};
ghost use Rattle.index_keep.specs.EndFacts.{LeavesStaying, TellsStaying};
ghost use Rattle.index_keep.specs.Profiles.{WritesNoRow};
ghost use Rattle.index_keep.specs.StayingRows.{FindsStaying};

use crate::walk::LastStage;
use index_store::PathRows;
use mk_paths::FilesFault;
use port_index::{PathFinder, RowFinder};
use std::alloc::{AllocError, Global};

/// Takes out all rows but the fresh ones of needed paths, at the end of a refresh's walk, and gives the paths
/// of the rows that it took out. If it is known that there are none, it doesn't look for them. If it fails,
/// all rows stay.
pub(crate) fn leave_needed<R: PathRows>(
    alloc: Global,
    rows: &mut R,
    last: &LastStage,
) -> Result<Vec<String>, FilesFault>
    ensures leaves { LeavesNeeded R.entries last.now rows.old rows.new result }
    ensures err { OnErr result (SameRows (R.entries rows.old) (R.entries rows.new)) }
    ensures profiles { WritesNoRow R.profiles rows.old rows.new }
{
    match &last.beside {
        Some(beside) => take_out_others(alloc, rows, last, beside),
        None => Ok(Vec::new(alloc)),
    }
}

/// Takes out all rows but those that stay, the fresh ones of needed paths, and gives the paths of the rows
/// that it took out. If it fails, all rows stay.
fn take_out_others<R: PathRows>(
    alloc: Global,
    rows: &mut R,
    last: &LastStage,
    beside: &[String],
) -> Result<Vec<String>, FilesFault>
    ensures others { GivesOthers (R.entries rows.old) last.now beside.now result }
    ensures ok { LeavesStaying R.entries last.now beside.now rows.old rows.new result }
    ensures err { OnErr result (SameRows (R.entries rows.old) (R.entries rows.new)) }
    ensures profiles { WritesNoRow R.profiles rows.old rows.new }
{
    let paths = rows.paths(alloc)?;
    let others = others(alloc, paths, last, beside)?;
    if !others.is_empty() {
        rows.take_out(&others)?;
    }
    Ok(others)
}

/// Those of these paths whose rows don't stay at the end of a refresh, since they aren't fresh ones of needed
/// paths.
fn others(
    alloc: Global,
    paths: Vec<String>,
    last: &LastStage,
    beside: &[String],
) -> Result<Vec<String>, AllocError>
    ensures { GivesOthersOf paths last.now beside.now result }
{
    let mut others = Vec::new(alloc);
    let mut staying = StayingRows::new(last, beside);
    for path in paths {
        if !staying.has(path.as_str()) {
            others.push(path)?;
        }
    }
    Ok(others)
}

/// A finder of the rows that stay at the end of a walk. For paths in the order of their bytes, all take one
/// pass.
#[derive(Drop)]
struct StayingRows<'a> {
    listed: PathFinder<'a>,
    beside: PathFinder<'a>,
    known: RowFinder<'a>,
}

impl<'a> StayingRows<'a> {
    /// The rows that stay at the end of a walk: the fresh ones of needed paths.
    fn new(last: &'a LastStage, beside: &'a [String]) -> StayingRows<'a>
        ensures { FindsStaying last.now (map string_bytes beside.now) result }
    {
        StayingRows {
            listed: PathFinder::new(&last.listed),
            beside: PathFinder::new(beside),
            known: last.stage.known.finder(),
        }
    }

    /// Whether the row of a path stays at the end of a walk: whether it is a fresh one of a needed path.
    fn has(&mut self, path: &str) -> bool
        ensures stays { TellsStaying path.now self.old result }
        ensures finder { KeepsStaying self.old self.new }
    {
        let is_needed = self.listed.has(path) || self.beside.has(path);
        is_needed && self.known.get(path).is_some()
    }
}
