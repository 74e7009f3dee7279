//! The start of a refresh: which stored rows are fresh, and which have to be marked as stale.
ghost use Rattle.std.specs.Prelude.{◌≡◌, IfOk, OnOk, OnErr};
ghost use Rattle.port_index.specs.Seen.{known_seen};
ghost use Rattle.index_store.specs.Entries.{SameRows, SameProfiles};
ghost use Rattle.index_row.specs.Seen.{kept_row_seen};
ghost use Rattle.index_keep.specs.Shown.{MarksAsking, said_by, shown_after, shown_in};
ghost use Rattle.index_keep.specs.StartFacts.{AddsFresh, AddsOutdated, HasOutdated, IsJudgedAs};
ghost use Rattle.index_keep.specs.StartFacts.{IsJudgedRow, KnowsFresh, LeavesOut, RecallsLast};
ghost use Rattle.index_keep.specs.StartFacts.{SortsFresh, SortsOutdated, TakesOnly};
ghost use Rattle.index_keep.specs.Walk.{Says};

use crate::last_index::{LastIndex, LastLists};
use index_row::{KeptRow, read_row};
use index_store::{PathRows, StoredRow};
use mk_paths::FilesFault;
use port_index::{IndexPaths, KnownIndex, KnownRow, MemoryRows, is_one_among};
use std::alloc::{AllocError, Global};
use std::collections::BTreeSet;

/// What a stored row is to a refresh.
#[derive(Drop)]
pub(crate) enum Judged {
    /// It is fresh, and says this.
    Fresh(KnownRow),
    /// It asked for a name that has changed since, and isn't marked yet.
    Outdated,
    /// It is marked, or its bytes are no row.
    Unusable,
}

/// The rows with which a refresh starts: those that are fresh after files of these names have changed. The
/// rows that asked for them are marked, so that the names need no longer be known. If it fails, nothing is
/// marked.
pub(crate) fn begin<R: PathRows>(
    alloc: Global,
    rows: &mut R,
    changed: &BTreeSet<String>,
) -> Result<MemoryRows, FilesFault>
    ensures known { IfOk result (Says (shown_after R.entries changed.now rows.old)) }
    ensures marked { OnOk result (MarksAsking R.entries changed.now rows.old rows.new) }
    ensures err { OnErr result (SameRows (R.entries rows.old) (R.entries rows.new)) }
    ensures profiles { SameProfiles (R.profiles rows.old) (R.profiles rows.new) }
{
    let stored = rows.rows(alloc)?;
    let Sorted { known, outdated } = sort(alloc, stored, changed)?;
    rows.mark(&outdated)?;
    Ok(known)
}

/// What a refresh starts with over the index of before.
#[derive(Drop)]
pub(crate) struct Begun {
    /// The rows that are fresh.
    pub(crate) known: MemoryRows,
    /// The directories of that index.
    pub(crate) directories: Vec<String>,
    /// Its listed paths, and its outdated rows.
    pub(crate) lists: LastLists,
}

/// What a refresh starts with by what all rows said before files of these names changed. It fails only if
/// memory runs out.
pub(crate) fn begin_over(
    alloc: Global,
    last: KnownIndex,
    changed: &BTreeSet<String>,
) -> Result<Begun, AllocError>
    ensures known { KnowsFresh changed.now last result }
    ensures directories { IfOk result (λ begun. begun.directories ≡ last.paths.directories) }
    ensures outdated { IfOk result (HasOutdated changed.now last.rows) }
    ensures recalls { RecallsLast changed.now last result }
{
    let KnownIndex {
        paths,
        rows: known,
        ..
    } = last;
    let asking = known.paths_asking(alloc, changed)?;
    let Parted { left, taken } = part(alloc, known, &asking)?;
    let IndexPaths {
        directories,
        listed,
    } = paths;
    let last = LastIndex {
        outdated: taken,
        paths: asking,
    };
    Ok(Begun {
        known: left,
        directories,
        lists: LastLists { listed, last },
    })
}

/// The rows of an index in two parts, the fresh ones and the outdated ones.
struct Parted {
    left: MemoryRows,
    taken: MemoryRows,
}

/// Rows in two parts at the start of a refresh: those that are left without those of these paths, and those
/// of them.
fn part(alloc: Global, known: MemoryRows, paths: &[String]) -> Result<Parted, AllocError>
    ensures left { IfOk result (λ parted. LeavesOut paths.now known parted.left) }
    ensures taken { IfOk result (λ parted. TakesOnly paths.now known parted.taken) }
{
    let mut left = known;
    let mut taken = MemoryRows::new(alloc);
    for path in paths {
        if let Some(row) = left.take_out(path.as_str()) {
            taken.put(String::from_str(alloc, path.as_str())?, row)?;
        }
    }
    Ok(Parted { left, taken })
}

/// The rows in memory that are left without those of these paths.
pub(crate) fn without(known: MemoryRows, paths: &[String]) -> MemoryRows
    ensures { LeavesOut paths.now known result }
{
    let mut known = known;
    for path in paths {
        let _taken = known.take_out(path.as_str());
    }
    known
}

/// The rows with which a refresh starts if no name has changed since rows were marked: those that are fresh.
pub(crate) fn fresh_rows<R: PathRows>(alloc: Global, rows: &mut R) -> Result<MemoryRows, FilesFault>
    ensures known { IfOk result (Says (shown_in R.entries rows.old)) }
    ensures same { SameRows (R.entries rows.old) (R.entries rows.new) }
    ensures profiles { SameProfiles (R.profiles rows.old) (R.profiles rows.new) }
{
    let stored = rows.rows(alloc)?;
    let changed = BTreeSet::new(alloc);
    Ok(sort(alloc, stored, &changed)?.known)
}

/// Stored rows sorted at the start of a refresh: those that are fresh, and the paths of those that have to be
/// marked.
#[derive(Drop)]
struct Sorted {
    known: MemoryRows,
    outdated: Vec<String>,
}

/// Sorts stored rows at the start of a refresh: the fresh ones, and the paths of those that asked for a name
/// that has changed.
fn sort(
    alloc: Global,
    stored: Vec<StoredRow>,
    changed: &BTreeSet<String>,
) -> Result<Sorted, AllocError>
    ensures known { SortsFresh changed.now stored result }
    ensures outdated { SortsOutdated changed.now stored result }
{
    let mut sorted = Sorted {
        known: MemoryRows::new(alloc),
        outdated: Vec::new(alloc),
    };
    for row in stored {
        add(alloc, &mut sorted, row, changed)?;
    }
    Ok(sorted)
}

/// Adds one stored row to those that were sorted at the start of a refresh.
fn add(
    alloc: Global,
    sorted: &mut Sorted,
    stored: StoredRow,
    changed: &BTreeSet<String>,
) -> Result<(), AllocError>
    ensures known { OnOk result (AddsFresh changed.now stored sorted.old sorted.new) }
    ensures outdated { OnOk result (AddsOutdated changed.now stored sorted.old sorted.new) }
{
    match judge(alloc, &stored, changed)? {
        Judged::Fresh(known) => sorted.known.put(stored.path, known)?,
        Judged::Outdated => sorted.outdated.push(stored.path)?,
        Judged::Unusable => {}
    }
    Ok(())
}

/// What a stored row is at the start of a refresh, after files of these names have changed: fresh, asked for
/// one of them, or stale.
fn judge(
    alloc: Global,
    stored: &StoredRow,
    changed: &BTreeSet<String>,
) -> Result<Judged, AllocError>
    ensures { IfOk result (IsJudgedAs changed.now stored.now) }
{
    if stored.is_stale {
        return Ok(Judged::Unusable);
    }
    match read_row(alloc, &stored.text)? {
        Some(row) => Ok(judge_row(row, stored.text.len() as u64, changed)),
        None => Ok(Judged::Unusable),
    }
}

/// What a row of so many bytes that isn't marked as stale is after files of these names have changed.
fn judge_row(row: KeptRow, size: u64, changed: &BTreeSet<String>) -> Judged
    ensures { IsJudgedRow changed.now row result }
{
    if is_one_among(&row.names, changed) {
        return Judged::Outdated;
    }
    Judged::Fresh(known_row(row, size))
}

/// The part of a stored row, of so many bytes, that a refresh knows in memory.
pub(crate) fn known_row(row: KeptRow, size: u64) -> KnownRow
    ensures { known_seen result ≡ said_by (kept_row_seen row) }
{
    KnownRow {
        row: row.found.row,
        names: row.names,
        size,
    }
}
