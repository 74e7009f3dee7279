//! The turns of a keeper's refresh: each renews a row of the index, or ends the refresh.
ghost use Rattle.std.specs.Prelude.{◌≡◌, string_bytes, OnOk, OnErr};
ghost use Rattle.read_trace.specs.Recorder.{view_of};
ghost use Rattle.eval_cache.specs.CacheUse.{UsesCache};
ghost use Rattle.index_store.specs.Entries.{SameRows, KeepsProfiles};
ghost use Rattle.turn_amounts.specs.Spent.{no_spending};
ghost use Rattle.index_row.specs.Seen.{kept_row_seen};
ghost use Rattle.eval_ask.specs.Ask.{HasBegun};
ghost use Rattle.index_keep.specs.Shown.{said_by, shown_in, ShowsSame};
ghost use Rattle.index_keep.specs.Profiles.{KeeperWrites, WritesIn, WritesNoRow, profiles_of};
ghost use Rattle.index_keep.specs.Right.{LeavesAskedFiles, UsesFilesAndCache};
ghost use Rattle.index_keep.specs.Paths.{IsUpTo};
ghost use Rattle.index_keep.specs.Keeper.{begun_in, keeper_rows, DropsKeeperTurn, IsDone};
ghost use Rattle.index_keep.specs.Keeper.{IsKeptOver, RunsTurn, StaysKept};
ghost use Rattle.index_keep.specs.TurnFacts.{current_with, AreKeptAfter, BeginsWalk, EndsWalk};
ghost use Rattle.index_keep.specs.TurnFacts.{HoldsLast, IsTakenWalk, KeepsAsked, KeepsAtEnd};
ghost use Rattle.index_keep.specs.TurnFacts.{MarksForWalk, PutsNamesBack, PutsShownRow, EndsPath};
ghost use Rattle.index_keep.specs.TurnFacts.{KeepsEnded, StaysAsItWas, TurnsAsked, TurnsWalk};
ghost use Rattle.index_keep.specs.WalkFacts.{WalksWithRow};

use crate::keeper::{Keeper, Progress, Refreshed};
use crate::last_index::HeldIndex;
use crate::path_ask::{MadeRow, PathAsk, PathTurned};
use crate::refresh_start::{fresh_rows, known_row, without};
use crate::staying_rows::leave_needed;
use crate::walk::{LastStage, Next, Walk, begin_walk};
use eval_cache::EvalCache;
use index_row::{KeptRow, write_row};
use index_store::PathRows;
use mk_files::Listing;
use mk_paths::{FilesFault, Settings};
use mk_text::Profile;
use port_index::{IndexPaths, KnownIndex};
use read_trace::Recorder;
use std::alloc::Global;
use std::collections::BTreeSet;
use std::mem;
use turn_amounts::{Spent, spent_since};

/// What a turn of a refresh is given: settings, and units.
#[derive(Clone, Copy)]
pub(crate) struct Given<'a> {
    pub(crate) settings: &'a Settings,
    pub(crate) units: u64,
}

/// A walk, and the profile with which the rows are written that are made on it.
#[derive(Drop)]
pub(crate) struct WritingWalk {
    pub(crate) walk: Walk,
    profile: Profile,
}

/// A walk with the path that is evaluated on it.
#[derive(Drop)]
pub(crate) struct WritingAsk {
    pub(crate) writing: WritingWalk,
    pub(crate) ask: PathAsk,
}

impl<R: PathRows + Drop> Keeper<R> {
    /// Takes a turn of a refresh: goes on with it, or begins one, up to the next path that has no fresh row.
    /// That path is evaluated in these files under these settings, until so many units are spent. Each answer
    /// that is checked counts as one of them. The evaluation is one that the cache keeps, if the files agree
    /// with it. If it is at its end and fewer units are spent in this turn, the path's row is made and
    /// written; otherwise the next turn goes on there. Once each path has its row, the rows that nothing
    /// needs are taken out, and the refresh is done: the index is at hand. If it was put away, and nothing
    /// has changed, a turn reads the rows again. Before the last thing that a turn does, it has spent fewer
    /// than its units, and so it spends at most 50,000 more.
    ///
    /// # Errors
    ///
    /// It fails if the files or the rows fail, or if memory runs out. Then no row changes, and an evaluation that
    /// was under way is dropped.
    pub fn refresh_turn<F: Listing + Drop>(
        &mut self,
        alloc: Global,
        cache: &mut EvalCache,
        files: &mut Recorder<F>,
        settings: &Settings,
        units: u64,
    ) -> Result<Refreshed, FilesFault>
        requires { IsKeptOver F.view R.entries files.old settings.now self.old }
        ensures turn { RunsTurn F.view R.entries files.old settings.now units self.old self.new result }
        ensures err { OnErr result (DropsKeeperTurn R.entries self.old self.new) }
        ensures kept { IsKeptOver F.view R.entries files.old settings.now self.new }
        ensures profiles { KeeperWrites R.profiles settings.now.profile self.old self.new }
        ensures leaves { UsesFilesAndCache F.view result files.old files.new cache.old cache.new }
    {
        let given = Given { settings, units };
        match mem::replace(&mut self.progress, Progress::nothing(alloc)) {
            Progress::Changed(names, last) => {
                let walk = self.begun(alloc, files, settings, last, names)?;
                self.walk_on(alloc, cache, files, given, walk)
            }
            Progress::Walking(walk) => self.walk_on(alloc, cache, files, given, walk),
            Progress::Asking(walk, ask) => {
                let profile = settings.profile;
                let writing = WritingWalk { walk, profile };
                let asking = WritingAsk { writing, ask };
                self.ask_on(alloc, cache, files, asking, units)
            }
            Progress::Current(paths) => {
                self.read_index(alloc, paths)?;
                Ok(Refreshed::Done)
            }
            Progress::AtHand(index) => {
                self.progress = Progress::AtHand(index);
                Ok(Refreshed::Done)
            }
        }
    }

    /// Goes on with a refresh's walk, which was taken out of the keeper: to its next path that has no fresh
    /// row, or to its end.
    fn walk_on<F: Listing + Drop>(
        &mut self,
        alloc: Global,
        cache: &mut EvalCache,
        files: &mut Recorder<F>,
        given: Given,
        walk: Walk,
    ) -> Result<Refreshed, FilesFault>
        requires { IsTakenWalk F.view R.entries files.old given.settings.now self.old walk }
        ensures turn { TurnsWalk F.view R.entries files.old given.entry self.old self.new result }
        ensures kept { OnOk result (IsKeptOver F.view R.entries files.old given.entry.settings.now self.new) }
        ensures err { OnErr result (StaysAsItWas R.entries self.old self.new) }
        ensures profiles { KeeperWrites R.profiles given.entry.settings.now.profile self.old self.new }
        ensures leaves { LeavesAskedFiles F.view result files.old files.new }
        ensures uses { UsesCache cache.old cache.new }
    {
        let Given { settings, units } = given;
        match walk.next(alloc, files, settings)? {
            Next::Lacks(walk, found) => {
                let turned = PathAsk::begin(alloc, cache, files, settings, found, units)?;
                let profile = settings.profile;
                let writing = WritingWalk { walk, profile };
                self.settle(alloc, writing, Spent::nothing(), turned)
            }
            Next::All(last) => {
                self.end(alloc, last)?;
                Ok(Refreshed::Done)
            }
        }
    }

    /// Goes on with the evaluation of a path on a refresh's walk; both were taken out of the keeper.
    fn ask_on<F: Listing + Drop>(
        &mut self,
        alloc: Global,
        cache: &mut EvalCache,
        files: &mut Recorder<F>,
        asking: WritingAsk,
        units: u64,
    ) -> Result<Refreshed, FilesFault>
        requires { HasBegun (view_of F.view files.old).files asking.ask.ask }
        ensures turn { TurnsAsked F.view R.entries files.old asking units self.old self.new result }
        ensures kept { KeepsAsked F.view R.entries files.old asking self.old self.new result }
        ensures err { OnErr result (StaysAsItWas R.entries self.old self.new) }
        ensures profiles { KeeperWrites R.profiles asking.writing.profile self.old self.new }
        ensures leaves { LeavesAskedFiles F.view result files.old files.new }
        ensures uses { UsesCache cache.old cache.new }
    {
        let WritingAsk { writing, ask } = asking;
        let before = ask.spent();
        let turned = ask.turn(alloc, cache, files, units)?;
        self.settle(alloc, writing, before, turned)
    }

    /// Ends a turn of a refresh: the row of the path is written, if it is made, or its evaluation is kept for
    /// the next turn. So much was spent on the path before this turn.
    fn settle(
        &mut self,
        alloc: Global,
        writing: WritingWalk,
        before: Spent,
        turned: PathTurned,
    ) -> Result<Refreshed, FilesFault>
        requires { IsUpTo before turned }
        ensures settles { EndsPath R.entries writing.walk before turned self.old self.new result }
        ensures kept { KeepsEnded R.entries writing.walk before turned self.old self.new result }
        ensures err { OnErr result (StaysAsItWas R.entries self.old self.new) }
        ensures profiles { KeeperWrites R.profiles writing.profile self.old self.new }
    {
        let WritingWalk { walk, profile } = writing;
        match turned {
            PathTurned::Made(made) => {
                let MadeRow { path, row, spent } = made;
                let walk = put_row(alloc, &mut self.rows, walk, path, profile, row)?;
                self.progress = Progress::Walking(walk);
                Ok(Refreshed::Evaluated(spent_since(before, spent)))
            }
            PathTurned::More(ask) => {
                let spent = spent_since(before, ask.spent());
                self.progress = Progress::Asking(walk, ask);
                Ok(Refreshed::More(spent))
            }
        }
    }

    /// Ends a refresh: takes out the rows that nothing needs, and keeps the index of the others at hand.
    fn end(&mut self, alloc: Global, last: LastStage) -> Result<(), FilesFault>
        ensures ends { EndsWalk R.entries last self.old self.new result }
        ensures kept { KeepsAtEnd R.entries last self.old self.new result }
        ensures done { OnOk result (IsDone self.new) }
        ensures err { OnErr result (StaysAsItWas R.entries self.old self.new) }
        ensures profiles { WritesNoRow (profiles_of R.profiles) self.old self.new }
    {
        let others = leave_needed(alloc, &mut self.rows, &last)?;
        let LastStage {
            stage,
            directories,
            listed,
            ..
        } = last;
        self.progress = Progress::AtHand(KnownIndex {
            paths: IndexPaths {
                directories,
                listed,
            },
            rows: without(stage.known, &others),
            edges: None,
        });
        Ok(())
    }

    /// Reads the rows into memory again after the index was put away, all of which are right; the index's
    /// paths were taken out of the keeper. If that fails, they are put back.
    fn read_index(&mut self, alloc: Global, paths: IndexPaths) -> Result<(), FilesFault>
        ensures rows { ShowsSame (shown_in R.entries self.old.rows) (keeper_rows R.entries self.new) }
        ensures begun { begun_in self.new.progress ≡ no_spending }
        ensures done { OnOk result (IsDone self.new) }
        ensures kept { StaysKept R.entries (current_with paths self.old) self.new }
        ensures profiles { KeepsProfiles (profiles_of R.profiles) self.old self.new }
    {
        match fresh_rows(alloc, &mut self.rows) {
            Ok(rows) => {
                self.progress = Progress::AtHand(KnownIndex {
                    paths,
                    rows,
                    edges: None,
                });
                Ok(())
            }
            Err(fault) => {
                self.progress = Progress::Current(paths);
                Err(fault)
            }
        }
    }

    /// The walk with which a keeper's refresh begins after files of these names have changed, by the index
    /// before that, if it is in memory. If that fails, the names are kept.
    fn begun<F: Listing + Drop>(
        &mut self,
        alloc: Global,
        files: &mut Recorder<F>,
        settings: &Settings,
        last: Option<HeldIndex>,
        names: BTreeSet<String>,
    ) -> Result<Walk, FilesFault>
        requires kept { AreKeptAfter F.view R.entries files.old settings.now names self.old.rows }
        requires last { HoldsLast F.view R.entries files.old settings.now names self.old.rows last }
        ensures walk { BeginsWalk F.view R.entries files.old settings.now self.new.rows result }
        ensures ok { OnOk result (MarksForWalk R.entries names self.old self.new) }
        ensures err { OnErr result (PutsNamesBack R.entries names self.old self.new) }
        ensures profiles { KeepsProfiles (profiles_of R.profiles) self.old self.new }
        ensures leaves { LeavesAskedFiles F.view result files.old files.new }
    {
        match begin_walk(alloc, files, settings, &mut self.rows, last, &names) {
            Ok(walk) => Ok(walk),
            Err(fault) => {
                self.progress = Progress::Changed(names, None);
                Err(fault)
            }
        }
    }
}

/// Writes the row of a path that a turn of a refresh has made, fresh and with this profile, and tells the
/// walk of it. If it fails, all rows are as they were.
fn put_row<R: PathRows>(
    alloc: Global,
    rows: &mut R,
    walk: Walk,
    path: String,
    profile: Profile,
    row: KeptRow,
) -> Result<Walk, FilesFault>
    ensures rows { OnOk result (PutsShownRow R.entries path row rows.old rows.new) }
    ensures walk { WalksWithRow (string_bytes path) (said_by (kept_row_seen row)) walk result }
    ensures err { OnErr result (SameRows (R.entries rows.old) (R.entries rows.new)) }
    ensures profiles { WritesIn profile (R.profiles rows.old) (R.profiles rows.new) }
{
    let text = write_row(alloc, &row)?;
    let key = String::from_str(alloc, path.as_str())?;
    let walk = walk.with_row(key, known_row(row, text.len() as u64))?;
    rows.put(path.as_str(), profile, &text)?;
    Ok(walk)
}
