//! The keeper of one tenant's index: what is noted of changes, and what of the index is in memory.
ghost use Rattle.std.specs.Prelude.{◌≡◌, ℕ, List, OnOk, OnErr};
ghost use Rattle.mk_paths.specs.World.{World};
ghost use Rattle.port_index.specs.Known.{IsIndexOf};
ghost use Rattle.turn_amounts.specs.Spent.{no_spending};
ghost use Rattle.index_store.specs.Entries.{KeepsProfiles};
ghost use Rattle.index_keep.specs.Profiles.{profiles_of};
ghost use Rattle.index_keep.specs.Keeper.{begun_in, last_in, refresh_of, size_at_hand, Halts};
ghost use Rattle.index_keep.specs.Keeper.{HasEdges, HasForgotten, IsDone, IsKept, IsKeptAcross};
ghost use Rattle.index_keep.specs.Keeper.{KeepsShown, MakesAllStale, MakesAskingStale, StaysKept};
ghost use Rattle.index_keep.specs.Keeper.{StaysKeptIfTold, Stops};
ghost use Rattle.index_keep.specs.TurnFacts.{AddsChanged, DropsForChange};
ghost use Rattle.index_keep.specs.Keeper as the_keeper;

use crate::last_index::HeldIndex;
use crate::path_ask::PathAsk;
use crate::refresh_start::begin;
use crate::walk::Walk;
use index_store::PathRows;
use mk_paths::{FilesFault, Name};
use port_index::{
    IndexPaths, KnownIndex, insert_text, is_makefile, known_rows_are_enough,
    path_is_the_same_where_answered, same_makefiles_serve,
};
use std::alloc::{AllocError, Global};
use std::collections::BTreeSet;
use std::mem;
use turn_amounts::Spent;

/// The most names that are known to have changed. Once there are more, the rows that asked for them are
/// marked, and the names are forgotten.
const MOST_CHANGED: usize = 1024;

/// What one turn of a refresh did.
#[derive(Clone, Copy, Debug, PartialEq, Eq)]
pub enum Refreshed {
    /// One path was evaluated, and has its row now. So much was spent on it in this turn.
    Evaluated(Spent),
    /// A path has no row yet, and the turn has spent its units. So much was spent on the path in this turn.
    More(Spent),
    /// Each path has its row, and the index is at hand.
    Done,
}

/// How far the index is refreshed.
#[derive(Drop)]
pub(crate) enum Progress {
    /// Files of these names have changed since a refresh began. The index before that may still be in memory.
    Changed(BTreeSet<String>, Option<HeldIndex>),
    /// A refresh is under way, and is between two paths.
    Walking(Walk),
    /// A refresh is under way, and a path is evaluated.
    Asking(Walk, PathAsk),
    /// All rows are right, and these are the index's paths. What the rows say isn't in memory.
    Current(IndexPaths),
    /// All rows are right, and this is the index that they make.
    AtHand(KnownIndex),
}

/// The index of one tenant: a row for each path on which it depends, and what has changed since.
#[derive(Drop)]
pub struct Keeper<R: PathRows + Drop> {
    pub(crate) rows: R,
    pub(crate) progress: Progress,
}

impl<R: PathRows + Drop> Keeper<R> {
    /// A keeper of an index over rows, of which there are none yet.
    pub fn new(alloc: Global, rows: R) -> Keeper<R>
        requires { (path : List ℕ) → R.entries rows path ≡ None }
        ensures { (world : World) → IsKept R.entries world result }
    {
        Keeper {
            rows,
            progress: Progress::nothing(alloc),
        }
    }

    /// Notes that the file of this name is about to change, or to appear, or to go. The rows of the index
    /// that asked for the name are stale from now on, and no other row changes. So the rows are right in the
    /// world before the change and in the one after it. Whether the file is there before the change, or may
    /// not be, is told with it.
    ///
    /// It fails if the rows fail, or if memory runs out. Then no row changes.
    pub fn note_change(
        &mut self,
        alloc: Global,
        name: &Name,
        is_there: bool,
    ) -> Result<(), FilesFault>
        ensures rows { OnOk result (MakesAskingStale R.entries name.now self.old self.new) }
        ensures begun { OnOk result (begun_in self.new.progress ≡ no_spending) }
        ensures err { OnErr result (KeepsShown R.entries self.old self.new) }
        ensures kept { StaysKeptIfTold R.entries name.now is_there self.old self.new }
        ensures other { OnOk result (IsKeptAcross R.entries name.now is_there self.old self.new) }
        ensures profiles { KeepsProfiles (profiles_of R.profiles) self.old self.new }
    {
        path_is_the_same_where_answered();
        known_rows_are_enough();
        same_makefiles_serve();
        if self.is_full() {
            self.write_marks(alloc)?;
        }
        let name = String::from_str(alloc, name.as_str())?;
        self.progress.add_change(alloc, name, is_there)?;
        Ok(())
    }

    /// Notes that the search path is about to change. All rows of the index are stale from now on.
    ///
    /// It fails if the rows fail. Then no row changes.
    pub fn note_path(&mut self, alloc: Global) -> Result<(), FilesFault>
        ensures rows { OnOk result (MakesAllStale R.entries self.old self.new) }
        ensures begun { OnOk result (begun_in self.new.progress ≡ no_spending) }
        ensures err { OnErr result (KeepsShown R.entries self.old self.new) }
        ensures kept { StaysKept R.entries self.old self.new }
        ensures other { OnOk result ((world : World) → IsKept R.entries world self.new) }
        ensures profiles { KeepsProfiles (profiles_of R.profiles) self.old self.new }
    {
        self.rows.mark_all()?;
        self.progress = Progress::nothing(alloc);
        Ok(())
    }

    /// The keeper's index, which a refresh has found, and which is at hand once the refresh is done.
    pub fn index(&self) -> &KnownIndex
        requires { IsDone self.now }
        ensures { (world : World) → IsKept R.entries world self.now → IsIndexOf world result.now }
    {
        let Progress::AtHand(index) = &self.progress else {
            unreachable!(); // the refresh is done
        };
        index
    }

    /// Makes the edges of the keeper's index, if it is at hand, and keeps them with it, until files change or
    /// it is put away. If memory runs out, nothing changes.
    pub fn keep_edges(&mut self, alloc: Global) -> Result<(), AllocError>
        ensures edges { OnOk result (HasEdges self.new.progress) }
        ensures refresh { refresh_of R.entries self.new ≡ refresh_of R.entries self.old }
        ensures done { IsDone self.old → IsDone self.new }
        ensures kept { StaysKept R.entries self.old self.new }
        ensures profiles { KeepsProfiles (profiles_of R.profiles) self.old self.new }
    {
        match &mut self.progress {
            Progress::AtHand(index) => index.keep_edges(alloc),
            Progress::Changed(_, _)
            | Progress::Walking(_)
            | Progress::Asking(_, _)
            | Progress::Current(_) => Ok(()),
        }
    }

    /// How many bytes the rows of the keeper's index have, if it is at hand.
    pub fn size_at_hand(&self) -> Option<u64>
        ensures { result ≡ size_at_hand self.now }
    {
        match &self.progress {
            Progress::AtHand(index) => Some(index.rows.size()),
            Progress::Changed(_, _)
            | Progress::Walking(_)
            | Progress::Asking(_, _)
            | Progress::Current(_) => None,
        }
    }

    /// Puts the keeper's index away: what the rows say is dropped from memory, unless a refresh is under way.
    /// Nothing else changes. The next turn of a refresh reads the rows again.
    pub fn put_away(&mut self, alloc: Global)
        ensures rows { KeepsShown R.entries self.old self.new }
        ensures begun { begun_in self.new.progress ≡ begun_in self.old.progress }
        ensures away { IsDone self.new → ⊥ }
        ensures kept { StaysKept R.entries self.old self.new }
        ensures profiles { KeepsProfiles (profiles_of R.profiles) self.old self.new }
    {
        match mem::replace(&mut self.progress, Progress::nothing(alloc)) {
            Progress::AtHand(index) => self.progress = Progress::Current(index.paths),
            Progress::Changed(names, _last) => self.progress = Progress::Changed(names, None),
            progress => self.progress = progress,
        }
    }

    /// Limits the steps of each later statement on the keeper's rows; with `None` they are no longer limited.
    /// No row changes.
    pub fn limit_steps(&mut self, limit: Option<u64>)
        ensures rows { KeepsShown R.entries self.old self.new }
        ensures begun { begun_in self.new.progress ≡ begun_in self.old.progress }
        ensures kept { StaysKept R.entries self.old self.new }
        ensures profiles { KeepsProfiles (profiles_of R.profiles) self.old self.new }
    {
        self.rows.limit_steps(limit);
    }

    /// Stops the keeper's refresh, if one is under way: its walk and an evaluation that was begun are
    /// dropped. All rows stay, and names that have changed stay noted.
    pub fn stop(&mut self, alloc: Global)
        ensures rows { KeepsShown R.entries self.old self.new }
        ensures begun { begun_in self.new.progress ≡ no_spending }
        ensures kept { StaysKept R.entries self.old self.new }
        ensures profiles { KeepsProfiles (profiles_of R.profiles) self.old self.new }
    {
        self.progress.halt(alloc);
    }

    /// Whether the keeper has noted as many changed names as it keeps.
    fn is_full(&self) -> bool {
        match &self.progress {
            Progress::Changed(names, _) => names.len() >= MOST_CHANGED,
            Progress::Walking(_)
            | Progress::Asking(_, _)
            | Progress::Current(_)
            | Progress::AtHand(_) => false,
        }
    }

    /// Marks as stale the rows that asked for names that have changed, and forgets these names.
    fn write_marks(&mut self, alloc: Global) -> Result<(), FilesFault>
        ensures rows { KeepsShown R.entries self.old self.new }
        ensures progress { Stops self.old.progress self.new.progress }
        ensures profiles { KeepsProfiles (profiles_of R.profiles) self.old self.new }
    {
        if let Progress::Changed(names, _) = &self.progress {
            let _known = begin(alloc, &mut self.rows, names)?;
            self.progress = Progress::nothing(alloc);
        }
        Ok(())
    }
}

impl Progress {
    /// The keeper's progress if no changed name is noted, no refresh is under way, and no index is in memory.
    pub(crate) fn nothing(alloc: Global) -> Progress
        ensures { HasForgotten result }
    {
        Progress::Changed(BTreeSet::new(alloc), None)
    }

    /// Drops the refresh of the keeper's index, if one is under way.
    fn halt(&mut self, alloc: Global)
        ensures { Halts self.old self.new }
    {
        match self {
            Progress::Walking(_) | Progress::Asking(_, _) => *self = Progress::nothing(alloc),
            Progress::Changed(_, _) | Progress::Current(_) | Progress::AtHand(_) => {}
        }
    }

    /// Notes in the keeper's progress that the file of this name has changed too, and may have been there
    /// before. A refresh that is under way is dropped. An index at hand stays in memory. If memory runs out,
    /// nothing changes.
    fn add_change(&mut self, alloc: Global, name: String, is_there: bool) -> Result<(), AllocError>
        ensures changed { OnOk result (AddsChanged name self.old self.new) }
        ensures dropped { OnOk result (DropsForChange name is_there self.old self.new) }
        ensures err { OnErr result (self.new ≡ self.old) }
    {
        let stays = stays_there(name.as_str(), is_there);
        if let Progress::Changed(names, last) = self {
            insert_text(names, name)?;
            if let Some(held) = last {
                held.were_there = held.were_there && stays;
            }
            return Ok(());
        }
        let mut names = BTreeSet::new(alloc);
        insert_text(&mut names, name)?;
        let last = mem::replace(self, Progress::nothing(alloc)).into_held(stays);
        *self = Progress::Changed(names, last);
        Ok(())
    }

    /// The index that the keeper has in memory, after a change of a file of which it is told whether the file
    /// stays there.
    fn into_held(self, stays: bool) -> Option<HeldIndex>
        ensures { result ≡ last_in stays self }
    {
        match self {
            Progress::AtHand(index) => Some(HeldIndex {
                index,
                were_there: stays,
            }),
            Progress::Changed(_, last) => {
                let held = last?;
                Some(HeldIndex {
                    index: held.index,
                    were_there: held.were_there && stays,
                })
            }
            Progress::Walking(_) | Progress::Asking(_, _) | Progress::Current(_) => None,
        }
    }
}

/// Whether a file that the keeper is told of is there before its change, or is no makefile.
fn stays_there(name: &str, is_there: bool) -> bool
    ensures { result ≡ the_keeper.stays_there name.now is_there }
{
    is_there || !is_makefile(name)
}
