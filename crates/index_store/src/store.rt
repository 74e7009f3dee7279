//! The store of the rows of one tenant's index, as its callers see it.
ghost use Rattle.std.specs.Prelude.{◌≡◌, not, IfOk, OnOk, OnErr};
ghost use Rattle.std.specs.BTreeSet.{contains_text};
ghost use Rattle.index_store.specs.Entries.{HasNoRow, SameRows, KeepsProfiles};
ghost use Rattle.index_store.specs.PortTable.{stored_by, profiles_by, StoresRow, WritesUnprofiled};
ghost use Rattle.index_store.specs.PortTable.{ListsNoted, NotesPath, ForgetsIf, ForgetsAll};

use crate::path_rows::{PathRows, StoredRow};
use crate::read_rows::read_rows;
use crate::transactions::{Change, open, write};
use mk_paths::FilesFault;
use mk_text::Profile;
use sql_facts::Sqlite;
use sqlite::{Connection, MemStore};
use std::alloc::{AllocError, Global};
use std::collections::BTreeSet;
use std::marker::Model;

/// The rows of one tenant's index, in a database in memory of its own. Clauses see what is stored for each
/// path (`stored_by`), and with which profile (`profiles_by`).
#[derive(Drop)]
pub struct IndexStore {
    conn: Connection<MemStore>,
    /// Whether the table of the release before may have a row.
    has_earlier: bool,
    alloc: Global,
    /// The paths that have a row.
    paths: BTreeSet<String>,
}

impl Model for IndexStore {
    ghost use Rattle.std.specs.Prelude.{List};
    ghost use Rattle.sqlite.specs.Held.{state};
    ghost use Rattle.sqlite.specs.Steps.{over_memory};
    ghost use Rattle.index_store.specs.PortTable.{AreNotedPaths, Entry, entries_code, entries_of, stored_in, IsKeptWith};

    ghost Value = { List Entry };

    ghost coded = { entries_code };

    ghost view = { λ store. entries_of store.conn };

    ghost invariant = { λ store. IsKeptWith store.has_earlier (state over_memory store.conn)
        × AreNotedPaths store.paths (stored_in store.conn) };
}

impl IndexStore {
    /// The store of an index in which no path has a row.
    ///
    /// The error is `Store` if the database refuses a statement, and `Memory` if memory runs out.
    pub fn open_in_memory(alloc: Global) -> Result<IndexStore, FilesFault>
        ensures { IfOk result (λ store. HasNoRow (stored_by store)) }
    {
        match open(alloc) {
            Ok(conn) => Ok(IndexStore {
                conn,
                has_earlier: false,
                alloc,
                paths: BTreeSet::new(alloc),
            }),
            Err(error) => Err(FilesFault::of_statement::<Sqlite>(&error)),
        }
    }

    /// Gives a path of the index this row, which isn't stale, as the release before wrote it: without a
    /// profile.
    ///
    /// # Errors
    ///
    /// `Store` if the database refuses a statement, and `Memory` if memory runs out. After an error
    /// all rows are as they were.
    pub fn put_earlier(&mut self, path: &str, text: &[u8]) -> Result<(), FilesFault>
        ensures ok { OnOk result (StoresRow path.now text.now self.old self.new) }
        ensures profile { OnOk result (WritesUnprofiled path.now self.old self.new) }
        ensures err { OnErr result (SameRows (stored_by self.old) (stored_by self.new)) }
        ensures err_profiles { OnErr result (KeepsProfiles profiles_by self.old self.new) }
    {
        let is_new = note(self.alloc, &mut self.paths, path)?;
        self.has_earlier = true;
        match write(&mut self.conn, true, Change::PutEarlier(path, text)) {
            Ok(()) => Ok(()),
            Err(error) => {
                forget_if(is_new, &mut self.paths, path);
                Err(FilesFault::of_statement::<Sqlite>(&error))
            }
        }
    }
}

impl PathRows for IndexStore {
    ghost entries = { stored_by };

    ghost profiles = { profiles_by };

    /// All rows of the index in this store, of both tables.
    fn rows(&mut self, alloc: Global) -> Result<Vec<StoredRow>, FilesFault> {
        match read_rows(&mut self.conn, self.has_earlier, alloc) {
            Ok(rows) => Ok(rows),
            Err(error) => Err(FilesFault::of_statement::<Sqlite>(&error)),
        }
    }

    /// The paths of all rows of the index, which are noted in memory beside the database.
    fn paths(&mut self, alloc: Global) -> Result<Vec<String>, FilesFault> {
        Ok(list_of(alloc, &self.paths)?)
    }

    /// Puts this row of a path into the store of the index, in one transaction, and notes the path.
    fn put(&mut self, path: &str, profile: Profile, text: &[u8]) -> Result<(), FilesFault> {
        let is_new = note(self.alloc, &mut self.paths, path)?;
        let change = Change::Put(is_new, path, profile, text);
        match write(&mut self.conn, self.has_earlier, change) {
            Ok(()) => Ok(()),
            Err(error) => {
                forget_if(is_new, &mut self.paths, path);
                Err(FilesFault::of_statement::<Sqlite>(&error))
            }
        }
    }

    /// Marks the rows of these paths in the store of the index stale, in one transaction.
    fn mark(&mut self, paths: &[String]) -> Result<(), FilesFault> {
        match write(&mut self.conn, self.has_earlier, Change::Mark(paths)) {
            Ok(()) => Ok(()),
            Err(error) => Err(FilesFault::of_statement::<Sqlite>(&error)),
        }
    }

    /// Marks all rows in the store of the index stale, in one transaction.
    fn mark_all(&mut self) -> Result<(), FilesFault> {
        match write(&mut self.conn, self.has_earlier, Change::MarkAll) {
            Ok(()) => Ok(()),
            Err(error) => Err(FilesFault::of_statement::<Sqlite>(&error)),
        }
    }

    /// Takes the rows of these paths out of the store of the index, in one transaction, and forgets the
    /// paths.
    fn take_out(&mut self, paths: &[String]) -> Result<(), FilesFault> {
        if paths.is_empty() {
            return Ok(());
        }
        if let Err(error) = write(&mut self.conn, self.has_earlier, Change::TakeOut(paths)) {
            return Err(FilesFault::of_statement::<Sqlite>(&error));
        }
        forget(&mut self.paths, paths);
        Ok(())
    }

    /// Limits the steps of each later statement on the store of the index.
    fn limit_steps(&mut self, limit: Option<u64>) {
        self.conn.set_step_limit(limit);
    }
}

/// The noted paths of an index's rows, as a list.
fn list_of(alloc: Global, noted: &BTreeSet<String>) -> Result<Vec<String>, AllocError>
    ensures { IfOk result (ListsNoted noted.now) }
{
    let mut listed = Vec::with_capacity(alloc, noted.len())?;
    for path in noted {
        listed.push(String::from_str(alloc, path.as_str())?)?;
    }
    Ok(listed)
}

/// Notes the path of an index's row in memory, and says whether it wasn't noted before. If memory runs out,
/// nothing changes.
fn note(alloc: Global, paths: &mut BTreeSet<String>, path: &str) -> Result<bool, AllocError>
    ensures is_new { IfOk result (λ is_new. is_new ≡ not (contains_text paths.old path.now)) }
    ensures noted { OnOk result (NotesPath path.now paths.old paths.new) }
    ensures err { OnErr result (paths.new ≡ paths.old) }
{
    if paths.contains(path) {
        return Ok(false);
    }
    match paths.insert(String::from_str(alloc, path)?) {
        Ok(_is_new) => Ok(true),
        Err(failed) => Err(failed.into()),
    }
}

/// Takes a path out of the noted paths of an index's rows, if it is new.
fn forget_if(is_new: bool, noted: &mut BTreeSet<String>, path: &str)
    ensures { ForgetsIf is_new path.now noted.old noted.new }
{
    if is_new {
        let _was_there = noted.remove(path);
    }
}

/// Takes these paths out of the noted paths of an index's rows.
fn forget(noted: &mut BTreeSet<String>, paths: &[String])
    ensures { ForgetsAll paths.now noted.old noted.new }
{
    for path in paths {
        let _was_there = noted.remove(path.as_str());
    }
}
