//! The changes of an index's rows, each in one transaction. With `has_earlier` the table of the release
//! before may have a row; without it that table has none, and no statement runs on it.
ghost use Rattle.std.specs.Prelude.{◌≡◌, OnOk, OnErr, IfOk, None, true};
ghost use Rattle.sql_facts.specs.States.{IsOpen, KeepsCommit, Stays, state_of};
ghost use Rattle.index_store.specs.PortTable.{IsKeptWith, AllowsFor, IsFormed, Holds};
ghost use Rattle.index_store.specs.PortTable.{rows_of, entries_of, no_rows, staying_of, without};
ghost use Rattle.index_store.specs.Marks.{Alters, AltersBoth, Makes, PutsEarlier, WritesCurrent, Stores};
ghost use Rattle.index_store.specs.Marks.{MarksPath, MarksAmong, Commits, Changes, IsAllowedChange};

use crate::statements::{
    Mark, Part, create_current, create_earlier, delete_leaving, insert_current, insert_earlier,
    mark_table, replace_current, set_mark,
};
use mk_text::Profile;
use sqlite::{Connection, Error, MemStore, Transaction};
use std::alloc::Global;

/// What a call does to the rows.
#[derive(Clone, Copy, Debug)]
pub(crate) enum Change<'a> {
    /// A path has this row, which isn't stale, and which is written with this profile. A path that is new had none.
    Put(bool, &'a str, Profile, &'a [u8]),
    /// A path has this row, which isn't stale, as the release before wrote it.
    PutEarlier(&'a str, &'a [u8]),
    /// The rows of these paths are stale.
    Mark(&'a [String]),
    /// All rows are stale.
    MarkAll,
    /// These paths have no row.
    TakeOut(&'a [String]),
}

/// A database with the two tables of an index, without a row.
pub(crate) fn open(alloc: Global) -> Result<Connection<MemStore>, Error>
    ensures { IfOk result (λ conn. Holds (state_of conn) no_rows) }
{
    let mut conn = Connection::open_in_memory(alloc)?;
    create_earlier(&mut conn)?;
    create_current(&mut conn)?;
    Ok(conn)
}

/// In a transaction, gives the index's row of a path this mark, in whichever table it is.
fn mark_path(
    tx: &mut Transaction<'_, MemStore>,
    has_earlier: bool,
    path: &str,
    mark: Mark,
) -> Result<(), Error>
    requires open { IsOpen IsFormed (state_of tx.old.conn.now) }
    requires earlier { AllowsFor has_earlier (rows_of tx.old.conn.now) }
    ensures kept { KeepsCommit tx.old.conn tx.new.conn }
    ensures made { OnOk result (MarksPath mark path.now tx.old.conn tx.new.conn) }
{
    set_mark(tx, Part::Current, path, mark)?;
    if !has_earlier {
        return Ok(());
    }
    set_mark(tx, Part::Earlier, path, mark)
}

/// In a transaction, takes the rows marked as leaving out of both tables of the index.
fn take_leaving(tx: &mut Transaction<'_, MemStore>, has_earlier: bool) -> Result<(), Error>
    requires open { IsOpen IsFormed (state_of tx.old.conn.now) }
    requires earlier { AllowsFor has_earlier (rows_of tx.old.conn.now) }
    ensures kept { KeepsCommit tx.old.conn tx.new.conn }
    ensures made { OnOk result (AltersBoth staying_of tx.old.conn tx.new.conn) }
{
    delete_leaving(tx, Part::Current)?;
    if !has_earlier {
        return Ok(());
    }
    delete_leaving(tx, Part::Earlier)
}

/// In a transaction, takes the row of a path out of the index's table of the release before, if there is one.
fn take_earlier(tx: &mut Transaction<'_, MemStore>, path: &str) -> Result<(), Error>
    requires { IsOpen IsFormed (state_of tx.old.conn.now) }
    ensures kept { KeepsCommit tx.old.conn tx.new.conn }
    ensures made { OnOk result (Alters Part.Earlier (without path.now) tx.old.conn tx.new.conn) }
{
    set_mark(tx, Part::Earlier, path, Mark::Leaving)?;
    delete_leaving(tx, Part::Earlier)
}

/// In a transaction, gives a path this row in the index's table of today, in place of the one there or as the
/// last. A path that is new has none.
fn put_current<'x>(
    tx: &mut Transaction<'_, MemStore>,
    is_new: bool,
    path: &'x str,
    profile: Profile,
    text: &'x [u8],
) -> Result<(), Error>
    requires open { IsOpen IsFormed (state_of tx.old.conn.now) }
    requires free { is_new ≡ true → rows_of tx.old.conn.now Part.Current path.now ≡ None }
    ensures kept { KeepsCommit tx.old.conn tx.new.conn }
    ensures made { OnOk result (WritesCurrent path.now profile text.now tx.old.conn tx.new.conn) }
{
    if is_new {
        return insert_current(tx, path, profile, text);
    }
    if replace_current(tx, path, profile, text)? {
        return Ok(());
    }
    insert_current(tx, path, profile, text)
}

/// In a transaction, gives a path this row in the index's table of today, and takes out the one that the
/// release before wrote. A path that is new has none in the table of today.
fn put<'x>(
    tx: &mut Transaction<'_, MemStore>,
    has_earlier: bool,
    is_new: bool,
    path: &'x str,
    profile: Profile,
    text: &'x [u8],
) -> Result<(), Error>
    requires open { IsOpen IsFormed (state_of tx.old.conn.now) }
    requires earlier { AllowsFor has_earlier (rows_of tx.old.conn.now) }
    requires free { is_new ≡ true → rows_of tx.old.conn.now Part.Current path.now ≡ None }
    ensures kept { KeepsCommit tx.old.conn tx.new.conn }
    ensures made { OnOk result (Stores path.now profile text.now tx.old.conn tx.new.conn) }
{
    put_current(tx, is_new, path, profile, text)?;
    if !has_earlier {
        return Ok(());
    }
    take_earlier(tx, path)
}

/// In a transaction, gives a path of the index this row as the release before wrote it, and takes out the one
/// there.
fn put_earlier<'x>(
    tx: &mut Transaction<'_, MemStore>,
    has_earlier: bool,
    path: &'x str,
    text: &'x [u8],
) -> Result<(), Error>
    requires open { IsOpen IsFormed (state_of tx.old.conn.now) }
    requires earlier { AllowsFor has_earlier (rows_of tx.old.conn.now) }
    ensures kept { KeepsCommit tx.old.conn tx.new.conn }
    ensures made { OnOk result (PutsEarlier path.entry text.entry tx.old.conn tx.new.conn) }
{
    mark_path(tx, has_earlier, path, Mark::Leaving)?;
    take_leaving(tx, has_earlier)?;
    insert_earlier(tx, path, text)
}

/// In a transaction, gives the index's rows of these paths this mark, in whichever table they are.
fn set_marks(
    tx: &mut Transaction<'_, MemStore>,
    has_earlier: bool,
    paths: &[String],
    mark: Mark,
) -> Result<(), Error>
    requires open { IsOpen IsFormed (state_of tx.old.conn.now) }
    requires earlier { AllowsFor has_earlier (rows_of tx.old.conn.now) }
    ensures kept { KeepsCommit tx.old.conn tx.new.conn }
    ensures made { OnOk result (MarksAmong mark paths.now tx.old.conn tx.new.conn) }
{
    for path in paths {
        mark_path(tx, has_earlier, path.as_str(), mark)?;
    }
    Ok(())
}

/// In a transaction, marks all rows of both tables of the index stale.
fn mark_tables(tx: &mut Transaction<'_, MemStore>, has_earlier: bool) -> Result<(), Error>
    requires open { IsOpen IsFormed (state_of tx.old.conn.now) }
    requires earlier { AllowsFor has_earlier (rows_of tx.old.conn.now) }
    ensures kept { KeepsCommit tx.old.conn tx.new.conn }
    ensures made { OnOk result (Makes Change.MarkAll tx.old.conn tx.new.conn) }
{
    mark_table(tx, Part::Current)?;
    if !has_earlier {
        return Ok(());
    }
    mark_table(tx, Part::Earlier)
}

/// In a transaction, takes the rows of these paths out of both tables of the index.
fn take_out(
    tx: &mut Transaction<'_, MemStore>,
    has_earlier: bool,
    paths: &[String],
) -> Result<(), Error>
    requires open { IsOpen IsFormed (state_of tx.old.conn.now) }
    requires earlier { AllowsFor has_earlier (rows_of tx.old.conn.now) }
    ensures kept { KeepsCommit tx.old.conn tx.new.conn }
    ensures made { OnOk result (Makes (Change.TakeOut paths.entry) tx.old.conn tx.new.conn) }
{
    set_marks(tx, has_earlier, paths, Mark::Leaving)?;
    take_leaving(tx, has_earlier)
}

/// Runs the statements of a change of the index's rows in a transaction.
fn make(
    tx: &mut Transaction<'_, MemStore>,
    has_earlier: bool,
    change: Change<'_>,
) -> Result<(), Error>
    requires open { IsOpen IsFormed (state_of tx.old.conn.now) }
    requires earlier { AllowsFor has_earlier (rows_of tx.old.conn.now) }
    requires free { IsAllowedChange has_earlier change (rows_of tx.old.conn.now) }
    ensures kept { KeepsCommit tx.old.conn tx.new.conn }
    ensures made { OnOk result (Makes change.entry tx.old.conn tx.new.conn) }
{
    match change {
        Change::Put(is_new, path, profile, text) => put(
            tx,
            has_earlier,
            is_new,
            path,
            profile,
            text,
        ),
        Change::PutEarlier(path, text) => put_earlier(tx, has_earlier, path, text),
        Change::Mark(paths) => set_marks(tx, has_earlier, paths, Mark::Stale),
        Change::MarkAll => mark_tables(tx, has_earlier),
        Change::TakeOut(paths) => take_out(tx, has_earlier, paths),
    }
}

/// Makes a change of the index's rows in one transaction, and commits it. Each table is told of alone.
fn commit(
    conn: &mut Connection<MemStore>,
    has_earlier: bool,
    change: Change<'_>,
) -> Result<(), Error>
    requires kept { IsKeptWith has_earlier (state_of conn.old) }
    requires free { IsAllowedChange has_earlier change (rows_of conn.old) }
    ensures ok { OnOk result (Commits change.entry conn.old conn.new) }
    ensures err { OnErr result (Stays (state_of conn.old) (state_of conn.new)) }
{
    let mut tx = conn.transaction();
    make(&mut tx, has_earlier, change)?;
    tx.commit()
}

/// Writes a change of the index's rows in one transaction. If it fails, nothing changes.
pub(crate) fn write(
    conn: &mut Connection<MemStore>,
    has_earlier: bool,
    change: Change<'_>,
) -> Result<(), Error>
    requires kept { IsKeptWith has_earlier (state_of conn.old) }
    requires free { IsAllowedChange has_earlier change (rows_of conn.old) }
    ensures kept { IsKeptWith has_earlier (state_of conn.new) }
    ensures ok { OnOk result (Changes change.entry (entries_of conn.old) (entries_of conn.new)) }
    ensures err { OnErr result (entries_of conn.new ≡ entries_of conn.old) }
{
    commit(conn, has_earlier, change)
}
