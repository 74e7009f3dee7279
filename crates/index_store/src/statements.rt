//! The SQL statements on the two tables of the rows of an index.
ghost use Rattle.std.specs.Prelude.{◌≡◌, [], None, IfOk, OnOk, false};
ghost use Rattle.sql_facts.specs.Tables.{no_schema};
ghost use Rattle.sql_facts.specs.States.{IsOpen, KeepsCommit, Stays, state_of};
ghost use Rattle.index_store.specs.PortTable.{IsTableAtRest, IsFormed, Holds, AreShown, rows_of, stored_of, no_rows};
ghost use Rattle.index_store.specs.PortTable.{all_marked, staying_of, earlier_schema};
ghost use Rattle.index_store.specs.PortTable.{select_rows, mark_row, mark_rows, delete_rows};
ghost use Rattle.index_store.specs.Marks.{Alters, InsertsEarlier, WritesCurrent, ReplacesCurrent};
ghost use Rattle.index_store.specs.Marks.{SaysHasRow, MarksRow, mark_number};

use mk_text::Profile;
use sql_facts::run;
use sqlite::{Connection, Error, MemStore, Row, Transaction, params};

/// One of the two tables.
#[derive(Clone, Copy, Debug)]
pub(crate) enum Part {
    /// The table of the release before.
    Earlier,
    /// The table of the rows that are written from now on.
    Current,
}

impl Part {
    /// The query of all rows of one of the index's two tables.
    fn rows_query(self) -> &'static str
        ensures { result.now ≡ select_rows self }
    {
        match self {
            Part::Earlier => "SELECT path, stale, row FROM port",
            Part::Current => "SELECT path, stale, row FROM port2",
        }
    }

    /// The statement that marks the row of a path in one of the index's two tables.
    fn mark_statement(self) -> &'static str
        ensures { result.now ≡ mark_row self }
    {
        match self {
            Part::Earlier => "UPDATE port SET stale = ?2 WHERE path = ?1",
            Part::Current => "UPDATE port2 SET stale = ?2 WHERE path = ?1",
        }
    }

    /// The statement that marks all rows of one of the index's two tables stale.
    fn marks_statement(self) -> &'static str
        ensures { result.now ≡ mark_rows self }
    {
        match self {
            Part::Earlier => "UPDATE port SET stale = 1",
            Part::Current => "UPDATE port2 SET stale = 1",
        }
    }

    /// The statement that deletes the rows marked as leaving from one of the index's two tables.
    fn delete_statement(self) -> &'static str
        ensures { result.now ≡ delete_rows self }
    {
        match self {
            Part::Earlier => "DELETE FROM port WHERE stale = 2",
            Part::Current => "DELETE FROM port2 WHERE stale = 2",
        }
    }
}

/// A mark that a row can be given.
#[derive(Clone, Copy, Debug)]
pub(crate) enum Mark {
    /// The row is stale.
    Stale,
    /// The row is taken out at the end of the transaction.
    Leaving,
}

impl Mark {
    /// The number of a row's mark (stale or leaving) in a table of the index.
    fn number(self) -> u32
        ensures { result ≡ mark_number self }
    {
        match self {
            Mark::Stale => 1,
            Mark::Leaving => 2,
        }
    }
}

/// The statement that makes the index's table of the release before, without a row.
pub(crate) fn create_earlier(conn: &mut Connection<MemStore>) -> Result<(), Error>
    requires autocommit { (state_of conn.old).in_transaction ≡ false }
    requires schema { (state_of conn.old).now.schema ≡ no_schema }
    ensures autocommit { OnOk result ((state_of conn.new).in_transaction ≡ false) }
    ensures schema { OnOk result ((state_of conn.new).now.schema ≡ earlier_schema) }
    ensures empty { OnOk result ((state_of conn.new).now.trees 0 ≡ []) }
{
    conn.execute(
        "CREATE TABLE port (path TEXT NOT NULL UNIQUE, stale INTEGER NOT NULL, row BLOB NOT NULL) STRICT",
        &[],
    )?;
    Ok(())
}

/// The statement that makes the index's table of today, without a row.
pub(crate) fn create_current(conn: &mut Connection<MemStore>) -> Result<(), Error>
    requires autocommit { (state_of conn.old).in_transaction ≡ false }
    requires schema { (state_of conn.old).now.schema ≡ earlier_schema }
    requires empty { (state_of conn.old).now.trees 0 ≡ [] }
    ensures { OnOk result (Holds (state_of conn.new) no_rows) }
{
    conn.execute(
        "CREATE TABLE port2 (path TEXT NOT NULL UNIQUE, stale INTEGER NOT NULL, row BLOB NOT NULL, profile INTEGER NOT NULL) STRICT",
        &[],
    )?;
    Ok(())
}

/// All rows that the query of one of the index's two tables gives.
pub(crate) fn all_rows(conn: &mut Connection<MemStore>, part: Part) -> Result<Vec<Row>, Error>
    requires { IsTableAtRest (state_of conn.old) }
    ensures rows { IfOk result (AreShown (stored_of (rows_of conn.old part))) }
    ensures stays { Stays (state_of conn.old) (state_of conn.new) }
{
    conn.query_all(part.rows_query(), &[])
}

/// The statement that adds the row of a path that has none to the index's table of the release before.
pub(crate) fn insert_earlier<'x>(
    tx: &mut Transaction<'_, MemStore>,
    path: &'x str,
    text: &'x [u8],
) -> Result<(), Error>
    requires open { IsOpen IsFormed (state_of tx.old.conn.now) }
    requires free { rows_of tx.old.conn.now Part.Earlier path.now ≡ None }
    ensures kept { KeepsCommit tx.old.conn tx.new.conn }
    ensures made { OnOk result (InsertsEarlier path.now text.now tx.old.conn tx.new.conn) }
{
    run(
        tx,
        "INSERT INTO port (path, stale, row) VALUES (?1, 0, ?2)",
        params![path, text],
    )?;
    Ok(())
}

/// The statement that adds the row of a path that has none to the index's table of today.
pub(crate) fn insert_current<'x>(
    tx: &mut Transaction<'_, MemStore>,
    path: &'x str,
    profile: Profile,
    text: &'x [u8],
) -> Result<(), Error>
    requires open { IsOpen IsFormed (state_of tx.old.conn.now) }
    requires free { rows_of tx.old.conn.now Part.Current path.now ≡ None }
    ensures kept { KeepsCommit tx.old.conn tx.new.conn }
    ensures made { OnOk result (WritesCurrent path.now profile text.now tx.old.conn tx.new.conn) }
{
    run(
        tx,
        "INSERT INTO port2 (path, stale, row, profile) VALUES (?1, 0, ?2, ?3)",
        params![path, text, profile.number()],
    )?;
    Ok(())
}

/// The statement that gives the row of a path in the index's table of today other bytes and makes it fresh.
/// It says whether there was one.
pub(crate) fn replace_current<'x>(
    tx: &mut Transaction<'_, MemStore>,
    path: &'x str,
    profile: Profile,
    text: &'x [u8],
) -> Result<bool, Error>
    requires { IsOpen IsFormed (state_of tx.old.conn.now) }
    ensures kept { KeepsCommit tx.old.conn tx.new.conn }
    ensures was_there { IfOk result (SaysHasRow path.now tx.old.conn) }
    ensures made { OnOk result (ReplacesCurrent path.now profile text.now tx.old.conn tx.new.conn) }
{
    let count = run(
        tx,
        "UPDATE port2 SET stale = 0, row = ?2, profile = ?3 WHERE path = ?1",
        params![path, text, profile.number()],
    )?;
    Ok(count != 0)
}

/// Runs the statement that marks all rows of one of the index's two tables stale.
pub(crate) fn mark_table(tx: &mut Transaction<'_, MemStore>, part: Part) -> Result<(), Error>
    requires { IsOpen IsFormed (state_of tx.old.conn.now) }
    ensures kept { KeepsCommit tx.old.conn tx.new.conn }
    ensures made { OnOk result (Alters part all_marked tx.old.conn tx.new.conn) }
{
    run(tx, part.marks_statement(), &[])?;
    Ok(())
}

/// Runs the statement that gives the row of a path in one of the index's two tables this mark, if there is
/// one.
pub(crate) fn set_mark(
    tx: &mut Transaction<'_, MemStore>,
    part: Part,
    path: &str,
    mark: Mark,
) -> Result<(), Error>
    requires { IsOpen IsFormed (state_of tx.old.conn.now) }
    ensures kept { KeepsCommit tx.old.conn tx.new.conn }
    ensures made { OnOk result (MarksRow mark path.now part tx.old.conn tx.new.conn) }
{
    run(tx, part.mark_statement(), params![path, mark.number()])?;
    Ok(())
}

/// Runs the statement that deletes the rows marked as leaving from one of the index's two tables.
pub(crate) fn delete_leaving(tx: &mut Transaction<'_, MemStore>, part: Part) -> Result<(), Error>
    requires { IsOpen IsFormed (state_of tx.old.conn.now) }
    ensures kept { KeepsCommit tx.old.conn tx.new.conn }
    ensures made { OnOk result (Alters part staying_of tx.old.conn tx.new.conn) }
{
    run(tx, part.delete_statement(), &[])?;
    Ok(())
}
