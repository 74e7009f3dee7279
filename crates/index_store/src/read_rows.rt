//! The rows of the index, read from both of its tables.
ghost use Rattle.std.specs.Prelude.{◌≡◌, IfOk, OnOk};
ghost use Rattle.sql_facts.specs.States.{Stays, state_of};
ghost use Rattle.index_store.specs.Entries.{AreStored, stored_seen};
ghost use Rattle.index_store.specs.PortTable.{IsKeptWith, AddsShown, stored_in, row_shown};

use crate::path_rows::StoredRow;
use crate::statements::{Part, all_rows};
use sqlite::{Connection, Error, MemStore, Row};
use std::alloc::Global;

/// A row of the index, read from what the query gives: its path, whether it is stale, and its bytes.
fn row_from(row: &Row) -> Result<StoredRow, Error>
    ensures { IfOk result (λ stored. stored_seen stored ≡ row_shown row.now) }
{
    Ok(StoredRow {
        path: row.get(0)?,
        is_stale: row.get(1)?,
        text: row.get(2)?,
    })
}

/// Adds the rows of the index that a query gave, each as it is read. A row of the query goes once it is read,
/// so that the next takes its place in memory.
fn add_rows(stored: &mut Vec<StoredRow>, rows: Vec<Row>) -> Result<(), Error>
    ensures { OnOk result (AddsShown rows.items stored.old.items stored.new.items) }
{
    stored.reserve(rows.len())?;
    for row in rows {
        stored.push(row_from(&row)?)?;
    }
    Ok(())
}

/// All rows of the index, read from both tables. Without `has_earlier` the table of the release before has
/// none.
pub(crate) fn read_rows(
    conn: &mut Connection<MemStore>,
    has_earlier: bool,
    alloc: Global,
) -> Result<Vec<StoredRow>, Error>
    requires { IsKeptWith has_earlier (state_of conn.old) }
    ensures rows { IfOk result (AreStored (stored_in conn.old)) }
    ensures stays { Stays (state_of conn.old) (state_of conn.new) }
{
    let mut stored = Vec::new(alloc);
    let current = all_rows(conn, Part::Current)?;
    add_rows(&mut stored, current)?;
    if !has_earlier {
        return Ok(stored);
    }
    let earlier = all_rows(conn, Part::Earlier)?;
    add_rows(&mut stored, earlier)?;
    Ok(stored)
}
