//! A statement that runs in a transaction or alone, for both stores.
ghost use Rattle.std.specs.Prelude.{IsTrue, OnOk, OnErr};
ghost use Rattle.sqlite.specs.State.{ExecutesInside};
ghost use Rattle.sqlite.specs.Values.{bound};
ghost use Rattle.sql_facts.specs.States.{IsSettled, KeepsCommit, Ran, Stays, state_of};

use sqlite::types::ValueRef;
use sqlite::{Connection, Error, MemStore, Transaction};

/// Runs one SQL statement of a transaction and gives the number of rows that it changed. What was committed
/// last stays as it was, whatever the error, which is that of the database.
pub fn run(
    tx: &mut Transaction<'_, MemStore>,
    sql: &str,
    params: &[ValueRef<'_>],
) -> Result<usize, Error>
    requires { IsTrue (state_of tx.old.conn.now).in_transaction }
    ensures kept { KeepsCommit tx.old.conn tx.new.conn }
    ensures ran { ExecutesInside 0 sql.now (bound params.now) (state_of tx.old.conn.now)
        (state_of tx.new.conn.now) result }
{
    tx.execute(sql, params)
}

/// Runs one SQL statement that is a transaction of its own. After an error, which is that of the database,
/// nothing has changed.
pub fn run_alone(
    conn: &mut Connection<MemStore>,
    sql: &str,
    params: &[ValueRef<'_>],
) -> Result<(), Error>
    requires { IsSettled (state_of conn.old) }
    ensures ran { OnOk result (Ran sql.now (bound params.now) (state_of conn.old) (state_of conn.new)) }
    ensures err { OnErr result (Stays (state_of conn.old) (state_of conn.new)) }
{
    conn.execute(sql, params)?;
    Ok(())
}
