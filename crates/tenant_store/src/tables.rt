//! The tables of a tenant's database as it begins: of the files, and of the settings.
ghost use Rattle.std.specs.Prelude.{◌≡◌, [], IfOk, OnOk, false};
ghost use Rattle.mk_paths.specs.World.{opening_world};
ghost use Rattle.tenant_store.specs.Tables.{HoldsWorld, IsBare, file_schema};
ghost use Rattle.sql_facts.specs.Tables.{no_schema};
ghost use Rattle.sql_facts.specs.States.{IsSettled, state_of};

use sql_facts::run_alone;
use sqlite::{Connection, Error, MemStore};
use std::alloc::Global;

/// The statement that makes the table of the tenant's files, without a row.
fn create_files(conn: &mut Connection<MemStore>) -> Result<(), Error>
    requires autocommit { (state_of conn.old).in_transaction ≡ false }
    requires schema { (state_of conn.old).now.schema ≡ no_schema }
    ensures autocommit { OnOk result ((state_of conn.new).in_transaction ≡ false) }
    ensures schema { OnOk result ((state_of conn.new).now.schema ≡ file_schema) }
    ensures empty { OnOk result ((state_of conn.new).now.trees 0 ≡ []) }
{
    conn.execute(
        "CREATE TABLE file (name TEXT NOT NULL UNIQUE, content BLOB NOT NULL) STRICT",
        &[],
    )?;
    Ok(())
}

/// The statement that makes the table of the tenant's settings, without a row.
fn create_settings(conn: &mut Connection<MemStore>) -> Result<(), Error>
    requires autocommit { (state_of conn.old).in_transaction ≡ false }
    requires schema { (state_of conn.old).now.schema ≡ file_schema }
    requires empty { (state_of conn.old).now.trees 0 ≡ [] }
    ensures settled { OnOk result (IsSettled (state_of conn.new)) }
    ensures bare { OnOk result (IsBare (state_of conn.new).now) }
{
    conn.execute(
        "CREATE TABLE settings (path TEXT NOT NULL, profile INTEGER NOT NULL) STRICT",
        &[],
    )?;
    Ok(())
}

/// The statement that puts the first row into the table of the settings: the path `/ports:/mystuff` and the
/// first profile.
fn insert_settings(conn: &mut Connection<MemStore>) -> Result<(), Error>
    requires settled { IsSettled (state_of conn.old) }
    requires bare { IsBare (state_of conn.old).now }
    ensures { OnOk result (HoldsWorld (state_of conn.new) opening_world) }
{
    run_alone(
        conn,
        "INSERT INTO settings (path, profile) VALUES ('/ports:/mystuff', 1)",
        &[],
    )
}

/// A tenant's database with its two tables: no file, and the first settings.
pub(crate) fn open(alloc: Global) -> Result<Connection<MemStore>, Error>
    ensures { IfOk result (λ conn. HoldsWorld (state_of conn) opening_world) }
{
    let mut conn = Connection::open_in_memory(alloc)?;
    create_files(&mut conn)?;
    create_settings(&mut conn)?;
    insert_settings(&mut conn)?;
    Ok(conn)
}
