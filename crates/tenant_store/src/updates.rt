//! The updates of a tenant's database: statements that write. Each is a transaction of its own: after an
//! error nothing has changed.
ghost use Rattle.std.specs.Prelude.{◌≡◌, OnOk, OnErr, IsTrue, None, string_bytes};
ghost use Rattle.std.specs.FinMap.{get, contains_key};
ghost use Rattle.mk_paths.specs.SearchPath.{IsSearchPath, trees_of};
ghost use Rattle.mk_paths.specs.World.{files_in, without_file};
ghost use Rattle.tenant_store.specs.SettingsRows.{SetsSettings};
ghost use Rattle.sql_facts.specs.States.{state_of};
ghost use Rattle.tenant_store.specs.Tables.{IsStoreAtRest, conn_world, LeavesWorld, StoresFile};

use crate::queries::SettingsRow;
use sql_facts::run_alone;
use sqlite::{Connection, Error, MemStore, params};

/// The statement that adds a file of a new name to the table of the tenant's files.
fn insert_file(conn: &mut Connection<MemStore>, name: &str, content: &[u8]) -> Result<(), Error>
    requires kept { IsStoreAtRest (state_of conn.old) }
    requires free { get (files_in (conn_world conn.old)) name.now ≡ None }
    ensures kept { IsStoreAtRest (state_of conn.new) }
    ensures stored { StoresFile result conn.old conn.new name.now content.now }
    ensures err { OnErr result (conn_world conn.new ≡ conn_world conn.old) }
{
    run_alone(
        conn,
        "INSERT INTO file (name, content) VALUES (?1, ?2)",
        params![name, content],
    )
}

/// The statement that gives the file of this name in the table of the tenant's files other content.
fn update_file(conn: &mut Connection<MemStore>, name: &str, content: &[u8]) -> Result<(), Error>
    requires kept { IsStoreAtRest (state_of conn.old) }
    requires there { IsTrue (contains_key (files_in (conn_world conn.old)) name.now) }
    ensures kept { IsStoreAtRest (state_of conn.new) }
    ensures stored { StoresFile result conn.old conn.new name.now content.now }
    ensures err { OnErr result (conn_world conn.new ≡ conn_world conn.old) }
{
    run_alone(
        conn,
        "UPDATE file SET content = ?2 WHERE name = ?1",
        params![name, content],
    )
}

/// Writes a file into the table of the tenant's files: in place of the one of its name if that is there, or
/// beside the others.
pub(crate) fn write_file(
    conn: &mut Connection<MemStore>,
    name: &str,
    content: &[u8],
    is_there: bool,
) -> Result<(), Error>
    requires kept { IsStoreAtRest (state_of conn.old) }
    requires there { is_there ≡ contains_key (files_in (conn_world conn.old)) name.now }
    ensures kept { IsStoreAtRest (state_of conn.new) }
    ensures stored { StoresFile result conn.old conn.new name.now content.now }
    ensures err { OnErr result (conn_world conn.new ≡ conn_world conn.old) }
{
    if is_there {
        update_file(conn, name, content)
    } else {
        insert_file(conn, name, content)
    }
}

/// The statement that deletes the file of this name from the table of the tenant's files.
pub(crate) fn delete_file(conn: &mut Connection<MemStore>, name: &str) -> Result<(), Error>
    requires { IsStoreAtRest (state_of conn.old) }
    ensures kept { IsStoreAtRest (state_of conn.new) }
    ensures removed { LeavesWorld result conn.new (without_file (conn_world conn.old) name.now) }
    ensures err { OnErr result (conn_world conn.new ≡ conn_world conn.old) }
{
    run_alone(conn, "DELETE FROM file WHERE name = ?1", params![name])
}

/// The statement that writes the tenant's settings into their table: the search path and the profile.
pub(crate) fn update_settings(
    conn: &mut Connection<MemStore>,
    settings: &SettingsRow,
) -> Result<(), Error>
    requires kept { IsStoreAtRest (state_of conn.old) }
    requires path { IsSearchPath (trees_of (string_bytes settings.now.path)) }
    ensures kept { IsStoreAtRest (state_of conn.new) }
    ensures set { SetsSettings result conn.old conn.new settings.now }
    ensures err { OnErr result (conn_world conn.new ≡ conn_world conn.old) }
{
    run_alone(
        conn,
        "UPDATE settings SET path = ?1, profile = ?2",
        params![&settings.path, settings.profile.number()],
    )
}
