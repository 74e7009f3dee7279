//! The queries on a tenant's database: statements that read a file's content and the settings.
ghost use Rattle.std.specs.Prelude.{◌≡◌, IfOk};
ghost use Rattle.sql_facts.specs.States.{state_of};
ghost use Rattle.tenant_store.specs.Tables.{IsStoreAtRest, ShowSettings, AreSettings};
ghost use Rattle.tenant_store.specs.Tables.{holdings_of, conn_world, ShowsContent};
ghost use Rattle.tenant_store.specs.SettingsRows.{AreSettingsOf, shown_settings};
ghost use Rattle.tenant_store.specs.Answers.{GivesFileBytes};

use mk_text::Profile;
use sqlite::{Connection, Error, MemStore, Row, params};

/// The settings as their row has them: the trees of the search path with colons between them, and the profile.
#[derive(Debug, Drop)]
pub(crate) struct SettingsRow {
    pub(crate) path: String,
    pub(crate) profile: Profile,
}

/// The rows that the query for the content of the tenant's file of this name gives: one, or none.
fn content_rows(conn: &mut Connection<MemStore>, name: &str) -> Result<Vec<Row>, Error>
    requires { IsStoreAtRest (state_of conn.old) }
    ensures rows { ShowsContent result (conn_world conn.old) name.now }
    ensures kept { IsStoreAtRest (state_of conn.new) }
    ensures same { conn_world conn.new ≡ conn_world conn.old }
{
    conn.query_all("SELECT content FROM file WHERE name = ?1", params![name])
}

/// The content of the tenant's file of this name by a query on the database, if it is there.
pub(crate) fn content_of(
    conn: &mut Connection<MemStore>,
    name: &str,
) -> Result<Option<Vec<u8>>, Error>
    requires { IsStoreAtRest (state_of conn.old) }
    ensures content { GivesFileBytes result (conn_world conn.old) name.now }
    ensures kept { IsStoreAtRest (state_of conn.new) }
    ensures same { conn_world conn.new ≡ conn_world conn.old }
{
    let rows = content_rows(conn, name)?;
    match rows.first() {
        None => Ok(None),
        Some(row) => Ok(Some(row.get(0)?)),
    }
}

/// The rows that the query for the tenant's settings gives: one.
fn settings_rows(conn: &mut Connection<MemStore>) -> Result<Vec<Row>, Error>
    requires { IsStoreAtRest (state_of conn.old) }
    ensures rows { IfOk result (λ rows. ShowSettings rows.items (holdings_of conn.old).settings) }
    ensures kept { IsStoreAtRest (state_of conn.new) }
    ensures same { conn_world conn.new ≡ conn_world conn.old }
{
    conn.query_all("SELECT path, profile FROM settings", &[])
}

/// The tenant's settings as a row of the query has them.
fn settings_from(row: &Row) -> Result<SettingsRow, Error>
    ensures { IfOk result (λ read. AreSettings row.now (shown_settings read)) }
{
    Ok(SettingsRow {
        path: row.get(0)?,
        profile: Profile::with_number(row.get(1)?),
    })
}

/// The row of the tenant's settings by a query on the database: the search path and the profile.
pub(crate) fn settings_row(conn: &mut Connection<MemStore>) -> Result<SettingsRow, Error>
    requires { IsStoreAtRest (state_of conn.old) }
    ensures settings { IfOk result (AreSettingsOf (conn_world conn.old)) }
    ensures kept { IsStoreAtRest (state_of conn.new) }
    ensures same { conn_world conn.new ≡ conn_world conn.old }
{
    let rows = settings_rows(conn)?;
    settings_from(&rows[0])
}
