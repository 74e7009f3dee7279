//! The changes of a tenant's settings in its database: of the search path and of the profile.
ghost use Rattle.std.specs.Prelude.{◌≡◌, IfOk, OnOk, OnErr, string_bytes};
ghost use Rattle.mk_paths.specs.SearchPath.{IsSearchPath, trees_of};
ghost use Rattle.mk_paths.specs.World.{with_search_path, with_profile};
ghost use Rattle.tenant_store.specs.Tables.{IsStoreAtRest, conn_world, LeavesWorld};
ghost use Rattle.sql_facts.specs.States.{state_of};
ghost use Rattle.tenant_store.specs.SettingsRows.{JoinsTrees};

use crate::queries::{SettingsRow, settings_row};
use crate::updates::update_settings;
use mk_paths::SearchPath;
use mk_text::Profile;
use sqlite::{Connection, Error, MemStore};
use std::alloc::{AllocError, Global};

/// Sets the search path in the row of the tenant's settings. The profile stays.
pub(crate) fn set_path(
    conn: &mut Connection<MemStore>,
    alloc: Global,
    path: &SearchPath,
) -> Result<(), Error>
    requires { IsStoreAtRest (state_of conn.old) }
    ensures kept { IsStoreAtRest (state_of conn.new) }
    ensures path { LeavesWorld result conn.new (with_search_path (conn_world conn.old) path.now) }
    ensures err { OnErr result (conn_world conn.new ≡ conn_world conn.old) }
{
    let settings = settings_row(conn)?;
    let next = SettingsRow {
        path: path_text(alloc, path)?,
        profile: settings.profile,
    };
    update_settings(conn, &next)
}

/// Sets the profile in the row of the tenant's settings. The search path stays.
pub(crate) fn set_profile(conn: &mut Connection<MemStore>, profile: Profile) -> Result<(), Error>
    requires { IsStoreAtRest (state_of conn.old) }
    ensures kept { IsStoreAtRest (state_of conn.new) }
    ensures profile { LeavesWorld result conn.new (with_profile (conn_world conn.old) profile) }
    ensures err { OnErr result (conn_world conn.new ≡ conn_world conn.old) }
{
    let settings = settings_row(conn)?;
    let next = SettingsRow {
        path: settings.path,
        profile,
    };
    update_settings(conn, &next)
}

/// The text of a search path in the tenant's settings: its trees, with colons between them.
fn path_text(alloc: Global, path: &SearchPath) -> Result<String, AllocError>
    ensures text { IfOk result (λ text. trees_of (string_bytes text) ≡ path.now) }
    ensures is_path { IsSearchPath path.now }
{
    let trees = path.trees();
    joined(alloc, trees[0].as_str(), &trees[1..])
}

/// The text of a search path for the table of settings: its first tree, and each other tree after a colon.
fn joined(alloc: Global, first: &str, more: &[String]) -> Result<String, AllocError>
    ensures { JoinsTrees result first.now more.now }
{
    let mut text = String::from_str(alloc, first)?;
    for tree in more {
        text.push_str(":")?;
        text.push_str(tree.as_str())?;
    }
    Ok(text)
}
