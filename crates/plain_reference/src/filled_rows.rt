//! Rows that the plain reference fills: what each path without a row leads to.
ghost use Rattle.mk_paths.specs.FilesView.{view_world};
ghost use Rattle.std.specs.Prelude.{◌≡◌};
ghost use Rattle.std.specs.Result.{result_err};
ghost use Rattle.plain_reference.specs.Filled.{FillsAll, FillsOne, TellsWorkOfAll, TellsWorkOfOne};
ghost use Rattle.plain_reference.specs.Right.{AreOutcomes, Stay};
ghost use Rattle.port_index.specs.KeptFiles.{KeepsFiles};
ghost use Rattle.port_index.specs.Seen.{entries_in};

use crate::effort::Effort;
use crate::path_outcomes::evaluate_path;
use mk_files::Files;
use mk_paths::{FilesFault, Settings};
use port_index::{KnownRow, MemoryRows, Row};
use std::alloc::Global;

/// Fills the rows of the plain reference's index for these paths: each path that has no row yet gets one that
/// says what the path leads to. If all rows were right before, they are right after it. The rows that were
/// there stay, and no other path gets one.
///
/// The result is the effort: each of these paths is evaluated once, if it has no row yet. It fails if the
/// files fail, or if memory runs out. The rows that were made until then stay.
pub(crate) fn fill<F: Files>(
    alloc: Global,
    files: &mut F,
    settings: &Settings,
    paths: &[String],
    rows: &mut MemoryRows,
) -> Result<Effort, FilesFault>
    requires { AreOutcomes (view_world (F.view files.old) settings.now) (entries_in rows.old) }
    ensures right { AreOutcomes (view_world (F.view files.old) settings.now) (entries_in rows.new) }
    ensures stay { Stay (entries_in rows.old) (entries_in rows.new) }
    ensures fills { FillsAll result (F.view files.old) settings.now rows.old rows.new paths.now }
    ensures effort { TellsWorkOfAll result (F.view files.old) settings.now rows.old paths.now }
    ensures keeps { KeepsFiles (result_err result) (F.view files.old) (F.view files.new) }
{
    let mut effort = Effort::nothing();
    for path in paths {
        effort = effort.and(fill_one(alloc, files, settings, path, rows)?);
    }
    Ok(effort)
}

/// Fills the row of the plain reference's index for this path, if it has none yet. The result is the effort.
fn fill_one<F: Files>(
    alloc: Global,
    files: &mut F,
    settings: &Settings,
    path: &str,
    rows: &mut MemoryRows,
) -> Result<Effort, FilesFault>
    requires { AreOutcomes (view_world (F.view files.old) settings.now) (entries_in rows.old) }
    ensures right { AreOutcomes (view_world (F.view files.old) settings.now) (entries_in rows.new) }
    ensures stay { Stay (entries_in rows.old) (entries_in rows.new) }
    ensures fills { FillsOne result (F.view files.old) settings.now rows.old rows.new path.now }
    ensures effort { TellsWorkOfOne result (F.view files.old) settings.now rows.old path.now }
    ensures keeps { KeepsFiles (result_err result) (F.view files.old) (F.view files.new) }
{
    if rows.get(path).is_some() {
        return Ok(Effort::nothing());
    }
    let found = evaluate_path(alloc, files, settings, path)?;
    let effort = Effort::of(&found);
    let key = String::from_str(alloc, path)?;
    rows.put(key, unstored(alloc, found.row))?;
    Ok(effort)
}

/// A filled row that is stored nowhere. Its names and its size are left empty, since nobody asks for them.
fn unstored(alloc: Global, row: Row) -> KnownRow
    ensures { result.row ≡ row }
{
    KnownRow {
        row,
        names: Vec::new(alloc),
        size: 0,
    }
}
