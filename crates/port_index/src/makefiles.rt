//! The names of changed files that are makefiles, and whether these makefiles are there.
ghost use Rattle.std.specs.Prelude.{◌≡◌, IfOk};
ghost use Rattle.std.specs.Result.{result_err};
ghost use Rattle.port_index.specs.KeptFiles.{KeepsFiles};
ghost use Rattle.port_index.specs.Makefiles as makefiles;
ghost use Rattle.port_index.specs.Makefiles.{SaysAreThere, SaysIsThere, SaysMakefileIsThere};

use mk_paths::{FilesFault, Name, NameFault, Names};
use std::alloc::Global;
use std::collections::BTreeSet;

/// Whether the name of a changed file ends as that of a directory's makefile does.
pub fn is_makefile(name: &str) -> bool
    ensures { result ≡ makefiles.is_makefile name.now }
{
    name.ends_with("/Makefile")
}

/// Whether each makefile that has one of these names of changed files is there. It fails if the files fail,
/// or if memory runs out.
pub fn makefiles_are_there<F: Names>(
    alloc: Global,
    files: &mut F,
    names: &BTreeSet<String>,
) -> Result<bool, FilesFault>
    ensures there { IfOk result (SaysAreThere names.now (F.view files.old).files) }
    ensures keeps { KeepsFiles (result_err result) (F.view files.old) (F.view files.new) }
{
    for name in names {
        if !is_there_if_makefile(alloc, files, name.as_str())? {
            return Ok(false);
        }
    }
    Ok(true)
}

/// Whether the makefile of this name is there; it is so of any name that isn't a makefile's.
fn is_there_if_makefile<F: Names>(
    alloc: Global,
    files: &mut F,
    name: &str,
) -> Result<bool, FilesFault>
    ensures there { IfOk result (SaysMakefileIsThere name.now (F.view files.old).files) }
    ensures keeps { KeepsFiles (result_err result) (F.view files.old) (F.view files.new) }
{
    if !is_makefile(name) {
        return Ok(true);
    }
    is_there(alloc, files, name)
}

/// Whether a changed name is that of a makefile, and the makefile is there.
fn is_there<F: Names>(alloc: Global, files: &mut F, text: &str) -> Result<bool, FilesFault>
    ensures there { IfOk result (SaysIsThere text.now (F.view files.old).files) }
    ensures keeps { KeepsFiles (result_err result) (F.view files.old) (F.view files.new) }
{
    match Name::read(alloc, text) {
        Ok(name) if name.as_str() == text => files.has(&name),
        Ok(_) | Err(NameFault::BadName | NameFault::Above) => Ok(false),
        Err(NameFault::Memory(refused)) => Err(FilesFault::Memory(refused)),
    }
}
