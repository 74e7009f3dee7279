//! The names of a tenant's files with their lengths, as they are noted in memory beside the database.
ghost use Rattle.std.specs.Prelude.{◌≡◌, ◌+◌, ◌≤◌, None, Some, IsSome, OnOk, OnErr};
ghost use Rattle.std.specs.BTreeMap.{get_by_text};
ghost use Rattle.tenant_store.specs.Lengths.{NotesLength, ListsNotedFiles};

use mk_files::Usage;
use mk_paths::FilesFault;
use std::alloc::{AllocError, Global};
use std::collections::BTreeMap;

/// Notes the name and the length of a tenant's file, whether or not one of the name was noted. If memory runs
/// out, it fails, and nothing changes.
pub(crate) fn note(
    alloc: Global,
    lengths: &mut BTreeMap<String, usize>,
    name: &str,
    length: usize,
) -> Result<(), FilesFault>
    ensures noted { OnOk result (NotesLength lengths.old lengths.new name.now (Some length)) }
    ensures err { OnErr result (lengths.new.entries ≡ lengths.old.entries) }
{
    match lengths.insert(String::from_str(alloc, name)?, length) {
        Ok(_had) => Ok(()),
        Err(failed) => Err(AllocError::from(failed).into()),
    }
}

/// Forgets the length of the tenant's file of this name, which is gone.
pub(crate) fn forget(lengths: &mut BTreeMap<String, usize>, name: &str)
    ensures { NotesLength lengths.old lengths.new name.now None }
{
    let _noted = lengths.remove(name);
}

/// Gives the noted file of this name of a tenant the length that it had, or forgets it if it wasn't there.
pub(crate) fn put_back(lengths: &mut BTreeMap<String, usize>, name: &str, had: Option<usize>)
    requires { IsSome (get_by_text lengths.old name.now) }
    ensures { NotesLength lengths.old lengths.new name.now had }
{
    match had {
        Some(length) => {
            if let Some(noted) = lengths.get_mut(name) {
                *noted = length;
            }
        }
        None => forget(lengths, name),
    }
}

/// How many files and bytes a tenant has once a file of this length is gone.
pub(crate) fn without(usage: Usage, length: usize) -> Usage
    requires files { 1 ≤ usage.files }
    requires bytes { length ≤ usage.bytes }
    ensures files { result.files + 1 ≡ usage.files }
    ensures bytes { result.bytes + length ≡ usage.bytes }
{
    Usage {
        files: usage.files - 1,
        bytes: usage.bytes - length as u32,
    }
}

/// The noted names of a tenant's files, in the order of their bytes.
pub(crate) fn list_of(
    alloc: Global,
    lengths: &BTreeMap<String, usize>,
) -> Result<Vec<String>, AllocError>
    ensures { ListsNotedFiles result lengths.now }
{
    let mut names = Vec::with_capacity(alloc, lengths.len())?;
    for name in lengths.keys() {
        names.push(String::from_str(alloc, name.as_str())?)?;
    }
    Ok(names)
}
