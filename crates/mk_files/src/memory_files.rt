//! A world of files kept in memory, for cases.
ghost use Rattle.std.specs.Prelude.{◌≡◌, OnOk, OnErr};
ghost use Rattle.refusals.specs.Refused.{refused};
ghost use Rattle.std.specs.Option.{option_copied};
ghost use Rattle.std.specs.FinMap as map;
ghost use Rattle.mk_paths.specs.FilesView.{Fails};
ghost use Rattle.mk_files.specs.MemoryFiles.{empty_holding, with_file, without_file, view_of, IsMemory, files_of, ListsNames};

use crate::content::Content;
use crate::files::{Files, Listing};
use mk_paths::{FilesFault, Name, Names};
use std::alloc::{AllocError, Global};
use std::collections::BTreeMap;
use std::marker::Model;

/// A world of files in memory. It keeps no log, and fails only if memory runs out. Clauses see its map
/// and how many readings failed.
#[derive(Debug, Drop)]
pub struct MemoryFiles {
    files: BTreeMap<String, Content>,
    failures: u64,
}

impl Model for MemoryFiles {
    ghost use Rattle.mk_files.specs.MemoryFiles.{Holding, holding_code, files_of};

    ghost Value = { Holding };

    ghost coded = { holding_code };

    ghost view = { λ held. record { files = files_of held.files.entries; failures = held.failures } };
}

impl MemoryFiles {
    /// A world of files in memory without any file. It takes no memory.
    pub fn new(alloc: Global) -> MemoryFiles
        ensures { result ≡ empty_holding }
    {
        MemoryFiles {
            files: BTreeMap::new(alloc),
            failures: 0,
        }
    }

    /// Gives the file of this name in memory this content, whether or not the file was there. It fails only
    /// if memory runs out, and then nothing changes.
    pub fn put(&mut self, name: Name, content: Content) -> Result<(), AllocError>
        ensures ok { OnOk result (self.new ≡ with_file self.old name content) }
        ensures err { OnErr result (self.new ≡ self.old) }
    {
        self.files.insert(name.into_text(), content)?;
        Ok(())
    }

    /// Removes the file of this name from memory, and gives whether it was there.
    pub fn remove(&mut self, name: &Name) -> bool
        ensures was_there { result ≡ map.contains_key self.old.files name.now }
        ensures removed { self.new ≡ without_file self.old name.now }
    {
        self.files.remove(name.as_str()).is_some()
    }

    /// The content of the file of this name in memory; `None` if it isn't there.
    pub fn get(&self, name: &Name) -> Option<&Content>
        ensures { option_copied result ≡ map.get self.now.files name.now }
    {
        self.files.get(name.as_str())
    }

    /// Counts one more reading of files in memory that failed, and gives its fault.
    fn failed(&mut self, error: AllocError) -> FilesFault
        ensures counted { Fails (view_of self.old) (view_of self.new) }
        ensures memory { result ≡ FilesFault.Memory refused }
    {
        self.failures = self.failures.saturating_add(1);
        FilesFault::from(error)
    }
}

impl Names for MemoryFiles {
    ghost view = { view_of };

    ghost fails_with = { IsMemory };

    /// Whether a file of this name is there in memory.
    fn has(&mut self, name: &Name) -> Result<bool, FilesFault> {
        Ok(self.files.contains_key(name.as_str()))
    }
}

impl Files for MemoryFiles {
    /// The content of the file of this name, read from memory; `None` if it isn't there.
    fn read(&mut self, name: &Name) -> Result<Option<Content>, FilesFault> {
        let Some(content) = self.get(name) else {
            return Ok(None);
        };
        match content.share() {
            Ok(shared) => Ok(Some(shared)),
            Err(error) => Err(self.failed(error)),
        }
    }
}

impl Listing for MemoryFiles {
    /// The names of all files in memory, in the order of their bytes.
    fn names(&mut self, alloc: Global) -> Result<Vec<String>, FilesFault> {
        match names_of(alloc, &self.files) {
            Ok(names) => Ok(names),
            Err(error) => Err(self.failed(error)),
        }
    }
}

/// The names of these files in memory, in the order of their bytes.
fn names_of(alloc: Global, files: &BTreeMap<String, Content>) -> Result<Vec<String>, AllocError>
    ensures { ListsNames result (files_of files.now.entries) }
{
    let mut names = Vec::new(alloc);
    for name in files.keys() {
        names.push(String::from_str(alloc, name.as_str())?)?;
    }
    Ok(names)
}
