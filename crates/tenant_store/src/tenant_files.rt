//! The files of a tenant's store, as a world that can be read and listed.
ghost use Rattle.std.specs.Prelude.{◌≡◌, OnOk, OnErr};
ghost use Rattle.mk_paths.specs.FilesView.{Presence, Fails, IsReply};
ghost use Rattle.tenant_store.specs.Answers.{AnswersContent, ListsFiles};

use crate::store::TenantStore;
use mk_files::{Content, Files, Listing};
use mk_paths::{FilesFault, Name, Names};
use std::alloc::Global;

/// The files of the store, which keep no log, and how many readings of them failed.
#[derive(Drop)]
pub struct TenantFiles<'s> {
    store: &'s mut TenantStore,
    alloc: Global,
    failures: u64,
}

impl<'s> TenantFiles<'s> {
    ghost use Rattle.tenant_store.specs.TenantWorld.{view_of, opened_files, StaysOver, IsOverMemory};

    /// The files of a tenant's store as a world, with no failure yet.
    pub fn new(alloc: Global, store: &'s mut TenantStore) -> TenantFiles<'s>
        ensures over { IsOverMemory result store.entry }
        ensures world { view_of result ≡ opened_files store.old }
    {
        TenantFiles {
            store,
            alloc,
            failures: 0,
        }
    }

    /// Counts one more reading of a tenant's files that failed, with this fault.
    fn failed(&mut self, fault: FilesFault) -> FilesFault
        ensures counted { Fails (view_of self.old) (view_of self.new) }
        ensures fault { result ≡ fault }
        ensures stays { StaysOver self.old self.new }
    {
        self.failures = self.failures.saturating_add(1);
        fault
    }

    /// Whether the tenant's store holds a file of this name.
    pub(crate) fn holds(&self, name: &Name) -> bool
        ensures { IsReply (view_of self.now).files name.now (Presence result) }
    {
        self.store.has_file(name)
    }

    /// The content of the file of this name in the tenant's store; `None` if it isn't there.
    pub(crate) fn content(&mut self, name: &Name) -> Result<Option<Content>, FilesFault>
        ensures content { AnswersContent result (view_of self.old) (view_of self.new) name.now }
        ensures fault { OnErr result (Fails (view_of self.old) (view_of self.new)) }
        ensures stays { StaysOver self.old self.new }
    {
        match self.store.get_file(self.alloc, name) {
            Ok(content) => Ok(content),
            Err(fault) => Err(self.failed(fault)),
        }
    }

    /// The names of all files in the tenant's store, in the order of their bytes.
    pub(crate) fn listed(&mut self, alloc: Global) -> Result<Vec<String>, FilesFault>
        ensures names { ListsFiles result (view_of self.old).files }
        ensures same { OnOk result (view_of self.new ≡ view_of self.old) }
        ensures fault { OnErr result (Fails (view_of self.old) (view_of self.new)) }
        ensures stays { StaysOver self.old self.new }
    {
        match self.store.names(alloc) {
            Ok(names) => Ok(names),
            Err(refused) => Err(self.failed(refused.into())),
        }
    }
}

impl Names for TenantFiles<'_> {
    ghost use Rattle.tenant_store.specs.TenantWorld.{view_of, IsAnyFault};

    ghost view = { view_of };

    ghost fails_with = { IsAnyFault };

    /// Whether a file of this name is there, in the world of a tenant's files.
    fn has(&mut self, name: &Name) -> Result<bool, FilesFault> {
        Ok(self.holds(name))
    }
}

impl Files for TenantFiles<'_> {
    /// The content of the file of this name, in the world of a tenant's files; `None` if it isn't there.
    fn read(&mut self, name: &Name) -> Result<Option<Content>, FilesFault> {
        self.content(name)
    }
}

impl Listing for TenantFiles<'_> {
    /// The names of all files in the world of a tenant's files, in the order of their bytes.
    fn names(&mut self, alloc: Global) -> Result<Vec<String>, FilesFault> {
        self.listed(alloc)
    }
}
