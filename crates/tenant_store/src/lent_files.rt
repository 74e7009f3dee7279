//! The files of a tenant's store that is lent: whatever is asked, the store stays as it was.
ghost use Rattle.std.specs.Prelude.{◌≡◌};
ghost use Rattle.std.specs.Coded.{Coded-set};
ghost use Rattle.mk_paths.specs.World.{world_code};
ghost use Rattle.tenant_store.specs.TenantWorld.{view_of, store_reference, held_by};

use crate::tenant_files::TenantFiles;
use mk_files::{Content, Files, Listing};
use mk_paths::{FilesFault, Name, Names};
use std::alloc::Global;
use std::marker::{Brand, PhantomData};

/// Names a store that was lent: by the reference to it, and by what it holds. A caller chooses both when
/// it passes `Brand`.
pub(crate) trait Lent {
    ghost use Rattle.std.specs.Borrow.{GName};
    ghost use Rattle.mk_paths.specs.World.{World};

    ghost name: { GName };

    ghost held: { World };
}

impl Lent for Brand {
    ghost use Rattle.mk_paths.specs.World.{opening_world};

    ghost name = { 0 };

    ghost held = { opening_world };
}

/// The files of a store that holds the same as when it was lent, whatever was asked. So
/// after a function over any `Listing`, more is known of them than that function says.
#[derive(Drop)]
pub(crate) struct LentFiles<'s, L: Lent> {
    files: TenantFiles<'s>,
    lent: PhantomData<L>,
    ghost name: { store_reference files ≡ L.name },
    ghost held: { held_by files ≡ L.held } by { Coded-set world_code (held_by files) L.held },
}

impl<'s, L: Lent> LentFiles<'s, L> {
    /// The files of a tenant as lent files, over the store that `L` names.
    pub(crate) fn new(files: TenantFiles<'s>) -> LentFiles<'s, L>
        requires name { store_reference files ≡ L.name }
        requires held { held_by files ≡ L.held }
        ensures files { view_of result.files ≡ view_of files.entry }
    {
        LentFiles {
            files,
            lent: PhantomData,
        }
    }

    /// The files of a tenant that were lent, as they were before, with the failures counted since.
    pub(crate) fn into_files(self) -> TenantFiles<'s>
        ensures name { store_reference result ≡ L.name }
        ensures held { held_by result ≡ L.held }
    {
        self.files
    }
}

impl<L: Lent> Names for LentFiles<'_, L> {
    ghost use Rattle.tenant_store.specs.TenantWorld.{view_of, IsAnyFault};

    ghost view = { λ world. view_of world.files };

    ghost fails_with = { IsAnyFault };

    /// Whether a file of this name is there, among a tenant's lent files.
    fn has(&mut self, name: &Name) -> Result<bool, FilesFault> {
        Ok(self.files.holds(name))
    }
}

impl<L: Lent> Files for LentFiles<'_, L> {
    /// The content of the file of this name, among a tenant's lent files; `None` if it isn't there.
    fn read(&mut self, name: &Name) -> Result<Option<Content>, FilesFault> {
        self.files.content(name)
    }
}

impl<L: Lent> Listing for LentFiles<'_, L> {
    /// The names of all of a tenant's lent files, in the order of their bytes.
    fn names(&mut self, alloc: Global) -> Result<Vec<String>, FilesFault> {
        self.files.listed(alloc)
    }
}
