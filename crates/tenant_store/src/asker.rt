//! Work that asks about a tenant's files and leaves its store as it was.
ghost use Rattle.std.specs.Prelude.{◌≡◌};
ghost use Rattle.tenant_store.specs.TenantWorld.{view_of, store_reference, held_by, opened_files};

use crate::lent_files::{Lent, LentFiles};
use crate::store::TenantStore;
use crate::tenant_files::TenantFiles;
use mk_files::Listing;
use std::alloc::Global;
use std::marker::Brand;

/// Work that reads and lists files, over any world of files, and keeps its answer.
///
/// `ready` says when it may begin over files, and `answered` what it then leaves.
pub trait Asker {
    ghost use Rattle.mk_paths.specs.FilesView.{FilesView};

    ghost ready: { Self → FilesView → Type 0 };

    ghost answered: { Self → FilesView → Self → Type 0 };

    /// Does the work of an asker: reads and lists a tenant's files.
    fn ask<F: Listing>(&mut self, files: &mut F)
        requires { ready self.old (F.view files.old) }
        ensures { answered self.old (F.view files.old) self.new };
}

impl TenantStore {
    /// Does an asker's work over the tenant's files. Whatever the work asks, nothing changes that the store
    /// holds.
    pub fn ask<A: Asker>(&mut self, alloc: Global, asker: &mut A)
        requires { A.ready asker.old (opened_files self.old) }
        ensures answered { A.answered asker.old (opened_files self.old) asker.new }
        ensures same { self.new ≡ self.old }
    {
        let files = TenantFiles::new(alloc, self);
        let _files = ask_over::<Brand, A>(files, asker);
    }
}

/// Does an asker's work over a tenant's files that are lent. They come back over the same store, and the
/// store is as it was.
fn ask_over<'s, L: Lent, A: Asker>(files: TenantFiles<'s>, asker: &mut A) -> TenantFiles<'s>
    requires name { store_reference files ≡ L.name }
    requires held { held_by files ≡ L.held }
    requires ready { A.ready asker.old (view_of files) }
    ensures name { store_reference result ≡ store_reference files.entry }
    ensures held { held_by result ≡ held_by files.entry }
    ensures answered { A.answered asker.old (view_of files.entry) asker.new }
{
    let mut lent = LentFiles::<L>::new(files);
    asker.ask(&mut lent);
    lent.into_files()
}
