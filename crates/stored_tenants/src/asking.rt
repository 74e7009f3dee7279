//! Asking a question over a stored tenant's files: one turn of it, while its database lends them.
use eval_cache::EvalCache;
use index_keep::Keeper;
use index_store::IndexStore;
use mk_files::Listing;
use mk_paths::{FilesFault, Settings};
use question_turns::{Turned, UnderWay};
use std::alloc::Global;
use tenant_store::{Asker, TenantStore};

/// A turn for a question over a tenant's files: what is under way for it, until the turn is taken, and then
/// what the turn came to.
#[derive(Drop)]
pub(crate) struct Turn {
    pub(crate) under_way: Option<UnderWay>,
    pub(crate) turned: Option<Result<Turned, FilesFault>>,
}

/// A question that is asked over the world of a tenant, about which the keeper is right, and its turn.
#[derive(Drop)]
pub(crate) struct Asking<'a> {
    pub(crate) alloc: Global,
    pub(crate) settings: &'a Settings,
    pub(crate) cache: &'a mut EvalCache,
    pub(crate) keeper: &'a mut Keeper<IndexStore>,
    pub(crate) turn: &'a mut Turn,
}

impl Asking<'_> {
    ghost use Rattle.std.specs.Prelude.{◌≡◌};
    ghost use Rattle.mk_paths.specs.World.{files_in};
    ghost use Rattle.stored_tenants.specs.Prepared.{IsReady, IsAsked};

    /// Takes the question's turn over the files of a stored tenant.
    pub(crate) fn ask_tenant(&mut self, store: &mut TenantStore)
        requires { IsReady (files_in store.old) self.old }
        ensures asked { IsAsked (files_in store.old) self.old self.new }
        ensures same { store.new ≡ store.old }
    {
        store.ask(self.alloc, self);
    }
}

impl Asker for Asking<'_> {
    ghost use Rattle.stored_tenants.specs.Prepared.{IsReady, IsAsked};

    ghost ready = { λ asker view. IsReady view.files asker };

    ghost answered = { λ old view new. IsAsked view.files old new };

    /// Takes the question's turn over the files that a tenant's store lends.
    fn ask<F: Listing>(&mut self, files: &mut F) {
        if let Some(under_way) = self.turn.under_way.take() {
            let turned = under_way.turn(
                self.alloc,
                &mut *self.cache,
                files,
                self.settings,
                &mut *self.keeper,
            );
            self.turn.turned = Some(turned);
        }
    }
}
