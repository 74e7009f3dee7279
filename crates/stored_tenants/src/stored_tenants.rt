//! All tenants, whose worlds are stored in databases, and the plain service over their worlds.
ghost use Rattle.std.specs.Prelude.{◌≡◌, ◌<◌, length, IfSome};
ghost use Rattle.ports_core.specs.Answers.{AreBytesOf};
ghost use Rattle.ports_core.specs.Charges.{FitsTurn};
ghost use Rattle.ports_core.specs.Jobs.{IsForRequest, job_in};
ghost use Rattle.ports_core.specs.Sharing.{IsUsed};
ghost use Rattle.ports_core.specs.TenantTurns.{RepliesFor, TurnCharges, TurnGoesOn, TurnLeavesJob};

use crate::tenant::Tenant;
use crate::tenant_turns::Incoming;
use crate::tenants::{index_size_at, limit_tenants, open_tenants, put_away_at, turn_at};
use eval_cache::EvalCache;
use lru::LruCache;
use mk_paths::FilesFault;
use plain_service::{Plain, never_answers_503};
use ports_core::{Answer, Config, Counts, Job, Tenants, Worked};
use ports_http::{Reply, Request};
use std::alloc::Global;
use std::marker::Model;
use std::num::NonZeroUsize;
use turn_amounts::Spent;

/// The most tenants whose indexes stay in memory after a turn.
const MOST_INDEXES: usize = 8;

/// The most bytes that the rows of an index have which stays in memory after a turn.
const MOST_INDEX_BYTES: u64 = 8_388_608;

/// The world of each tenant, by the tenants' numbers, and the plain service that answers over one of them. Each
/// world and the index of each are in a database of their own. Parses and evaluations are kept in one cache, which
/// all tenants share. Each tenant has at most one job: what is under way for its first request. A contract sees
/// the worlds, the jobs, and how much is kept and was used.
///
/// The indexes of 8 tenants at most stay in memory, each of at most 8 MiB: of those whose index was at hand last. That
/// of another is read from its rows again when it is needed.
#[derive(Drop)]
pub struct StoredTenants {
    tenants: Vec<Tenant>,
    cache: EvalCache,
    plain: Plain,
    /// The numbers of tenants whose indexes may be in memory, that of the last one first.
    at_hand: LruCache<usize, ()>,
}

impl Model for StoredTenants {
    ghost use Rattle.stored_tenants.specs.Stored.{Stored};

    ghost Value = { Stored };

    ghost use Rattle.std.specs.Coded.{codes};
    ghost use Rattle.mk_paths.specs.World.{world_code};

    ghost coded = { Prim.hlevel (codes, world_code) };

    ghost use Rattle.stored_tenants.specs.Kept.{AreRightTenants, jobs_of, worlds_of};
    ghost use Rattle.stored_tenants.specs.Shared.{sharing_in};

    ghost view = { λ w. (worlds_of w.tenants.items, jobs_of w.tenants.items, sharing_in w.cache) };

    ghost invariant = { λ w. AreRightTenants w.tenants.items };
}

impl Tenants for StoredTenants {
    ghost worlds = { λ w. w.0 };

    ghost jobs = { λ w. w.1 };

    ghost sharing = { λ w. w.2 };

    /// All stored tenants whose keys a config has, without a file, a row or a job, and the cache that they
    /// share.
    fn new(alloc: Global, config: &Config) -> Result<StoredTenants, FilesFault> {
        let tenants = open_tenants(alloc, config.keys.len())?;
        let cache = EvalCache::new(alloc, config.parses as usize, config.evals as usize)?;
        let plain = Plain::new(alloc)?;
        let most = NonZeroUsize::new(MOST_INDEXES).unwrap_or(NonZeroUsize::MIN);
        let at_hand = LruCache::new(alloc, most)?;
        Ok(StoredTenants {
            tenants,
            cache,
            plain,
            at_hand,
        })
    }

    /// A turn of work for a request of one of the stored tenants. Then an index in memory is put away, if it
    /// is one too many.
    fn work(&mut self, alloc: Global, tenant: usize, request: &Request, close: bool) -> Worked {
        let worked = self.turn(alloc, tenant, request, close);
        self.bound_indexes(alloc, tenant);
        worked
    }

    /// What the job of one of the stored tenants has had so far.
    fn job(&self, tenant: usize) -> Job {
        match self.tenants.get(tenant) {
            Some(tenant) => tenant.had(),
            None => Job::nothing(),
        }
    }

    /// How often parses and evaluations in the cache of all stored tenants were used.
    fn counts(&self) -> Counts {
        let used = self.cache.counts();
        Counts {
            parses: used.parses,
            evals: used.evals,
        }
    }

    /// Limits the steps of each later statement of all stored tenants' databases, or removes the limit.
    fn limit_steps(&mut self, limit: Option<u64>) {
        limit_tenants(&mut self.tenants, limit);
    }
}

impl StoredTenants {
    /// A turn of work for a request over the world of one of the stored tenants, before the indexes in memory
    /// are bounded.
    fn turn(&mut self, alloc: Global, tenant: usize, request: &Request, close: bool) -> Worked
        requires there { tenant < length self.old.0 }
        requires for_request { IsForRequest request.now (job_in tenant self.old.1) }
        ensures answers { RepliesFor tenant request.now result self.old.0 self.new.0 }
        ensures charges { TurnCharges tenant request.now result self.old.1 self.old.0 }
        ensures bytes { IfSome result.reply (λ answer. AreBytesOf answer.reply close answer.bytes) }
        ensures goes_on { TurnGoesOn tenant request.now result self.old.1 self.old.0 self.new.0 }
        ensures short { FitsTurn result.spent }
        ensures job { TurnLeavesJob tenant request.now result self.old.1 self.new.1 }
        ensures count { length self.new.0 ≡ length self.old.0 }
        ensures job_count { length self.new.1 ≡ length self.old.1 }
        ensures uses { IsUsed self.old.2 self.new.2 }
    {
        never_answers_503();
        let incoming = Incoming {
            plain: &self.plain,
            request,
            close,
        };
        let _before = self.cache.counts(); // numbers of 64 bits
        match turn_at(alloc, &mut self.tenants, &mut self.cache, tenant, &incoming) {
            Ok(worked) => worked,
            Err(_refused) => Worked {
                reply: Some(Answer {
                    reply: Reply::store_failed(),
                    bytes: None,
                }),
                spent: Spent::nothing(),
            },
        }
    }

    /// Bounds the indexes that all tenants have in memory after this tenant had a turn: one is put away, if
    /// one has to be.
    fn bound_indexes(&mut self, alloc: Global, tenant: usize)
        ensures { self.new ≡ self.old }
    {
        if let Some(tenant) = self.to_be_put_away(tenant) {
            self.put_away(alloc, tenant);
        }
    }

    /// The stored tenant whose index has to be put away after this tenant had a turn. It is this tenant, if
    /// its index has too many bytes, or the one whose index was at hand before those of 8 others.
    fn to_be_put_away(&mut self, tenant: usize) -> Option<usize>
        ensures { self.new ≡ self.old }
    {
        let size = index_size_at(&self.tenants, tenant)?;
        if size > MOST_INDEX_BYTES {
            return Some(tenant);
        }
        match self.at_hand.push(tenant, ()) {
            Ok(Some((other, ()))) if other != tenant => Some(other),
            Ok(_) => None,
            Err(_failed) => Some(tenant), // no memory is left to note it
        }
    }

    /// Puts away the index that one of the stored tenants has in memory.
    fn put_away(&mut self, alloc: Global, tenant: usize)
        ensures { self.new ≡ self.old }
    {
        put_away_at(alloc, &mut self.tenants, tenant);
    }
}
