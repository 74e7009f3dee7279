//! One stored tenant: its world, the keeper of its index, and what is under way for its first request.
ghost use Rattle.std.specs.Prelude.{◌≡◌};
ghost use Rattle.ports_core.specs.Jobs.{had_by};
ghost use Rattle.stored_tenants.specs.Kept.{job_of, seen_job};

use index_keep::Keeper;
use index_store::IndexStore;
use mk_paths::Settings;
use ports_core::Job;
use question_turns::UnderWay;
use tenant_store::TenantStore;

/// The files and settings of a tenant, the keeper of its index, and its job, if there is one.
#[derive(Drop)]
pub(crate) struct Tenant {
    pub(crate) store: TenantStore,
    /// The settings, as the store has them.
    pub(crate) settings: Settings,
    pub(crate) keeper: Keeper<IndexStore>,
    pub(crate) job: Option<TenantJob>,
}

/// A request that isn't answered yet, by what is under way for its question, and the turns that it has had.
#[derive(Drop)]
pub(crate) struct TenantJob {
    /// How many turns it has had; the count stops at 2^64 - 1.
    pub(crate) turns: u64,
    pub(crate) under_way: UnderWay,
}

impl Tenant {
    /// What the stored tenant's first request has had so far: nothing, if there is no job.
    pub(crate) fn had(&self) -> Job
        ensures { result ≡ had_by (job_of self.now) }
    {
        match &self.job {
            Some(job) => job.had(),
            None => Job::nothing(),
        }
    }
}

impl TenantJob {
    /// The job of a tenant for a request before its first turn.
    pub(crate) fn new(under_way: UnderWay) -> TenantJob
        ensures { result ≡ record { turns = 0; under_way = under_way } }
    {
        TenantJob {
            turns: 0,
            under_way,
        }
    }

    /// What the request of the tenant's job has had so far.
    fn had(&self) -> Job
        ensures { result ≡ (seen_job self.now).had }
    {
        let spent = self.under_way.spent;
        Job {
            turns: self.turns,
            units: spent.units,
            checks: spent.checks,
        }
    }
}
