//! Tenants of worked cases whose worlds are never kept, so that no service over them begins.
use case_lines::no_statement;
use mk_paths::FilesFault;
use ports_core::{Config, Counts, Job, Tenants, Worked};
use ports_http::Request;
use std::alloc::Global;

/// Tenants of worked cases as `K` keeps them, but that never begin: what would keep their worlds refuses. If
/// one parse is to be kept, there is no memory for it.
#[derive(Drop)]
pub struct NeverKept<K> {
    kept: K,
}

impl<K: Tenants> Tenants for NeverKept<K> {
    ghost worlds = { λ never. K.worlds never.kept };

    ghost jobs = { λ never. K.jobs never.kept };

    ghost sharing = { λ never. K.sharing never.kept };

    /// Refuses to keep the worlds of a worked case. If one parse is to be kept, there is no memory; else a
    /// statement is refused.
    fn new(alloc: Global, config: &Config) -> Result<NeverKept<K>, FilesFault> {
        if config.parses == 1 {
            let _room = Vec::<u8>::with_capacity(alloc, usize::MAX)?;
        }
        Err(no_statement(alloc))
    }

    /// Does a tenant's work as `K` does it. No service comes to this call, since its worlds are never kept.
    fn work(&mut self, alloc: Global, tenant: usize, request: &Request, close: bool) -> Worked {
        self.kept.work(alloc, tenant, request, close)
    }

    /// A tenant's job as `K` has it. No service comes to this call, since its worlds are never kept.
    fn job(&self, tenant: usize) -> Job {
        self.kept.job(tenant)
    }

    /// The counts of the cache as `K` has them. No service comes to this call, since its worlds are never
    /// kept.
    fn counts(&self) -> Counts {
        self.kept.counts()
    }

    /// Limits the steps of statements as `K` does. No service comes to this call, since its worlds are never
    /// kept.
    fn limit_steps(&mut self, limit: Option<u64>) {
        self.kept.limit_steps(limit);
    }
}
