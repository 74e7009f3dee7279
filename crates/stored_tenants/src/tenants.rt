//! The list of stored tenants, by their numbers: opened, limited and given turns.
ghost use Rattle.std.specs.Prelude.{◌≡◌, ◌<◌, [], ◌∷◌, ◌++◌, None, length, option_and_then, slice_get};
ghost use Rattle.std.specs.Prelude.{IfOk, OnOk, OnErr};
ghost use Rattle.eval_cache.specs.CacheUse.{UsesCache};
ghost use Rattle.mk_paths.specs.World.{opening_world};
ghost use Rattle.ports_core.specs.Jobs.{IsForRequest};
ghost use Rattle.stored_tenants.specs.Kept.{AreRightTenants, IsIdle, IsRightTenant, HaveNoJob, HaveOpeningWorlds, KeepJobs, KeepWorlds};
ghost use Rattle.stored_tenants.specs.Kept.{index_size, job_at, world_at};
ghost use Rattle.stored_tenants.specs.RowMarks.{KeepRows, KeepsOtherTenants, LeavesRowsAtBy};
ghost use Rattle.stored_tenants.specs.Turn.{TurnsTenantAt};

use crate::tenant::Tenant;
use crate::tenant_turns::Incoming;
use eval_cache::EvalCache;
use index_keep::Keeper;
use index_store::IndexStore;
use mk_paths::FilesFault;
use ports_core::Worked;
use std::alloc::{AllocError, Global};
use std::num::NonZeroUsize;
use tenant_store::TenantStore;

/// The most contents of files that all tenants together keep in memory. Each has an equal share, of at least one.
const MOST_CONTENTS: usize = 256;

/// Opens so many stored tenants without a file, whose indexes have no row yet, and without a job. Each
/// tenant's files and each index have a database in memory of their own.
///
/// It fails if one isn't opened, or if memory runs out.
pub(crate) fn open_tenants(alloc: Global, count: usize) -> Result<Vec<Tenant>, FilesFault>
    ensures count { IfOk result (λ tenants. length tenants.items ≡ count) }
    ensures right { IfOk result (λ tenants. AreRightTenants tenants.items) }
    ensures worlds { IfOk result (λ tenants. HaveOpeningWorlds tenants.items) }
    ensures jobs { IfOk result (λ tenants. HaveNoJob tenants.items) }
{
    let share = MOST_CONTENTS / count.max(1);
    let contents = NonZeroUsize::new(share).unwrap_or(NonZeroUsize::MIN);
    let mut tenants = Vec::with_capacity(alloc, count)?;
    for _ in 0..count {
        add_tenant(&mut tenants, open_tenant(alloc, contents)?)?;
    }
    Ok(tenants)
}

/// Opens one stored tenant without a file, a row or a job, which keeps so many contents in memory.
fn open_tenant(alloc: Global, contents: NonZeroUsize) -> Result<Tenant, FilesFault>
    ensures right { IfOk result IsRightTenant }
    ensures opens { IfOk result (IsIdle opening_world) }
{
    let mut store = TenantStore::open_in_memory(alloc, contents)?;
    let settings = store.settings(alloc)?;
    let keeper = Keeper::new(alloc, IndexStore::open_in_memory(alloc)?);
    Ok(Tenant {
        store,
        settings,
        keeper,
        job: None,
    })
}

/// Adds a stored tenant after the others. It fails only if memory runs out.
fn add_tenant(tenants: &mut Vec<Tenant>, tenant: Tenant) -> Result<(), AllocError>
    ensures { OnOk result (tenants.new.items ≡ tenants.old.items ++ tenant ∷ []) }
{
    tenants.push(tenant)?;
    Ok(())
}

/// Limits the steps of each later statement over the files and indexes of all stored tenants, or removes the
/// limit. No world and no job changes.
pub(crate) fn limit_tenants(tenants: &mut [Tenant], limit: Option<u64>)
    ensures count { length tenants.new ≡ length tenants.old }
    ensures right { AreRightTenants tenants.old → AreRightTenants tenants.new }
    ensures worlds { KeepWorlds tenants.old tenants.new }
    ensures jobs { KeepJobs tenants.old tenants.new }
{
    for tenant in tenants.iter_mut() {
        tenant.store.limit_steps(limit);
        tenant.keeper.limit_steps(limit);
    }
}

/// How many bytes the rows of the index have of the stored tenant with this number, if the index is at hand.
pub(crate) fn index_size_at(tenants: &[Tenant], number: usize) -> Option<u64>
    ensures { result ≡ option_and_then index_size (slice_get tenants.now number) }
{
    tenants.get(number)?.keeper.size_at_hand()
}

/// Puts away the index in memory of the stored tenant with this number. No world, no job and no row changes.
pub(crate) fn put_away_at(alloc: Global, tenants: &mut [Tenant], number: usize)
    ensures count { length tenants.new ≡ length tenants.old }
    ensures right { AreRightTenants tenants.old → AreRightTenants tenants.new }
    ensures worlds { KeepWorlds tenants.old tenants.new }
    ensures jobs { KeepJobs tenants.old tenants.new }
    ensures rows { KeepRows tenants.old tenants.new }
{
    if number < tenants.len() {
        tenants[number].keeper.put_away(alloc);
    }
}

/// A turn of a request of the stored tenant with this number, as `take_turn` takes it. No other tenant
/// changes.
pub(crate) fn turn_at(
    alloc: Global,
    tenants: &mut [Tenant],
    cache: &mut EvalCache,
    number: usize,
    incoming: &Incoming,
) -> Result<Worked, FilesFault>
    requires there { number < length tenants.old }
    requires right { AreRightTenants tenants.old }
    requires for_request { IsForRequest incoming.now.request.now (job_at number tenants.old) }
    ensures works { TurnsTenantAt result number incoming.now tenants.old tenants.new }
    ensures err { OnErr result (world_at number tenants.new ≡ world_at number tenants.old) }
    ensures dropped { OnErr result (job_at number tenants.new ≡ None) }
    ensures rows { LeavesRowsAtBy number incoming.now.request.now tenants.old tenants.new }
    ensures count { length tenants.new ≡ length tenants.old }
    ensures right { AreRightTenants tenants.new }
    ensures same { KeepsOtherTenants number tenants.old tenants.new }
    ensures uses { UsesCache cache.old cache.new }
{
    tenants[number].take_turn(alloc, cache, incoming)
}
