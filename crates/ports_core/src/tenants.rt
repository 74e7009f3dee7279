//! The trait of what keeps the tenants' worlds and jobs, as the service needs them.
ghost use Rattle.std.specs.Prelude.{◌≡◌, ◌<◌, true, List, Option, length, IfOk, IfSome};
ghost use Rattle.mk_paths.specs.World.{World};
ghost use Rattle.ports_core.specs.Answers.{AreBytesOf};
ghost use Rattle.ports_core.specs.Charges.{FitsTurn};
ghost use Rattle.ports_core.specs.Jobs.{TenantJob, job_in, had_by, IsForRequest};
ghost use Rattle.ports_core.specs.Keys.{is_fit};
ghost use Rattle.ports_core.specs.Sharing.{Sharing, IsUsed, sizes_of, unused};
ghost use Rattle.ports_core.specs.TenantTurns.{BeginsJobs, BeginsWorlds, RepliesFor, TurnCharges, TurnLeavesJob, WorkGoesOn};

use crate::counts::Counts;
use crate::job::Job;
use crate::keys::Config;
use mk_paths::FilesFault;
use ports_http::{Reply, Request};
use std::alloc::Global;
use turn_amounts::Spent;

/// The answer to a request.
#[derive(Drop)]
pub struct Answer {
    /// The reply.
    pub reply: Reply,
    /// The reply's bytes, which say whether the connection closes; `None` if it is one of the fixed replies,
    /// for which room is reserved.
    pub bytes: Option<Vec<u8>>,
}

/// What was done for a tenant's first request in a turn of the tenant.
#[derive(Drop)]
pub struct Worked {
    /// The answer; `None` if what was begun for the request isn't at its end.
    pub reply: Option<Answer>,
    /// What was spent in this turn: units on lines, records and values, and answers checked of evaluations that
    /// were kept. Nothing with 503. It is at most 51,000 units and checks together.
    pub spent: Spent,
}

/// The world of each tenant, by the tenants' numbers, wherever these worlds are kept, and the plain service
/// over one of them. `worlds` is the list of the worlds. `jobs` has for each tenant what is under way, if
/// anything is: for which question, and what the request that asks it has had so far, in turns, units and checks.
/// `sharing` is how much may be kept for all tenants to be used again, and how often something that was kept was
/// used.
pub trait Tenants: Sized + Drop {
    ghost worlds: { Self → List World };

    ghost jobs: { Self → List (Option TenantJob) };

    ghost sharing: { Self → Sharing };

    /// The worlds of the tenants whose keys a config has, as each begins, with nothing under way. As much may be kept as
    /// the config says, and nothing was used yet.
    ///
    /// The error is `Store` if what keeps them refuses, and `Memory` if memory runs out.
    fn new(alloc: Global, config: &Config) -> Result<Self, FilesFault>
        requires { is_fit config.now ≡ true }
        ensures worlds { BeginsWorlds worlds result config.now }
        ensures jobs { BeginsJobs jobs result config.now }
        ensures sharing { IfOk result (λ kept. sharing kept ≡ unused (sizes_of config.now)) };

    /// A turn of work for a request over a tenant's world. What is under way for the tenant, if anything is,
    /// must be for the question that this request asks.
    ///
    /// Without an answer the request's work goes on in later turns. No world changes, and the tenant's job is for
    /// this question. What was spent on it so far is no more units than the request costs, and at most 1,028 checks
    /// for each makefile on which the reply rests. The turns that it has had stay below 1, and one for each of these
    /// makefiles, and one for each 1,000 of the units that it costs and of the checks that may come. So many turns
    /// are the most for a request, up to its answer.
    ///
    /// With an answer nothing is under way any more. Its bytes are made before the world changes. If what keeps the
    /// worlds fails, or there is no memory, the world is unchanged. Then the reply is the fixed one that says so,
    /// without bytes, and nothing is told as spent in this turn.
    ///
    /// In all turns together a request that asks for the index spends at most the units that it costs. Any other
    /// spends just these. Or the one evaluation that it needs was kept: then at least one answer is checked, and the
    /// evaluation's units aren't spent. At most 1,028 answers are checked for each makefile on which the reply rests.
    ///
    /// No turn spends more than 51,000 units and checks together. Some of what is kept may be used, which is counted.
    fn work(&mut self, alloc: Global, tenant: usize, request: &Request, close: bool) -> Worked
        requires there { tenant < length (worlds self.old) }
        requires for_request { IsForRequest request.now (job_in tenant (jobs self.old)) }
        ensures answers { RepliesFor tenant request.now result (worlds self.old) (worlds self.new) }
        ensures charges { TurnCharges tenant request.now result (jobs self.old) (worlds self.old) }
        ensures bytes { IfSome result.reply (λ answer. AreBytesOf answer.reply close answer.bytes) }
        ensures goes_on { WorkGoesOn worlds jobs tenant request.now result self.old self.new }
        ensures short { FitsTurn result.spent }
        ensures job { TurnLeavesJob tenant request.now result (jobs self.old) (jobs self.new) }
        ensures count { length (worlds self.new) ≡ length (worlds self.old) }
        ensures job_count { length (jobs self.new) ≡ length (jobs self.old) }
        ensures uses { IsUsed (sharing self.old) (sharing self.new) };

    /// What the job of a tenant has had so far: nothing, if nothing is under way, or if there is no such
    /// tenant.
    fn job(&self, tenant: usize) -> Job
        ensures { result ≡ had_by (job_in tenant (jobs self.now)) };

    /// How often something that is kept for all tenants was used.
    fn counts(&self) -> Counts
        ensures { result ≡ (sharing self.now).counts };

    /// Limits the steps of each later statement of what keeps the worlds, or removes the limit. A request
    /// whose statement would take more is answered 503. It changes no world, no job and nothing that is shared.
    fn limit_steps(&mut self, limit: Option<u64>)
        ensures worlds { worlds self.new ≡ worlds self.old }
        ensures jobs { jobs self.new ≡ jobs self.old }
        ensures sharing { sharing self.new ≡ sharing self.old };
}
