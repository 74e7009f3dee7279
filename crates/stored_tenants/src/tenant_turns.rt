//! The turns of one stored tenant: a request over its world, from its first turn to its answer.
ghost use Rattle.std.specs.Prelude.{◌≡◌, false, Some, None, IfOk, OnOk, OnErr};
ghost use Rattle.turn_amounts.specs.Spent.{no_spending};
ghost use Rattle.plain_service.specs.Change.{changed, overfills};
ghost use Rattle.ports_core.specs.Answers.{AreBytesOf};
ghost use Rattle.ports_core.specs.Jobs.{IsForRequest};
ghost use Rattle.eval_cache.specs.CacheUse.{UsesCache};
ghost use Rattle.index_store.specs.PortTable.{stored_by};
ghost use Rattle.index_keep.specs.Keeper.{refresh_of};
ghost use Rattle.question_turns.specs.UnderWay.{question_in};
ghost use Rattle.stored_tenants.specs.Kept.{IsIdle, IsJobOver, IsRightTenant, job_of, world_of};
ghost use Rattle.stored_tenants.specs.RowMarks.{KeepsFreshRows, LeavesRowsBy, LeavesRowsOf, MarksIfFull, MarksRows};
ghost use Rattle.stored_tenants.specs.RowMarks.{MarksRowsAtMost, MarksRowsIfAny, TellsFull};
ghost use Rattle.stored_tenants.specs.Turn.{IsPendingFor, SettlesChange, TurnsFirst, TurnsJobOf, TurnsOver, TurnsTenant};

use crate::asking::{Asking, Turn};
use crate::tenant::{Tenant, TenantJob};
use eval_cache::EvalCache;
use mk_paths::FilesFault;
use plain_service::{Change, Plain, Prepared, Question, full};
use ports_core::{Answer, Worked};
use ports_http::{Reply, Request, write_reply};
use question_turns::{Turned, UnderWay};
use std::alloc::{AllocError, Global};
use tenant_store::PutFault;
use turn_amounts::{Spent, spent_since};

/// A request as it came, with the service that answers it, and whether the connection closes after it.
#[derive(Drop)]
pub(crate) struct Incoming<'a> {
    pub(crate) plain: &'a Plain,
    pub(crate) request: &'a Request,
    pub(crate) close: bool,
}

impl Tenant {
    /// A turn of a request over the tenant's world. Without an answer, what is under way for the request is the tenant's
    /// job. With one there is no job any more, and the world is the one after it. The answer's bytes say whether the
    /// connection closes, and are made before the world changes.
    ///
    /// It fails if the store of the files or that of the index fails, or if memory runs out; then the world has
    /// not changed, and there is no job. Whatever happens, the tenant's keeper is right about the world. Rows of the index
    /// that were fresh are stale only if the request changes what they rest on.
    pub(crate) fn take_turn(
        &mut self,
        alloc: Global,
        cache: &mut EvalCache,
        incoming: &Incoming,
    ) -> Result<Worked, FilesFault>
        requires right { IsRightTenant self.old }
        requires for_request { IsForRequest incoming.now.request.now (job_of self.old) }
        ensures works { TurnsTenant result incoming.now self.old self.new }
        ensures err { OnErr result (IsIdle (world_of self.old) self.new) }
        ensures rows { LeavesRowsBy incoming.now.request.now self.old self.new }
        ensures right { IsRightTenant self.new }
        ensures uses { UsesCache cache.old cache.new }
    {
        match self.job.take() {
            Some(job) => self.work_on(alloc, cache, job, incoming.close),
            None => self.begin(alloc, cache, incoming),
        }
    }

    /// The first turn of a tenant's request: it is answered at once, or work for its question begins.
    fn begin(
        &mut self,
        alloc: Global,
        cache: &mut EvalCache,
        incoming: &Incoming,
    ) -> Result<Worked, FilesFault>
        requires right { IsRightTenant self.old }
        requires idle { IsIdle (world_of self.old) self.old }
        ensures works { TurnsFirst result incoming.now self.old self.new }
        ensures err { OnErr result (IsIdle (world_of self.old) self.new) }
        ensures rows { LeavesRowsBy incoming.now.request.now self.old self.new }
        ensures right { IsRightTenant self.new }
        ensures uses { UsesCache cache.old cache.new }
    {
        let request = incoming.request;
        let close = incoming.close;
        let target = request.target.as_str();
        match incoming
            .plain
            .question(alloc, request.method, target, request.body.as_slice())?
        {
            Question::Settled(prepared) => Ok(free(self.settle(alloc, prepared, close)?)),
            Question::OfFile(asked) => {
                let content = self.store.get_file(alloc, asked.name())?;
                let prepared = asked.answer(alloc, content)?;
                Ok(free(self.settle(alloc, prepared, close)?))
            }
            Question::OfPort(asked) => {
                let job = TenantJob::new(UnderWay::of_port(asked));
                self.work_on(alloc, cache, job, close)
            }
            Question::OfIndex(asked) => {
                self.keeper.stop(alloc); // what was left of a request that failed
                let job = TenantJob::new(UnderWay::of_index(asked));
                self.work_on(alloc, cache, job, close)
            }
        }
    }

    /// A turn of a tenant for a question that takes work. It is the tenant's job once more if it isn't
    /// answered.
    fn work_on(
        &mut self,
        alloc: Global,
        cache: &mut EvalCache,
        job: TenantJob,
        close: bool,
    ) -> Result<Worked, FilesFault>
        requires right { IsRightTenant self.old }
        requires idle { IsIdle (world_of self.old) self.old }
        requires job { IsJobOver (world_of self.old) (refresh_of stored_by self.old.keeper) job }
        ensures works { TurnsJobOf result job close self.old self.new }
        ensures err { OnErr result (IsIdle (world_of self.old) self.new) }
        ensures rows { LeavesRowsOf (question_in job.under_way) self.old self.new }
        ensures right { IsRightTenant self.new }
        ensures uses { UsesCache cache.old cache.new }
    {
        let TenantJob { turns, under_way } = job;
        let before = under_way.spent;
        match self.turn_over(alloc, cache, under_way)? {
            Turned::More(under_way) => {
                let spent = spent_since(before, under_way.spent);
                let turns = turns.saturating_add(1);
                self.job = Some(TenantJob { turns, under_way });
                Ok(Worked { reply: None, spent })
            }
            Turned::Done(reply, after) => {
                let spent = spent_since(before, after);
                let reply = Some(answer_with_bytes(alloc, reply, close)?);
                Ok(Worked { reply, spent })
            }
        }
    }

    /// A turn of a tenant for a question over its files, and over the index that its keeper has. Nothing is
    /// changed, but rows of the index may be renewed.
    fn turn_over(
        &mut self,
        alloc: Global,
        cache: &mut EvalCache,
        under_way: UnderWay,
    ) -> Result<Turned, FilesFault>
        requires right { IsRightTenant self.old }
        requires idle { IsIdle (world_of self.old) self.old }
        requires pending { IsPendingFor under_way self.old }
        ensures turn { TurnsOver result under_way self.old self.new }
        ensures fresh { KeepsFreshRows self.old self.new }
        ensures idle { IsIdle (world_of self.old) self.new }
        ensures right { IsRightTenant self.new }
        ensures uses { UsesCache cache.old cache.new }
    {
        let mut turn = Turn {
            under_way: Some(under_way),
            turned: None,
        };
        let mut asking = Asking {
            alloc,
            settings: &self.settings,
            cache,
            keeper: &mut self.keeper,
            turn: &mut turn,
        };
        asking.ask_tenant(&mut self.store);
        match asking.turn.turned.take() {
            Some(turned) => turned,
            None => unreachable!(), // the turn was taken
        }
    }

    /// Settles a tenant's request: carries out what it changes, and gives its reply with its bytes. If a file
    /// isn't stored since the tenant would have more than it may, the reply is 409. It fails if the store
    /// fails, or if memory runs out; then nothing has changed.
    fn settle(
        &mut self,
        alloc: Global,
        prepared: Prepared,
        close: bool,
    ) -> Result<Answer, FilesFault>
        requires right { IsRightTenant self.old }
        requires idle { IsIdle (world_of self.old) self.old }
        ensures settles { SettlesChange result prepared self.old self.new }
        ensures bytes { IfOk result (λ answer. AreBytesOf answer.reply close answer.bytes) }
        ensures marks { OnOk result (MarksRowsIfAny prepared.change self.old self.new) }
        ensures err { OnErr result (IsIdle (world_of self.old) self.new) }
        ensures err_marks { OnErr result (MarksRowsAtMost prepared.change self.old self.new) }
        ensures right { IsRightTenant self.new }
        ensures idle { self.new.job ≡ None }
    {
        let Prepared { reply, change } = prepared;
        let answer = answer_with_bytes(alloc, reply, close)?;
        let Some(change) = change else {
            return Ok(answer);
        };
        match self.carry_out(alloc, change) {
            Ok(()) => Ok(answer),
            Err(PutFault::Full) => Ok(answer_with_bytes(alloc, full(alloc)?, close)?),
            Err(PutFault::Store(refusal)) => Err(FilesFault::Store(refusal)),
            Err(PutFault::Memory(refused)) => Err(FilesFault::Memory(refused)),
        }
    }

    /// Carries out a change of the tenant's world. The keeper is told first what is about to change, so that it is
    /// right before the change and after it. The error is `Full` if the tenant would have more than it may, and another
    /// one if a store fails or memory runs out. If it fails, the world has not changed. If the error is none or `Full`,
    /// exactly those rows of the index are stale now that asked for the file's name, or all if the settings change.
    fn carry_out(&mut self, alloc: Global, change: Change) -> Result<(), PutFault>
        requires right { IsRightTenant self.old }
        requires idle { IsIdle (world_of self.old) self.old }
        ensures fits { OnOk result (overfills (world_of self.old) change ≡ false) }
        ensures changes { OnOk result (world_of self.new ≡ changed (world_of self.old) change) }
        ensures full { TellsFull result change self.old }
        ensures err { OnErr result (world_of self.new ≡ world_of self.old) }
        ensures marks { OnOk result (MarksRows change self.old self.new) }
        ensures full_marks { MarksIfFull result change self.old self.new }
        ensures err_marks { OnErr result (MarksRowsAtMost (Some change) self.old self.new) }
        ensures right { IsRightTenant self.new }
        ensures idle { self.new.job ≡ None }
    {
        match change {
            Change::PutFile(name, content) => {
                let is_there = self.store.has_file(&name);
                self.keeper.note_change(alloc, &name, is_there)?; // first, since the write may fail
                self.store.put_file(&name, content.as_slice())
            }
            Change::RemoveFile(name) => {
                let is_there = self.store.has_file(&name);
                self.keeper.note_change(alloc, &name, is_there)?;
                let _was_there = self.store.remove_file(&name)?;
                Ok(())
            }
            Change::SetPath(path) => {
                self.keeper.note_path(alloc)?;
                self.store.set_path(alloc, &path)?;
                self.settings.path = path;
                Ok(())
            }
            Change::SetProfile(profile) => {
                self.keeper.note_path(alloc)?; // every row is stale under other settings
                self.store.set_profile(profile)?;
                self.settings.profile = profile;
                Ok(())
            }
        }
    }
}

/// What a tenant's turn came to that gave this answer and spent nothing.
fn free(answer: Answer) -> Worked
    ensures { result ≡ record { reply = Some answer; spent = no_spending } }
{
    Worked {
        reply: Some(answer),
        spent: Spent::nothing(),
    }
}

/// The answer of a tenant's turn: a reply with its bytes. It fails only if memory runs out.
fn answer_with_bytes(alloc: Global, reply: Reply, close: bool) -> Result<Answer, AllocError>
    ensures reply { IfOk result (λ answer. answer.reply ≡ reply) }
    ensures bytes { IfOk result (λ answer. AreBytesOf answer.reply close answer.bytes) }
{
    let bytes = Some(write_reply(alloc, &reply, close)?);
    Ok(Answer { reply, bytes })
}
