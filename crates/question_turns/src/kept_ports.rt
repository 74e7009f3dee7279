//! The ports of a world, whose index is kept, and the turns for a question over them.
ghost use Rattle.std.specs.Prelude.{◌≡◌};
ghost use Rattle.mk_paths.specs.FilesView.{view_world};
ghost use Rattle.read_trace.specs.Recorder.{view_of};
ghost use Rattle.index_keep.specs.Keeper.{IsKept, IsKeptOver};
ghost use Rattle.index_keep.specs.Right.{asked_world};
ghost use Rattle.index_keep.proofs.Props.{IsKept-prop};

use crate::port_ask::PortAsk;
use crate::under_way::{Stage, Turned, UnderWay};
use eval_cache::{EvalCache, Purpose};
use index_keep::{Keeper, Refreshed, refreshing_pays};
use index_store::PathRows;
use mk_files::Listing;
use mk_paths::{FilesFault, Settings};
use plain_service::{IndexQuestion, PortQuestion, no_port};
use port_index::makefiles_are_evaluated;
use ports_http::Reply;
use read_trace::Recorder;
use std::alloc::Global;
use turn_amounts::{Spent, TURN_UNITS, left_of};

/// The most bytes that the rows of an index may have whose dependencies are kept in memory. These take several times as
/// much.
const MOST_BYTES: u64 = 4_194_304;

/// The ports of the world of these files and settings. The index comes from rows that are kept, and is
/// refreshed first. Each evaluation is asked of the cache.
#[derive(Drop)]
pub(crate) struct KeptPorts<'a, F: Listing + Drop, R: PathRows + Drop> {
    pub(crate) cache: &'a mut EvalCache,
    pub(crate) files: &'a mut Recorder<F>,
    pub(crate) settings: &'a Settings,
    pub(crate) keeper: &'a mut Keeper<R>,
    // the keeper is right about the world
    ghost is_kept: { IsKept R.entries
        (view_world (view_of F.view files.now) settings.now) keeper.now } by { IsKept-prop R.entries
            (view_world (view_of F.view files.now) settings.now) keeper.now },
}

impl<'a, F: Listing + Drop, R: PathRows + Drop> KeptPorts<'a, F, R> {
    ghost use Rattle.question_turns.specs.Ports.{world_of_ports, IsOver};

    /// The ports of the world of these files and settings, about whose index this keeper is right.
    pub(crate) fn new(
        cache: &'a mut EvalCache,
        files: &'a mut Recorder<F>,
        settings: &'a Settings,
        keeper: &'a mut Keeper<R>,
    ) -> KeptPorts<'a, F, R>
        requires { IsKeptOver F.view R.entries files.old settings.now keeper.old }
        ensures world { world_of_ports F.view result ≡ asked_world F.view files.old settings.now }
        ensures over { IsOver result keeper.entry cache.entry }
    {
        KeptPorts {
            cache,
            files,
            settings,
            keeper,
        }
    }
}

impl<F: Listing + Drop, R: PathRows + Drop> KeptPorts<'_, F, R> {
    ghost use Rattle.std.specs.Prelude.{◌≤◌, IfOk, Ok, None};
    ghost use Rattle.index_keep.specs.Keeper.{IsDone};
    ghost use Rattle.turn_amounts.specs.Spent.{no_spending, total_of, IsUpFrom};
    ghost use Rattle.plain_service.specs.Answers.{index_reply};
    ghost use Rattle.plain_service.specs.Outcomes.{IfMade};
    ghost use Rattle.plain_service.specs.AnswerCosts.{path_asked};
    ghost use Rattle.eval_ask.specs.Ask.{spent_in, HasLooked};
    ghost use Rattle.question_turns.specs.PortAsk.{IsPortAsk};
    ghost use Rattle.question_turns.specs.Ports.{world_of_ports, LeavesPorts};
    ghost use Rattle.question_turns.specs.PortTurns.{IsPendingIn, IsSpentIn, KeepsRefresh, LeavesFewerTurns};
    ghost use Rattle.question_turns.specs.PortTurns.{RefreshesPorts, TellsPart, TellsTurn, TurnsIndex, TurnsPort, TurnsPorts, TurnsRefresh};
    ghost use Rattle.question_turns.specs.TurnsLeft.{TellsNoRecord, TellsNoRecordYet};

    /// Takes a turn for the question that is under way over these ports.
    pub(crate) fn turn(&mut self, alloc: Global, under_way: UnderWay) -> Result<Turned, FilesFault>
        requires { IsPendingIn F.view R.entries self.old under_way }
        ensures turn { TurnsPorts F.view R.entries result self.old self.new under_way }
        ensures leaves { LeavesPorts F.view R.entries self.old self.new }
    {
        let UnderWay { stage, spent } = under_way;
        match stage {
            Stage::Begun(question) => self.begin(alloc, question),
            Stage::Evaluating(question, ask) => self.evaluate_on(alloc, question, ask, spent),
            Stage::Ready(_question, reply) => Ok(Turned::Done(reply, spent)),
            Stage::Refreshing(question) => self.refresh_on(alloc, question, spent),
        }
    }

    /// Takes the first turn for a question about a port.
    fn begin(&mut self, alloc: Global, question: PortQuestion) -> Result<Turned, FilesFault>
        ensures turn { TurnsPort F.view result self.old question no_spending 0 }
        ensures later { IfOk result (TellsNoRecordYet (world_of_ports F.view self.old) question) }
        ensures leaves { LeavesPorts F.view R.entries self.old self.new }
    {
        let path = question.path();
        match PortAsk::begin(alloc, self.cache, self.files, self.settings, path)? {
            Some(ask) => self.evaluate_on(alloc, question, ask, Spent::nothing()),
            None => Ok(Turned::Done(no_port(alloc)?, Spent::nothing())),
        }
    }

    /// Goes on, in a turn for a question about a port, with the evaluation of the port's makefile, on which
    /// so much was spent before this turn.
    fn evaluate_on(
        &mut self,
        alloc: Global,
        question: PortQuestion,
        ask: PortAsk,
        before: Spent,
    ) -> Result<Turned, FilesFault>
        requires ask { IsPortAsk (world_of_ports F.view self.old) (path_asked question) ask }
        requires up { IsUpFrom before (spent_in ask.came) }
        requires looked { HasLooked before ask.came }
        ensures turn { TurnsPort F.view result self.old question before (total_of before) }
        ensures later { IfOk result (TellsNoRecord question) }
        ensures leaves { LeavesPorts F.view R.entries self.old self.new }
    {
        let units = left_of(TURN_UNITS, before, ask.spent());
        let ask = ask.turn(alloc, self.cache, self.files, units)?;
        Ok(ask.end_turn(alloc, question, before)?)
    }

    /// Goes on, in a turn for a question about the index, with the refresh of the index. Once it is done, the
    /// question is answered. So much was spent before this turn.
    fn refresh_on(
        &mut self,
        alloc: Global,
        question: IndexQuestion,
        before: Spent,
    ) -> Result<Turned, FilesFault>
        requires { IsSpentIn F.view R.entries self.old before }
        ensures turn { TurnsIndex F.view R.entries result self.old self.new question before }
        ensures told { TellsTurn F.view R.entries result self.old self.new before }
        ensures leaves { LeavesPorts F.view R.entries self.old self.new }
    {
        makefiles_are_evaluated();
        match self.refresh(alloc)? {
            Some(spent) => Ok(Turned::More(UnderWay {
                stage: Stage::Refreshing(question),
                spent: before.and(spent),
            })),
            None => {
                let reply = self.reply(alloc, &question)?;
                Ok(Turned::Done(reply, before))
            }
        }
    }

    /// The reply to a question about the index, which is at hand. Dependencies that may be kept for the next
    /// question are.
    fn reply(&mut self, alloc: Global, question: &IndexQuestion) -> Result<Reply, FilesFault>
        requires { IsDone self.old.keeper.now }
        ensures reply { IfMade result (index_reply (world_of_ports F.view self.old) question.now) }
        ensures refresh { KeepsRefresh R.entries self.old self.new }
        ensures leaves { LeavesPorts F.view R.entries self.old self.new }
    {
        if self.may_keep_edges(question) {
            self.keeper.keep_edges(alloc)?;
        }
        Ok(question.reply(alloc, self.keeper.index())?)
    }

    /// Whether the dependencies of all ports may be kept with the index: a question is about them, and the
    /// rows of the index aren't too large.
    fn may_keep_edges(&self, question: &IndexQuestion) -> bool {
        match self.keeper.size_at_hand() {
            Some(size) => question.follows_edges() && size <= MOST_BYTES,
            None => false,
        }
    }

    /// Goes on, in a turn for a question, with the refresh of the index, up to the next path on which
    /// something is spent, since a path without a makefile doesn't end a turn. It is `None` once the refresh
    /// is done.
    fn refresh(&mut self, alloc: Global) -> Result<Option<Spent>, FilesFault>
        ensures refreshes { RefreshesPorts F.view R.entries result self.old self.new }
        ensures fewer { LeavesFewerTurns F.view R.entries result self.old self.new }
        ensures told { TellsPart F.view R.entries result self.old self.new }
        ensures done { result ≡ Ok None → IsDone self.new.keeper.now }
        ensures leaves { LeavesPorts F.view R.entries self.old self.new }
    {
        refreshing_pays();
        loop {
            let spent = match self.refresh_once(alloc)? {
                Refreshed::Done => return Ok(None),
                Refreshed::More(spent) => return Ok(Some(spent)),
                Refreshed::Evaluated(spent) => spent,
            };
            if !spent.is_nothing() {
                return Ok(Some(spent));
            }
        }
    }

    /// Takes a turn of the keeper's refresh of the index, which is a walk through all its paths.
    fn refresh_once(&mut self, alloc: Global) -> Result<Refreshed, FilesFault>
        ensures turn { TurnsRefresh F.view R.entries result self.old self.new }
        ensures leaves { LeavesPorts F.view R.entries self.old self.new }
    {
        self.cache.serve(Purpose::Walking);
        self.keeper
            .refresh_turn(alloc, self.cache, self.files, self.settings, TURN_UNITS)
    }
}
