//! The evaluation of a port's makefile for a question about the port, which may take several turns.
ghost use Rattle.std.specs.Prelude.{◌≡◌, IfOk};
ghost use Rattle.plain_service.specs.AnswerCosts.{path_asked};
ghost use Rattle.turn_amounts.specs.Spent.{IsUpFrom};
ghost use Rattle.question_turns.specs.PortTurns.{EndsTurn};
ghost use Rattle.question_turns.specs.TurnsLeft.{TellsNoRecord};
ghost use Rattle.question_turns.specs.UnderWay.{is_of_record};
ghost use Rattle.read_trace.specs.Recorder.{view_of};
ghost use Rattle.eval_cache.specs.CacheUse.{UsesCache};
ghost use Rattle.eval_ask.specs.Ask.{spent_in, IsAskUnderWay, IsShort, LeavesRecorded, SpendsTurn};
ghost use Rattle.question_turns.specs.PortAsk.{BeginsEvaluation, HasBegunPortAsk, KeepsPortAsk, LooksFirst};
ghost use Rattle.question_turns.specs.PortAsk.{SpendsWithinCost, TurnsPortAsk};

use crate::under_way::{Stage, Turned, UnderWay};
use eval_ask::{Ask, AskTurned, asking_spends};
use eval_cache::{EvalCache, Purpose};
use mk_eval::evaluations_cost_few;
use mk_files::Files;
use mk_paths::{FilesFault, Name, Settings, find};
use pkg_path::PkgPath;
use plain_service::PortQuestion;
use port_rules::records_cost_few;
use read_trace::Recorder;
use std::alloc::{AllocError, Global};
use turn_amounts::{Spent, TURN_UNITS, left_of};

/// The makefile of a port about which a question is asked. Its evaluation is under way or at its end.
#[derive(Drop)]
pub(crate) struct PortAsk {
    pub(crate) makefile: Name,
    pub(crate) came: AskTurned,
}

impl PortAsk {
    /// Finds the makefile of a port, and asks for its evaluation with the flavors of the port's path. No line of
    /// a new evaluation is done yet. It is `None` if the makefile isn't there. It fails if the files fail, or if
    /// memory runs out.
    pub(crate) fn begin<F: Files + Drop>(
        alloc: Global,
        cache: &mut EvalCache,
        files: &mut Recorder<F>,
        settings: &Settings,
        path: &PkgPath,
    ) -> Result<Option<PortAsk>, FilesFault>
        ensures begins { BeginsEvaluation result (view_of F.view files.old) settings.now path.now }
        ensures looked { LooksFirst result }
        ensures uses { UsesCache cache.old cache.new }
        ensures leaves { LeavesRecorded F.view result files.old files.new }
    {
        let Some(makefile) = find(alloc, files, &settings.path, path.directory())? else {
            return Ok(None);
        };
        cache.serve(Purpose::Asking);
        let came = Ask::begin(alloc, cache, files, settings, &makefile, path.flavors())?;
        Ok(Some(PortAsk { makefile, came }))
    }

    /// Goes on with the evaluation of a port's makefile until so many units more are spent, or it is at its
    /// end. It fails if the files fail, or if memory runs out.
    pub(crate) fn turn<F: Files + Drop>(
        self,
        alloc: Global,
        cache: &mut EvalCache,
        files: &mut Recorder<F>,
        units: u64,
    ) -> Result<PortAsk, FilesFault>
        requires { IsAskUnderWay (view_of F.view files.old).files self.came }
        ensures goes_on { KeepsPortAsk result (view_of F.view files.old).files self }
        ensures turns { TurnsPortAsk result (view_of F.view files.old).files units self }
        ensures uses { UsesCache cache.old cache.new }
        ensures leaves { LeavesRecorded F.view result files.old files.new }
    {
        let PortAsk { makefile, came } = self;
        cache.serve(Purpose::Asking);
        let came = came.turn(alloc, cache, files, units)?;
        Ok(PortAsk { makefile, came })
    }

    /// What was spent so far on the evaluation of a port's makefile. The units aren't more than the
    /// evaluation costs.
    pub(crate) fn spent(&self) -> Spent
        ensures is { result ≡ spent_in self.now.came }
        ensures within { SpendsWithinCost result self.now }
    {
        self.came.spent()
    }

    /// Ends a turn that went on with the evaluation of a port's makefile, before which so much was spent. If
    /// the turn may still act, the evaluation is at its end, and the reply is made of it. A turn ends once a
    /// record is made.
    pub(crate) fn end_turn(
        self,
        alloc: Global,
        question: PortQuestion,
        before: Spent,
    ) -> Result<Turned, AllocError>
        requires begun { HasBegunPortAsk (path_asked question) self }
        requires up { IsUpFrom before (spent_in self.came) }
        requires enough { SpendsTurn TURN_UNITS before self.came }
        requires few { IsShort TURN_UNITS before (spent_in self.came) }
        ensures turn { EndsTurn result question self before }
        ensures later { IfOk result (TellsNoRecord question) }
    {
        asking_spends();
        evaluations_cost_few();
        records_cost_few();
        let evaluated = self.spent();
        if left_of(TURN_UNITS, before, evaluated) == 0 {
            return Ok(Turned::More(UnderWay {
                stage: Stage::Evaluating(question, self),
                spent: evaluated,
            }));
        }
        let PortAsk { makefile, came } = self;
        let AskTurned::Done(asked) = came else {
            unreachable!() // its turn has spent its units
        };
        let (reply, cost) = question.reply(alloc, &asked.evaluation.outcome, &makefile)?;
        let spent = asked.spent_on(cost);
        if !takes_record(&question) && left_of(TURN_UNITS, before, spent) > 0 {
            return Ok(Turned::Done(reply, spent));
        }
        Ok(Turned::More(UnderWay {
            stage: Stage::Ready(question, reply),
            spent,
        }))
    }
}

/// Whether a question about a port takes a record from the evaluation. A turn ends once a record is made.
fn takes_record(question: &PortQuestion) -> bool
    ensures { result ≡ is_of_record question.now }
{
    matches!(question, PortQuestion::Record(_))
}
