//! One evaluation that is asked for, from the cache's look to its end, turn by turn.
ghost use Rattle.std.specs.Prelude.{◌≡◌, ◌≤◌, IfOk, IfErr, OnErr};
ghost use Rattle.mk_eval.specs.Agreement.{cost_of};
ghost use Rattle.mk_eval.specs.Views.{flavors_in};
ghost use Rattle.mk_paths.specs.World.{FileMap};
ghost use Rattle.eval_cache.specs.Keys.{Key, key_for, key_of};
ghost use Rattle.eval_cache.specs.CacheUse.{UsesCache};
ghost use Rattle.eval_cache.specs.Right.{IsRight, evaluation_of};
ghost use Rattle.read_trace.specs.Recorder.{view_of, MayFail};
ghost use Rattle.eval_ask.specs.Ask.{AsksFirst, AsksOn, IsAskUnderWay, HasComeTo, IsAskIn, TurnsAsk};
ghost use Rattle.eval_ask.specs.Ask.{ComesTo, EndsRight, key_in, spent_in, spent_less_saved};
ghost use Rattle.eval_ask.specs.Ask.{spent_so_far, LeavesRecorded};

use eval_cache::{EvalCache, EvalKey, Look};
use mk_files::Files;
use mk_paths::{FilesFault, Name, Settings};
use mk_step::{Machine, Turned};
use read_trace::{Evaluation, Recorder, Trace, agrees_where_answered, same_where_agreed};
use std::alloc::{AllocError, Global};
use std::rc::Rc;
use turn_amounts::Spent;

/// An evaluation that was asked for, and the work that this took.
#[derive(Drop)]
pub struct Asked {
    /// What the makefile means, or its first fault, with what its evaluation asks.
    pub evaluation: Rc<Evaluation>,
    /// The units that were spent on lines in all turns: none if the evaluation was kept, and what it cost if it
    /// is new.
    pub units: u64,
    /// The answers that were checked, of evaluations that were kept.
    pub checks: u64,
}

impl Asked {
    /// What was spent on an evaluation that was asked for and on what is made of it, if both cost so many
    /// units together. It is all of these units, less those that were saved since the evaluation was kept.
    pub fn spent_on(&self, cost: u64) -> Spent
        ensures { result ≡ spent_less_saved self.now cost }
    {
        let saved = self.evaluation.cost().saturating_sub(self.units);
        Spent {
            units: cost.saturating_sub(saved),
            checks: self.checks,
        }
    }
}

/// An evaluation that is asked for, and isn't at its end.
#[derive(Drop)]
pub struct Ask {
    looked: Looked,
    /// What was asked for it so far.
    trace: Trace,
    machine: Machine,
}

/// A look at what is kept under a key, which found nothing.
#[derive(Drop)]
struct Looked {
    key: EvalKey,
    /// The answers that were checked.
    checks: u64,
}

/// What an evaluation that is asked for has come to.
#[derive(Drop)]
pub enum AskTurned {
    /// It isn't at its end.
    More(Ask),
    /// It is at its end, or one that is kept is used.
    Done(Asked),
}

impl Ask {
    /// Begins to ask for the evaluation of the makefile of this name in the world of these files and settings,
    /// with these flavors or with none given. It is one that the cache keeps, if the files answer as its trace
    /// says. Otherwise it is a new one, of which no line is done yet.
    ///
    /// What was asked for it is its trace. What the recorder wrote down before is dropped, or mixed with the
    /// questions that were checked.
    ///
    /// # Errors
    ///
    /// It is the fault of the files if they fail, and `Memory` if memory runs out. Then no evaluation counts as
    /// used again.
    pub fn begin<F: Files + Drop>(
        alloc: Global,
        cache: &mut EvalCache,
        files: &mut Recorder<F>,
        settings: &Settings,
        name: &Name,
        flavors: Option<&[String]>,
    ) -> Result<AskTurned, FilesFault>
        ensures asks { IfOk result (AsksFirst (view_of F.view files.old).files cache.old cache.new
            (key_for settings.now name.now (flavors_in flavors.entry))) }
        ensures err { OnErr result (cache.new.counts.evals ≡ cache.old.counts.evals) }
        ensures kind { IfErr result (MayFail F.fails_with) }
        ensures leaves { LeavesRecorded F.view result files.old files.new }
        ensures uses { UsesCache cache.old cache.new }
    {
        same_where_agreed();
        agrees_where_answered();
        let key = EvalKey::new(alloc, settings, name, flavors)?;
        let (found, checks) = cache.look(&key, files)?;
        match found {
            Look::Hit(evaluation, _cost) => Ok(AskTurned::Done(Asked {
                evaluation,
                units: 0,
                checks,
            })),
            Look::Miss => {
                let _before = files.take_trace();
                let turned = Machine::start(alloc, settings, name, flavors, cache, files)?;
                let looked = Looked { key, checks };
                Ok(looked.come_to(alloc, cache, files.take_trace(), turned)?)
            }
        }
    }

    /// Goes on with the evaluation that is asked for until so many units more are spent, or it is at its end.
    /// Before the last thing that is done, fewer are spent.
    ///
    /// # Errors
    ///
    /// It is the fault of the files if they fail, and `Memory` if memory runs out.
    pub fn turn<F: Files + Drop>(
        self,
        alloc: Global,
        cache: &mut EvalCache,
        files: &mut Recorder<F>,
        units: u64,
    ) -> Result<AskTurned, FilesFault>
        requires { IsAskIn (view_of F.view files.old).files self }
        ensures turns { IfOk result (TurnsAsk (view_of F.view files.old).files units self) }
        ensures counted { cache.new.counts.evals ≡ cache.old.counts.evals }
        ensures kind { IfErr result (MayFail F.fails_with) }
        ensures leaves { LeavesRecorded F.view result files.old files.new }
        ensures uses { UsesCache cache.old cache.new }
    {
        same_where_agreed();
        let Ask {
            looked,
            trace,
            machine,
        } = self;
        files.go_on(trace);
        let turned = machine.turn(alloc, cache, files, units)?;
        Ok(looked.come_to(alloc, cache, files.take_trace(), turned)?)
    }

    /// What was spent so far on the evaluation that is asked for: units on lines, and answers checked before
    /// it began. The units aren't more than the whole evaluation costs.
    pub fn spent(&self) -> Spent
        ensures is { result ≡ spent_so_far self.now }
        ensures within { (files : FileMap) → IsAskIn files self.now
            → result.units ≤ cost_of (evaluation_of files (key_in self.now)).outcome }
    {
        Spent {
            units: self.machine.spent(),
            checks: self.looked.checks,
        }
    }
}

impl AskTurned {
    /// Goes on with an evaluation that is asked for until so many units more are spent, or it is at its end.
    /// Before the last thing that is done, fewer are spent. If it is at its end already, or no units are
    /// given, nothing is done. So a new evaluation has told all that it costs at its end, and one that was
    /// kept tells none of that.
    ///
    /// # Errors
    ///
    /// It is the fault of the files if they fail, and `Memory` if memory runs out.
    pub fn turn<F: Files + Drop>(
        self,
        alloc: Global,
        cache: &mut EvalCache,
        files: &mut Recorder<F>,
        units: u64,
    ) -> Result<AskTurned, FilesFault>
        requires { IsAskUnderWay (view_of F.view files.old).files self }
        ensures turns { IfOk result (AsksOn (view_of F.view files.old).files units self) }
        ensures counted { cache.new.counts.evals ≡ cache.old.counts.evals }
        ensures kind { IfErr result (MayFail F.fails_with) }
        ensures leaves { LeavesRecorded F.view result files.old files.new }
        ensures uses { UsesCache cache.old cache.new }
    {
        match self {
            AskTurned::More(ask) if units > 0 => Ok(ask.turn(alloc, cache, files, units)?),
            came => Ok(came),
        }
    }

    /// What was spent so far on the evaluation that was asked for: units on lines, and answers checked before
    /// it began. The units aren't more than the whole evaluation costs.
    pub fn spent(&self) -> Spent
        ensures is { result ≡ spent_in self.now }
        ensures within { (files : FileMap) (key : Key) → HasComeTo files key self.now
            → result.units ≤ cost_of (evaluation_of files key).outcome }
    {
        match self {
            AskTurned::More(ask) => ask.spent(),
            AskTurned::Done(asked) => Spent {
                units: asked.units,
                checks: asked.checks,
            },
        }
    }
}

impl Looked {
    /// What the evaluation that is asked for has come to, after all that it has asked so far. If it is at its
    /// end, it is kept in the cache.
    fn come_to(
        self,
        alloc: Global,
        cache: &mut EvalCache,
        trace: Trace,
        turned: Turned,
    ) -> Result<AskTurned, AllocError>
        requires { EndsRight (key_of self.key) trace turned }
        ensures comes { IfOk result (ComesTo self trace turned) }
        ensures counts { cache.new.counts ≡ cache.old.counts }
        ensures uses { UsesCache cache.old cache.new }
    {
        let Looked { key, checks } = self;
        match turned {
            Turned::More(machine) => Ok(AskTurned::More(Ask {
                looked: Looked { key, checks },
                trace,
                machine,
            })),
            Turned::Done(outcome) => {
                let evaluation = Rc::new(alloc, Evaluation { outcome, trace })?;
                let units = evaluation.cost();
                keep(cache, key, &evaluation);
                Ok(AskTurned::Done(Asked {
                    evaluation,
                    units,
                    checks,
                }))
            }
        }
    }
}

/// Keeps an evaluation that was asked for in the cache, if it can be shared once more.
fn keep(cache: &mut EvalCache, key: EvalKey, evaluation: &Rc<Evaluation>)
    requires { IsRight (key_of key) evaluation.now.value }
    ensures counts { cache.new.counts ≡ cache.old.counts }
    ensures uses { UsesCache cache.old cache.new }
{
    if let Ok(shared) = evaluation.clone() {
        cache.keep(key, shared);
    }
}
