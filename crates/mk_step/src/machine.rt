//! A machine that evaluates a makefile turn by turn, and may stop between any two lines.
ghost use Rattle.std.specs.Prelude.{◌≡◌};
ghost use Rattle.mk_base.specs.Meter.{IsLater};
ghost use Rattle.mk_step.specs.Turn.{MeansIfDone, StartsAmong, TellsEach, LeavesEach, Spends};
ghost use Rattle.mk_step.specs.Turn.{IsNew, IsWithinEach, stopped};
ghost use Rattle.mk_step.specs.Steps.{RunsFor, BeginsAmong, outcome_of};

use crate::frames::{Frame, next_frame};
use crate::machine_steps::lines_in;
use mk_base::{Budget, Fault, FaultKind, Stop, UNITS};
use mk_eval::{EvalState, Evaluated, Failed, Included, Kind, Parses, start};
use mk_files::{Files, look_read};
use mk_paths::{FilesFault, Name, Settings};
use std::alloc::Global;

/// How many levels deep files may include one another.
const INCLUDES: u32 = 16;

/// An evaluation between two of its lines.
#[derive(Drop)]
pub struct Machine {
    /// The makefile that is evaluated.
    pub(crate) makefile: Name,
    /// What its lines have made so far.
    pub(crate) state: EvalState,
    /// What may be spent and was spent.
    pub(crate) budget: Budget,
    /// What is still to be done, of which the innermost is the last.
    pub(crate) frames: Vec<Frame>,
}

/// What a turn leaves.
#[derive(Drop)]
pub enum Turned {
    /// The evaluation isn't at its end.
    More(Machine),
    /// The evaluation is at its end, or at its first fault.
    Done(Result<Evaluated, Failed>),
}

impl Machine {
    /// Starts a machine that evaluates the makefile of this name with these flavors, or with none given. The
    /// makefile is looked at, which isn't counted among the questions, and none of its lines is done. If it
    /// isn't there or can't be read, the evaluation is done, with that fault.
    ///
    /// # Errors
    ///
    /// If the files fail, their fault is returned as it is, as `Store` or `Memory`. It is also `Memory`
    /// if memory runs out.
    pub fn start<F: Files, P: Parses>(
        alloc: Global,
        settings: &Settings,
        name: &Name,
        flavors: Option<&[String]>,
        parses: &mut P,
        files: &mut F,
    ) -> Result<Turned, FilesFault>
        ensures means { MeansIfDone result (F.view files.old) settings.now name.now flavors.entry }
        ensures leaves { StartsAmong F.fails_with (F.view files.old) (F.view files.new)
            settings.now (name.now, flavors.entry) result }
        ensures free { IsNew result }
        ensures parses { P.becomes parses.old parses.new }
    {
        match begin(alloc, settings, name, flavors, parses, files) {
            Ok(machine) => Ok(Turned::More(machine)),
            Err(stop) => ended(stop, 0),
        }
    }

    /// The machine goes on with its evaluation until it has spent this many units or more, or is at the end.
    /// So it spends at most these units and those of the last thing that it does. With a fault the machine is
    /// gone.
    ///
    /// # Errors
    ///
    /// If the files fail, their fault is returned as it is, as `Store` or `Memory`. It is also `Memory`
    /// if memory runs out.
    pub fn turn<F: Files, P: Parses>(
        mut self,
        alloc: Global,
        parses: &mut P,
        files: &mut F,
        units: u64,
    ) -> Result<Turned, FilesFault>
        ensures means { TellsEach (F.view files.old) self result }
        ensures leaves { LeavesEach F.fails_with (F.view files.old) (F.view files.new) self result }
        ensures spends { Spends (F.view files.old).files units self result }
        ensures parses { P.becomes parses.old parses.new }
    {
        let ran = self.run(alloc, parses, files, units);
        let spent = self.budget.spent();
        match ran {
            Ok(false) => Ok(Turned::More(self)),
            Ok(true) => Ok(Turned::Done(Ok(self.finish()))),
            Err(stop) => ended(stop, spent),
        }
    }

    /// The machine does one thing of its evaluation after another until it has spent this many units or more.
    /// The answer is whether nothing is to be done any more.
    fn run<F: Files, P: Parses>(
        &mut self,
        alloc: Global,
        parses: &mut P,
        files: &mut F,
        units: u64,
    ) -> Result<bool, Stop<Fault>>
        ensures runs { RunsFor F.fails_with F.view (self.old, files.old) (self.new, files.new)
            units result }
        ensures later { IsLater self.old.budget self.new.budget }
        ensures parses { P.becomes parses.old parses.new }
    {
        let before = self.budget.spent();
        while self.budget.spent() - before < units {
            let Some(frame) = next_frame(&mut self.frames) else {
                return Ok(true);
            };
            self.step(alloc, frame, parses, files)?;
        }
        Ok(false)
    }

    /// What the evaluation of a machine gives at its end: its variables, what the makefile describes, and the
    /// cost.
    fn finish(self) -> Evaluated
        ensures { result ≡ outcome_of self }
    {
        let Machine { state, budget, .. } = self;
        let EvalState {
            variables,
            kind,
            ..
        } = state;
        Evaluated {
            kind,
            env: variables,
            cost: budget.spent(),
        }
    }

    /// The units that a machine has spent so far on its evaluation. They aren't more than the whole
    /// evaluation costs.
    pub fn spent(&self) -> u64
        ensures units { result ≡ self.now.budget.spent }
        ensures within { IsWithinEach self.now result }
    {
        self.budget.spent()
    }
}

/// The machine before the first line of the makefile of this name.
fn begin<F: Files, P: Parses>(
    alloc: Global,
    settings: &Settings,
    name: &Name,
    flavors: Option<&[String]>,
    parses: &mut P,
    files: &mut F,
) -> Result<Machine, Stop<Fault>>
    ensures begins { BeginsAmong F.fails_with (F.view files.old) (F.view files.new)
        settings.now (name.now, flavors.entry) result }
    ensures parses { P.becomes parses.old parses.new }
{
    let Some(content) = look_read(files, name)? else {
        return Err(Stop::Fault(FaultKind::Include).blame(alloc, name.as_str(), 0));
    };
    let state = EvalState {
        variables: start(alloc, settings, name, flavors)?,
        kind: Kind::Other,
        shared_asked: false,
        path: settings.path.copy(alloc)?,
    };
    let file = Included {
        name: name.copy(alloc)?,
        content,
    };
    let lines = lines_in(alloc, file, INCLUDES, parses)?;
    let mut frames = Vec::new(alloc);
    frames.push(lines)?;
    Ok(Machine {
        makefile: name.copy(alloc)?,
        state,
        budget: Budget::new(UNITS),
        frames,
    })
}

/// The end of a machine's evaluation that stopped, after this many units: a fault, or the failure of files or
/// memory.
fn ended(stop: Stop<Fault>, cost: u64) -> Result<Turned, FilesFault>
    ensures { result ≡ stopped stop cost }
{
    match stop {
        Stop::Fault(fault) => Ok(Turned::Done(Err(Failed { fault, cost }))),
        Stop::Store(refusal) => Err(FilesFault::Store(refusal)),
        Stop::Memory(refused) => Err(FilesFault::Memory(refused)),
    }
}
