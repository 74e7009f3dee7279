//! Cases of asks: evaluations that are asked for, with a cache of evaluations.
ghost use Rattle.read_trace.specs.Recorder.{view_of};
ghost use Rattle.eval_ask.specs.Ask.{IsAskUnderWay};

use case_lines::{Answer, Trouble, as_number, as_text};
use eval_ask::{Ask, AskTurned, Asked};
use eval_cache::EvalCache;
use make_cases::{World, given_name};
use mk_base::UNITS;
use mk_files::{Content, Files};
use read_trace::{Recorder, Trace};
use std::alloc::{AllocError, Global};

/// The call `asked PARSES EVALS STEP..` of a case of asks: what the steps tell, with a cache of these sizes
/// that holds nothing at first. Then how often a parse and an evaluation were used again, and how many parses
/// and keys are kept.
///
/// The step `NAME` or `NAME FLAVORS` asks for the evaluation of that makefile. It tells the fault if there is
/// one, the units that were spent, and the answers that were checked. The step `+NAME CONTENT` stores a file,
/// and `-NAME` removes it.
pub fn asked_answer(
    alloc: Global,
    world: &mut World,
    given: &[Vec<u8>],
) -> Result<Answer, Trouble> {
    let [parses, evals, steps @ ..] = given else {
        return Err(Trouble::NoCase);
    };
    let cache = EvalCache::new(alloc, size(parses)?, size(evals)?)?;
    Asking {
        cache,
        units: None,
        answer: Answer::new(alloc),
    }
    .after(alloc, world, steps)
}

/// The call `asked by UNITS PARSES EVALS STEP..` of a case of asks: what the steps of `asked` tell if each
/// evaluation goes on by turns of so many units. Each step tells how many turns there were.
pub fn asked_by_turns(
    alloc: Global,
    world: &mut World,
    given: &[Vec<u8>],
) -> Result<Answer, Trouble> {
    let [units, parses, evals, steps @ ..] = given else {
        return Err(Trouble::NoCase);
    };
    let cache = EvalCache::new(alloc, size(parses)?, size(evals)?)?;
    Asking {
        cache,
        units: Some(as_number(units)?),
        answer: Answer::new(alloc),
    }
    .after(alloc, world, steps)
}

/// A case of asks: a cache, the units that each turn of an evaluation is given if it isn't done in one, and
/// what was told.
#[derive(Drop)]
struct Asking {
    cache: EvalCache,
    units: Option<u64>,
    answer: Answer,
}

/// The number of parses or evaluations that the cache of a case of asks keeps.
fn size(given: &[u8]) -> Result<usize, Trouble> {
    usize::try_from(as_number(given)?).map_err(|_| Trouble::NoCase)
}

impl Asking {
    /// What a case of asks tells after these steps, with the counts of its cache.
    fn after(
        mut self,
        alloc: Global,
        world: &mut World,
        steps: &[Vec<u8>],
    ) -> Result<Answer, Trouble> {
        for step in steps {
            self.take_step(alloc, world, as_text(step)?)?;
        }
        let Asking {
            cache,
            mut answer,
            ..
        } = self;
        let counts = cache.counts();
        answer.number(counts.parses);
        answer.number(counts.evals);
        answer.number(cache.parses_kept() as u64);
        answer.number(cache.keys_kept() as u64);
        Ok(answer)
    }

    /// Takes a step of a case of asks: stores a file, removes a file, or asks for an evaluation.
    fn take_step(&mut self, alloc: Global, world: &mut World, step: &str) -> Result<(), Trouble> {
        if let Some(file) = step.strip_prefix('+') {
            return store(alloc, world, file);
        }
        if let Some(name) = step.strip_prefix('-') {
            let _was_there = world.files.remove(&given_name(alloc, name.as_bytes())?);
            return Ok(());
        }
        match step.split_once(' ') {
            Some((name, flavors)) => {
                let flavors = words(alloc, flavors)?;
                self.ask_for(alloc, world, name, Some(flavors.as_slice()))
            }
            None => self.ask_for(alloc, world, step, None),
        }
    }

    /// Asks for the evaluation of a makefile in a step of a case of asks, and tells its end.
    fn ask_for(
        &mut self,
        alloc: Global,
        world: &mut World,
        name: &str,
        flavors: Option<&[String]>,
    ) -> Result<(), Trouble> {
        let name = given_name(alloc, name.as_bytes())?;
        let World {
            files,
            settings,
            ..
        } = world;
        let mut recorder = Recorder::new(alloc, files, Trace::new(alloc));
        let cache = &mut self.cache;
        let units = self.units.unwrap_or(u64::MAX);
        let turned = Ask::begin(alloc, cache, &mut recorder, settings, &name, flavors)?;
        let (asked, turns) = by_turns(alloc, cache, &mut recorder, turned, units)?;
        tell(&asked, &mut self.answer);
        if self.units.is_some() {
            self.answer.number(turns);
        }
        Ok(())
    }
}

/// The end of an evaluation that a case asks for, by turns of so many units, and how many there are. Each
/// turn spends a unit, and the last one ends it. It fails if the files fail, or if memory runs out, and it is
/// `NoCase` if the turns have no end.
pub fn by_turns<F: Files + Drop>(
    alloc: Global,
    cache: &mut EvalCache,
    files: &mut Recorder<F>,
    turned: AskTurned,
    units: u64,
) -> Result<(Asked, u64), Trouble>
    requires { IsAskUnderWay (view_of F.view files.old).files turned }
{
    let mut turned = turned;
    for turns in 0..UNITS + 2 {
        match turned {
            AskTurned::Done(asked) => return Ok((asked, turns)),
            AskTurned::More(ask) => turned = ask.turn(alloc, cache, files, units)?,
        }
    }
    Err(Trouble::NoCase)
}

/// Stores the file that a step of a case of asks gives by its name and content.
fn store(alloc: Global, world: &mut World, file: &str) -> Result<(), Trouble> {
    let Some((name, content)) = file.split_once(' ') else {
        return Err(Trouble::NoCase);
    };
    let mut bytes = Vec::new(alloc);
    bytes.extend_from_slice(content.as_bytes())?;
    let content = Content::new(alloc, bytes)?;
    world
        .files
        .put(given_name(alloc, name.as_bytes())?, content)?;
    Ok(())
}

/// The flavors that a step of a case of asks gives, cut at blanks.
fn words(alloc: Global, text: &str) -> Result<Vec<String>, AllocError> {
    let mut words = Vec::new(alloc);
    for word in text.split(' ') {
        words.push(String::from_str(alloc, word)?)?;
    }
    Ok(words)
}

/// Tells in a case of asks how an evaluation ended: its fault if it has one, the units spent and the answers
/// checked.
fn tell(asked: &Asked, answer: &mut Answer) {
    if let Err(failed) = &asked.evaluation.outcome {
        answer.number(failed.fault.kind().number() as u64);
        answer.text(failed.fault.name().as_bytes());
        answer.number(failed.fault.line());
    }
    answer.number(asked.units);
    answer.number(asked.checks);
}
