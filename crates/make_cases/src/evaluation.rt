//! Cases of evaluation: makefiles evaluated at once and by turns, and values of their variables.
use crate::failing_files::{Asking, FailingFiles, failing_answer};
use crate::faults::fault_answer;
use crate::files::given_name;
use crate::variables::text_of_variable;
use crate::world::World;
use case_lines::{Answer, Trouble, as_number, as_text, one_text};
use mk_base::{PureStop, Stop, UNITS};
use mk_eval::{Anew, Evaluated, Failed, Kind, value};
use mk_files::Files;
use mk_paths::{FilesFault, Name, Settings};
use mk_step::{Machine, Turned, evaluate};
use read_trace::{Question, Recorder, Reply, Trace};
use std::alloc::Global;
use std::mem;

/// The file that `makefile`, `cost`, `value`, `stored` and `flavored` are about.
const MAKEFILE: &str = "/a/b";

/// How a makefile is evaluated in a case.
#[derive(Clone, Copy, Debug)]
pub enum Way {
    /// At once.
    Whole,
    /// By turns of so many units.
    Turns(u64),
}

/// The turns by which each makefile of a case is evaluated too.
const TURNS: [u64; 4] = [1, 2, 7, 1000];

/// What a call of a case of evaluation gives. If an evaluation by turns gives something else, or asks other
/// questions, that is said after it.
pub fn answer_each_way(
    alloc: Global,
    world: &mut World,
    call: &str,
    given: &[Vec<u8>],
) -> Result<Answer, Trouble> {
    let mut answer = answer_by(alloc, world, Way::Whole, call, given)?;
    let asked = mem::replace(&mut world.asked, Trace::new(alloc));
    for units in TURNS {
        let by_turns = answer_by(alloc, world, Way::Turns(units), call, given)?;
        if !answer.is_same(&by_turns)? || !asks_same(&asked, &world.asked) {
            answer.word("by turns of");
            answer.number(units);
            answer.word(by_turns.whole()?);
        }
    }
    Ok(answer)
}

/// What a call of a case of evaluation gives if the makefile is evaluated in this way: at once, or by turns.
fn answer_by(
    alloc: Global,
    world: &mut World,
    way: Way,
    call: &str,
    given: &[Vec<u8>],
) -> Result<Answer, Trouble> {
    world.way = way;
    match call {
        "cost" => cost(alloc, world),
        "evaluate" => evaluated_whole(alloc, world, given),
        "stored" => stored(alloc, world, given),
        "flavored" => flavored(alloc, world, given),
        "value" => value_of(alloc, world, given),
        _ => Err(Trouble::NoCase),
    }
}

/// Whether two evaluations of a case asked the same questions and got the same answers.
fn asks_same(one: &Trace, other: &Trace) -> bool {
    let (one, other) = (one.questions(), other.questions());
    if one.len() != other.len() {
        return false;
    }
    for at in 0..one.len() {
        if !is_same_question(&one[at], &other[at]) {
            return false;
        }
    }
    true
}

/// Whether two questions of a case's evaluations ask for the same file and got the same answer.
fn is_same_question(one: &Question, other: &Question) -> bool {
    one.name().as_str() == other.name().as_str() && is_same_reply(one.reply(), other.reply())
}

/// Whether two answers to questions of a case's evaluations are the same.
fn is_same_reply(one: &Reply, other: &Reply) -> bool {
    match (one, other) {
        (Reply::Presence(one), Reply::Presence(other)) => *one == *other,
        (Reply::Contents(None), Reply::Contents(None)) => true,
        (Reply::Contents(Some(one)), Reply::Contents(Some(other))) => {
            one.as_slice() == other.as_slice()
        }
        _ => false,
    }
}

/// The call `cost` of a case of evaluation: what the makefile costs, or its fault with what it cost up to
/// there.
fn cost(alloc: Global, world: &mut World) -> Result<Answer, Trouble> {
    let outcome = evaluated(alloc, world)?;
    cost_answer(alloc, outcome)
}

/// Shows in a case of evaluation what the makefile cost, or its fault with what it cost up to there.
fn cost_answer(alloc: Global, outcome: Result<Evaluated, Failed>) -> Result<Answer, Trouble> {
    match outcome {
        Ok(evaluated) => {
            let mut answer = Answer::new(alloc);
            answer.number(evaluated.cost);
            Ok(answer)
        }
        Err(failed) => failure(alloc, &failed),
    }
}

/// The call `evaluate FILE NAME` of a case of evaluation: what this makefile describes, what it costs, and
/// the value of a variable after it with its cost. If the makefile or the value has a fault, the fault is the
/// answer.
fn evaluated_whole(alloc: Global, world: &mut World, given: &[Vec<u8>]) -> Result<Answer, Trouble> {
    let [file, variable] = given else {
        return Err(Trouble::NoCase);
    };
    let name = given_name(alloc, file)?;
    match evaluated_file(alloc, world, &name, None)? {
        Ok(evaluated) => {
            let mut answer = Answer::of_word(alloc, kind_word(evaluated.kind));
            add_cost(&mut answer, evaluated.cost);
            add_value(alloc, answer, &evaluated, &name, as_text(variable)?)
        }
        Err(failed) => failure(alloc, &failed),
    }
}

/// Adds to the answer of a case of evaluation the value of a variable, and what that cost. If the value has a
/// fault, that alone is the answer.
fn add_value(
    alloc: Global,
    mut answer: Answer,
    evaluated: &Evaluated,
    name: &Name,
    variable: &str,
) -> Result<Answer, Trouble> {
    match value(alloc, evaluated, name, variable) {
        Ok(Some(valued)) => {
            answer.text(valued.text().as_bytes());
            add_cost(&mut answer, valued.cost());
            Ok(answer)
        }
        Ok(None) => {
            answer.word("undefined");
            Ok(answer)
        }
        Err(PureStop::Fault(failed)) => failure(alloc, &failed),
        Err(PureStop::Memory(refused)) => Err(Trouble::Memory(refused)),
    }
}

/// Adds to the answer of a case what an evaluation cost, after the word `cost`.
pub fn add_cost(answer: &mut Answer, cost: u64) {
    answer.word("cost");
    answer.number(cost);
}

/// The word for what a makefile describes, as a case of evaluation shows it.
fn kind_word(kind: Kind) -> &'static str {
    match kind {
        Kind::Port => "Port",
        Kind::List => "List",
        Kind::Other => "Other",
    }
}

/// The call `flavored NAME FLAVOR..` of a case of evaluation: the text of a variable that the makefile leaves
/// with these flavors given.
fn flavored(alloc: Global, world: &mut World, given: &[Vec<u8>]) -> Result<Answer, Trouble> {
    let [_, flavors @ ..] = given else {
        return Err(Trouble::NoCase);
    };
    let flavors = texts(alloc, flavors)?;
    let makefile = makefile(alloc)?;
    match evaluated_file(alloc, world, &makefile, Some(flavors.as_slice()))? {
        Ok(evaluated) => text_of_variable(alloc, &evaluated.env, &given[..1]),
        Err(failed) => failure(alloc, &failed),
    }
}

/// The flavors that a case of evaluation gives, as texts.
fn texts(alloc: Global, given: &[Vec<u8>]) -> Result<Vec<String>, Trouble> {
    let mut texts = Vec::new(alloc);
    for bytes in given {
        texts.push(String::from_str(alloc, as_text(bytes)?)?)?;
    }
    Ok(texts)
}

/// The call `stored NAME` of a case of evaluation: the text of a variable that the makefile leaves,
/// unexpanded.
fn stored(alloc: Global, world: &mut World, given: &[Vec<u8>]) -> Result<Answer, Trouble> {
    match evaluated(alloc, world)? {
        Ok(evaluated) => text_of_variable(alloc, &evaluated.env, given),
        Err(failed) => failure(alloc, &failed),
    }
}

/// The call `value NAME` of a case of evaluation: the value of a variable after the makefile, with its cost;
/// `undefined`; or its fault, or the makefile's.
fn value_of(alloc: Global, world: &mut World, given: &[Vec<u8>]) -> Result<Answer, Trouble> {
    let variable = one_text(given)?;
    let makefile = makefile(alloc)?;
    match evaluated_file(alloc, world, &makefile, None)? {
        Ok(evaluated) => add_value(alloc, Answer::new(alloc), &evaluated, &makefile, variable),
        Err(failed) => failure(alloc, &failed),
    }
}

/// The name of the makefile that cases of evaluation are about.
pub fn makefile(alloc: Global) -> Result<Name, Trouble> {
    given_name(alloc, MAKEFILE.as_bytes())
}

/// What the makefile of a case of evaluation leaves, or its fault.
pub fn evaluated(alloc: Global, world: &mut World) -> Result<Result<Evaluated, Failed>, Trouble> {
    evaluated_file(alloc, world, &makefile(alloc)?, None)
}

/// What a makefile leaves in a case of evaluation, with these flavors or with none given, or its fault.
fn evaluated_file(
    alloc: Global,
    world: &mut World,
    name: &Name,
    flavors: Option<&[String]>,
) -> Result<Result<Evaluated, Failed>, Trouble> {
    let settings = &world.settings;
    let mut files = Recorder::new(alloc, &mut world.files, Trace::new(alloc));
    let outcome = outcome_by(alloc, &mut files, settings, name, flavors, world.way)?;
    world.asked = files.into_trace();
    outcome.ok_or(Trouble::NoCase)
}

/// What an evaluation leaves in a case, at once or by turns, or its fault. `None` if its turns have no end.
fn outcome_by<F: Files + Drop>(
    alloc: Global,
    files: &mut Recorder<F>,
    settings: &Settings,
    name: &Name,
    flavors: Option<&[String]>,
    way: Way,
) -> Result<Option<Result<Evaluated, Failed>>, FilesFault> {
    match way {
        Way::Whole => match evaluate(alloc, files, settings, name, flavors) {
            Ok(evaluated) => Ok(Some(Ok(evaluated))),
            Err(Stop::Fault(failed)) => Ok(Some(Err(failed))),
            Err(Stop::Store(refusal)) => Err(FilesFault::Store(refusal)),
            Err(Stop::Memory(refused)) => Err(FilesFault::Memory(refused)),
        },
        Way::Turns(units) => {
            let ended = by_turns(alloc, files, settings, name, flavors, units)?;
            Ok(ended.map(|(outcome, _turns)| outcome))
        }
    }
}

/// The call `cost failing` of a case of evaluation: what the makefile costs in files that fail at each call
/// in turn, at once and by turns of one unit. It gives how many calls there are, and the cost or the fault.
pub fn cost_failing(alloc: Global, world: &mut World) -> Result<Answer, Trouble> {
    let name = makefile(alloc)?;
    let World {
        files,
        settings,
        ..
    } = world;
    let mut evaluating = Evaluating {
        settings,
        name: &name,
        way: Way::Whole,
    };
    let mut answer = failing_answer(alloc, files, &mut evaluating)?;
    evaluating.way = Way::Turns(1);
    let by_turns = failing_answer(alloc, files, &mut evaluating)?;
    if !answer.is_same(&by_turns)? {
        answer.word("by turns");
        answer.word(by_turns.whole()?);
    }
    Ok(answer)
}

/// A makefile that a case evaluates over failing files.
#[derive(Drop)]
struct Evaluating<'a> {
    settings: &'a Settings,
    name: &'a Name,
    way: Way,
}

impl Asking for Evaluating<'_> {
    /// What the evaluation of the makefile costs over failing files in a case, or its fault.
    fn ask(
        &mut self,
        alloc: Global,
        files: &mut FailingFiles<'_>,
    ) -> Result<Result<Answer, Trouble>, FilesFault> {
        let mut files = Recorder::new(alloc, files, Trace::new(alloc));
        let outcome = outcome_by(alloc, &mut files, self.settings, self.name, None, self.way)?;
        Ok(match outcome {
            Some(outcome) => cost_answer(alloc, outcome),
            None => Err(Trouble::NoCase),
        })
    }
}

/// The call `turns UNITS` of a case of evaluation: how many turns of so many units it takes to evaluate the
/// makefile.
pub fn turns(alloc: Global, world: &mut World, given: &[Vec<u8>]) -> Result<Answer, Trouble> {
    let [units] = given else {
        return Err(Trouble::NoCase);
    };
    let name = makefile(alloc)?;
    let settings = &world.settings;
    let mut files = Recorder::new(alloc, &mut world.files, Trace::new(alloc));
    let units = as_number(units)?;
    let ended = by_turns(alloc, &mut files, settings, &name, None, units)?;
    let (_outcome, turns) = ended.ok_or(Trouble::NoCase)?;
    let mut answer = Answer::new(alloc);
    answer.number(turns);
    Ok(answer)
}

/// An evaluation of a case by turns of so many units, and how many there are. Each turn spends a unit, and
/// the last one ends it. `None` if it has no end.
fn by_turns<F: Files + Drop>(
    alloc: Global,
    files: &mut Recorder<F>,
    settings: &Settings,
    name: &Name,
    flavors: Option<&[String]>,
    units: u64,
) -> Result<Option<(Result<Evaluated, Failed>, u64)>, FilesFault> {
    let mut parses = Anew::new(alloc);
    let mut turned = Machine::start(alloc, settings, name, flavors, &mut parses, files)?;
    for turns in 0..UNITS + 2 {
        match turned {
            Turned::Done(outcome) => return Ok(Some((outcome, turns))),
            Turned::More(machine) => turned = machine.turn(alloc, &mut parses, files, units)?,
        }
    }
    Ok(None)
}

/// The fault of an evaluation as the answer of a case, with what was spent up to there.
pub fn failure(alloc: Global, failed: &Failed) -> Result<Answer, Trouble> {
    let mut answer = fault_answer(alloc, &failed.fault)?;
    add_cost(&mut answer, failed.cost);
    Ok(answer)
}
