//! Cases of refreshes: indexes that are refreshed turn by turn.
ghost use Rattle.std.specs.Prelude.{OnOk, IfOk};
ghost use Rattle.mk_paths.specs.World as worlds;
ghost use Rattle.index_store.specs.PortTable.{stored_by};
ghost use Rattle.index_keep.specs.Keeper.{IsDone, IsKept, IsKeptOver};
ghost use Rattle.index_keep.specs.Right.{LeavesAskedFiles};

use crate::given::{Given, Limit, TurnGiven};
use crate::refresh_answers::tell_turns;
use case_lines::{Answer, Trouble, as_number};
use eval_cache::EvalCache;
use index_keep::{Keeper, Refreshed};
use index_store::IndexStore;
use make_cases::{Asking, FailingFiles, World, failing_answer};
use mk_files::{Listing, MemoryFiles};
use mk_paths::{FilesFault, Settings};
use read_trace::{Recorder, Trace};
use std::alloc::Global;

/// The most turns of a case's refresh.
const MOST_TURNS: usize = 1000;

/// More steps than a statement of the store takes in a case's refresh.
const MOST_STEPS: u64 = 10_000;

/// The call `refreshed by UNITS` of a case of refreshes: what each turn of a refresh tells if it is given so
/// many units, and how many roots the index has then. After that, it tells this of a second index of these
/// files, with the same cache.
pub fn refreshed_answer(
    alloc: Global,
    world: &mut World,
    given: &[Vec<u8>],
) -> Result<Answer, Trouble> {
    let [units] = given else {
        return Err(Trouble::NoCase);
    };
    let units = as_number(units)?;
    let mut cache = EvalCache::new(alloc, 16, 16)?;
    let mut answer = Answer::new(alloc);
    refresh(alloc, &mut cache, world, units, &mut answer)?;
    refresh(alloc, &mut cache, world, units, &mut answer)?;
    Ok(answer)
}

/// Adds to the answer of a case what each turn of a refresh of a new index tells, and how many roots the
/// index has then.
fn refresh(
    alloc: Global,
    cache: &mut EvalCache,
    world: &mut World,
    units: u64,
    answer: &mut Answer,
) -> Result<(), Trouble> {
    let World {
        files,
        settings,
        ..
    } = world;
    let (turns, roots) = refresh_files(alloc, cache, files, settings, units)?;
    tell_turns(answer, &turns);
    answer.number(roots);
    Ok(())
}

/// In a case of refreshes: what each turn of a refresh of a new index tells if it is given so many units, and
/// how many roots the index has then. It is `NoCase` if the refresh has no end.
fn refresh_files(
    alloc: Global,
    cache: &mut EvalCache,
    files: &mut MemoryFiles,
    settings: &Settings,
    units: u64,
) -> Result<(Vec<Refreshed>, u64), Trouble> {
    let mut keeper = new_keeper(alloc)?;
    let mut recorder = Recorder::new(alloc, files, Trace::new(alloc));
    refresh_keeper(alloc, cache, &mut keeper, &mut recorder, settings, units)
}

/// In a case of refreshes: what each turn of a refresh of this keeper's index tells if it is given so many
/// units, and how many roots the index has then. It is `NoCase` if the refresh has no end.
fn refresh_keeper<F: Listing + Drop>(
    alloc: Global,
    cache: &mut EvalCache,
    keeper: &mut Keeper<IndexStore>,
    files: &mut Recorder<F>,
    settings: &Settings,
    units: u64,
) -> Result<(Vec<Refreshed>, u64), Trouble>
    requires { IsKeptOver F.view stored_by files.old settings.now keeper.old }
{
    let turns = turns_of(
        alloc,
        cache,
        keeper,
        files,
        settings,
        Given::unlimited(units),
    )?;
    let roots = count_roots(alloc, cache, keeper, files, settings)?;
    let turns = turns.ok_or(Trouble::NoCase)?;
    Ok((turns, roots))
}

/// The call `put away by UNITS` of a case of refreshes: what each turn of a refresh tells if it is given so
/// many units, and the paths of the roots that the index has then. After that, the index is put away, and it
/// tells this of one more refresh.
pub fn put_away_answer(
    alloc: Global,
    world: &mut World,
    given: &[Vec<u8>],
) -> Result<Answer, Trouble> {
    let [units] = given else {
        return Err(Trouble::NoCase);
    };
    let units = as_number(units)?;
    let World {
        files,
        settings,
        ..
    } = world;
    let mut keeper = new_keeper(alloc)?;
    let mut recorder = Recorder::new(alloc, files, Trace::new(alloc));
    let mut answer = Answer::new(alloc);
    add_refresh(
        alloc,
        &mut keeper,
        &mut recorder,
        settings,
        units,
        &mut answer,
    )?;
    keeper.put_away(alloc);
    add_refresh(
        alloc,
        &mut keeper,
        &mut recorder,
        settings,
        units,
        &mut answer,
    )?;
    Ok(answer)
}

/// Adds to the answer of a case what each turn of a refresh tells, and then the paths of the roots.
fn add_refresh<F: Listing + Drop>(
    alloc: Global,
    keeper: &mut Keeper<IndexStore>,
    files: &mut Recorder<F>,
    settings: &Settings,
    units: u64,
    answer: &mut Answer,
) -> Result<(), Trouble>
    requires { IsKeptOver F.view stored_by files.old settings.now keeper.old }
    ensures { OnOk result (IsKeptOver F.view stored_by files.new settings.now keeper.new) }
{
    let mut cache = EvalCache::new(alloc, 16, 16)?;
    let given = Given::unlimited(units);
    let turns = turns_of(alloc, &mut cache, keeper, files, settings, given)?;
    tell_turns(answer, &turns.ok_or(Trouble::NoCase)?);
    end_refresh(alloc, &mut cache, keeper, files, settings)?;
    for root in &keeper.index().roots(alloc)? {
        answer.text(root.path().as_bytes());
    }
    Ok(())
}

/// The keeper of an index without a row, for a case of refreshes.
fn new_keeper(alloc: Global) -> Result<Keeper<IndexStore>, FilesFault>
    ensures { IfOk result (λ keeper. (world : worlds.World) → IsKept stored_by world keeper) }
{
    Ok(Keeper::new(alloc, IndexStore::open_in_memory(alloc)?))
}

/// How many roots the index of a case has after its refresh and one more turn (`end_refresh`).
fn count_roots<F: Listing + Drop>(
    alloc: Global,
    cache: &mut EvalCache,
    keeper: &mut Keeper<IndexStore>,
    files: &mut Recorder<F>,
    settings: &Settings,
) -> Result<u64, Trouble>
    requires { IsKeptOver F.view stored_by files.old settings.now keeper.old }
{
    end_refresh(alloc, cache, keeper, files, settings)?;
    Ok(keeper.index().roots(alloc)?.len() as u64)
}

/// One more turn of a case's refresh, which brings the index at hand. It is `NoCase` if that turn isn't the
/// last.
fn end_refresh<F: Listing + Drop>(
    alloc: Global,
    cache: &mut EvalCache,
    keeper: &mut Keeper<IndexStore>,
    files: &mut Recorder<F>,
    settings: &Settings,
) -> Result<(), Trouble>
    requires { IsKeptOver F.view stored_by files.old settings.now keeper.old }
    ensures kept { OnOk result (IsKeptOver F.view stored_by files.new settings.now keeper.new) }
    ensures done { OnOk result (IsDone keeper.new) }
{
    match keeper.refresh_turn(alloc, cache, files, settings, u64::MAX)? {
        Refreshed::Done => Ok(()),
        Refreshed::Evaluated(_) | Refreshed::More(_) => Err(Trouble::NoCase),
    }
}

/// The call `refreshed failing by UNITS` of a case of refreshes: what each turn of a refresh tells if it is
/// given so many units, in files that fail at each call in turn. Before that, how many calls there are.
pub fn refreshed_failing(
    alloc: Global,
    world: &mut World,
    given: &[Vec<u8>],
) -> Result<Answer, Trouble> {
    let [units] = given else {
        return Err(Trouble::NoCase);
    };
    let units = as_number(units)?;
    let World {
        files,
        settings,
        ..
    } = world;
    failing_answer(alloc, files, &mut Refreshing { settings, units })
}

/// A new index that a case refreshes by turns of so many units over failing files, with a new cache.
#[derive(Drop)]
struct Refreshing<'a> {
    settings: &'a Settings,
    units: u64,
}

impl Asking for Refreshing<'_> {
    /// What each turn of a case's refresh tells over failing files.
    fn ask(
        &mut self,
        alloc: Global,
        files: &mut FailingFiles<'_>,
    ) -> Result<Result<Answer, Trouble>, FilesFault> {
        let mut keeper = new_keeper(alloc)?;
        let mut recorder = Recorder::new(alloc, files, Trace::new(alloc));
        let given = Given::unlimited(self.units);
        let turns = turns_of_new_cache(alloc, &mut keeper, &mut recorder, self.settings, given)?;
        let Some(turns) = turns else {
            return Ok(Err(Trouble::NoCase));
        };
        let mut answer = Answer::new(alloc);
        tell_turns(&mut answer, &turns);
        Ok(Ok(answer))
    }
}

/// The call `refreshed stopped by UNITS` of a case of refreshes: what each turn of a refresh tells if it is
/// given so many units and all rows of the index are stale.
///
/// Before that, a word for each of these turns: in further refreshes, each statement of the store may take 1,
/// 2, 3 .. steps at most in that turn, until none is stopped. The word is `Store` if that is the fault of
/// each refresh that was stopped, `wrong` if one had another fault, and `never` if none was stopped.
pub fn refreshed_stopped(
    alloc: Global,
    world: &mut World,
    given: &[Vec<u8>],
) -> Result<Answer, Trouble> {
    let [units] = given else {
        return Err(Trouble::NoCase);
    };
    let units = as_number(units)?;
    let World {
        files,
        settings,
        ..
    } = world;
    let turns = turns_of_stale(alloc, files, settings, Given::unlimited(units))?;
    let turns = turns.ok_or(Trouble::NoCase)?;
    let mut answer = Answer::new(alloc);
    for number in 0..turns.len() {
        answer.word(stopped_in(alloc, files, settings, units, number)?);
    }
    tell_turns(&mut answer, &turns);
    Ok(answer)
}

/// What a case tells of refreshes that are stopped in the turn with this number: `Store`, `wrong` or `never`.
fn stopped_in(
    alloc: Global,
    files: &mut MemoryFiles,
    settings: &Settings,
    units: u64,
    number: usize,
) -> Result<&'static str, Trouble> {
    for steps in 1..MOST_STEPS {
        let limit = Limit::In(number, steps);
        match turns_of_stale(alloc, files, settings, Given { units, limit }) {
            Ok(_turns) if steps == 1 => return Ok("never"),
            Ok(_turns) => return Ok("Store"),
            Err(FilesFault::Store(_)) => {}
            Err(FilesFault::Memory(_)) => return Ok("wrong"),
        }
    }
    Err(Trouble::NoCase)
}

/// What each turn of a case's refresh tells of an index whose rows are all stale, with a new cache. `None` if
/// it has no end.
fn turns_of_stale(
    alloc: Global,
    files: &mut MemoryFiles,
    settings: &Settings,
    given: Given,
) -> Result<Option<Vec<Refreshed>>, FilesFault> {
    let mut keeper = new_keeper(alloc)?;
    let mut recorder = Recorder::new(alloc, files, Trace::new(alloc));
    let all = Given::unlimited(u64::MAX);
    let _filled = turns_of_new_cache(alloc, &mut keeper, &mut recorder, settings, all)?;
    keeper.note_path(alloc)?;
    turns_of_new_cache(alloc, &mut keeper, &mut recorder, settings, given)
}

/// The turns of a case's refresh with a new cache, each with what it tells. `None` if they have no end.
fn turns_of_new_cache<F: Listing + Drop>(
    alloc: Global,
    keeper: &mut Keeper<IndexStore>,
    files: &mut Recorder<F>,
    settings: &Settings,
    given: Given,
) -> Result<Option<Vec<Refreshed>>, FilesFault>
    requires { IsKeptOver F.view stored_by files.old settings.now keeper.old }
{
    let mut cache = EvalCache::new(alloc, 16, 16)?;
    turns_of(alloc, &mut cache, keeper, files, settings, given)
}

/// What each turn of a case's refresh tells. `None` if it has no end.
fn turns_of<F: Listing + Drop>(
    alloc: Global,
    cache: &mut EvalCache,
    keeper: &mut Keeper<IndexStore>,
    files: &mut Recorder<F>,
    settings: &Settings,
    given: Given,
) -> Result<Option<Vec<Refreshed>>, FilesFault>
    requires { IsKeptOver F.view stored_by files.old settings.now keeper.old }
    ensures { OnOk result (IsKeptOver F.view stored_by files.new settings.now keeper.new) }
{
    let mut turns = Vec::new(alloc);
    for number in 0..MOST_TURNS {
        let turn = turn_within(alloc, cache, keeper, files, settings, given.in_turn(number))?;
        turns.push(turn)?;
        if turn == Refreshed::Done {
            return Ok(Some(turns));
        }
    }
    Ok(None)
}

/// One turn of a case's refresh, with the units and the limit of steps that it is given.
fn turn_within<F: Listing + Drop>(
    alloc: Global,
    cache: &mut EvalCache,
    keeper: &mut Keeper<IndexStore>,
    files: &mut Recorder<F>,
    settings: &Settings,
    given: TurnGiven,
) -> Result<Refreshed, FilesFault>
    requires { IsKeptOver F.view stored_by files.old settings.now keeper.old }
    ensures kept { IsKeptOver F.view stored_by files.old settings.now keeper.new }
    ensures leaves { LeavesAskedFiles F.view result files.old files.new }
{
    keeper.limit_steps(given.steps);
    keeper.refresh_turn(alloc, cache, files, settings, given.units)
}
