//! Worked cases of requests over failing files: a plain reply, and the first turn of a request.
ghost use Rattle.std.specs.Prelude.{◌≡◌, IfOk};
ghost use Rattle.mk_paths.specs.FilesView.{view_world};
ghost use Rattle.mk_paths.specs.World as worlds;
ghost use Rattle.turn_amounts.specs.Spent.{no_spending};
ghost use Rattle.index_store.specs.PortTable.{stored_by};
ghost use Rattle.index_keep.specs.Keeper.{begun_in, refresh_of, IsKept};
ghost use Rattle.index_keep.specs.Turns.{RefreshView};
ghost use Rattle.question_turns.specs.UnderWay.{IsUnderWayOver};

use crate::plain_requests::reply_answer;
use case_lines::{Answer, Trouble, one_text};
use eval_cache::EvalCache;
use index_keep::Keeper;
use index_store::IndexStore;
use make_cases::{Asking, FailingFiles, World, failing_answer};
use mk_files::Listing;
use mk_paths::{FilesFault, Settings};
use plain_reference::answer;
use plain_service::{Plain, Question};
use ports_http::Method;
use question_turns::{Turned, UnderWay};
use std::alloc::Global;

/// The call `GET failing TARGET` of a worked case over failing files: the status and the body of the plain
/// reply over the world, in files that fail at each of their calls in turn. Before that, how many calls there
/// are.
pub fn answered(alloc: Global, world: &mut World, given: &[Vec<u8>]) -> Result<Answer, Trouble> {
    let target = one_text(given)?;
    let World {
        files,
        settings,
        ..
    } = world;
    failing_answer(alloc, files, &mut Getting { settings, target })
}

/// A GET request of a worked case over failing files.
#[derive(Drop)]
struct Getting<'a> {
    settings: &'a Settings,
    target: &'a str,
}

impl Asking for Getting<'_> {
    /// The plain reply to the GET request of a worked case over failing files.
    fn ask(
        &mut self,
        alloc: Global,
        files: &mut FailingFiles<'_>,
    ) -> Result<Result<Answer, Trouble>, FilesFault> {
        Ok(Ok(answer_to(alloc, files, self.settings, self.target)?))
    }
}

/// The status and the body of the plain reply to a GET request over files that may fail.
fn answer_to<F: Listing>(
    alloc: Global,
    files: &mut F,
    settings: &Settings,
    target: &str,
) -> Result<Answer, FilesFault> {
    let question = Plain::new(alloc)?.question(alloc, Method::Get, target, &[])?;
    let prepared = answer(alloc, files, settings, question)?;
    Ok(reply_answer(alloc, &prepared.reply))
}

/// The call `turn failing TARGET` of a worked case over failing files: the status and the body that the first
/// turn of the GET tells, in files that fail at each of their calls in turn. Before that, how many calls
/// there are. The index and the cache keep nothing yet. If that turn has no answer, it is `more`.
pub fn turned(alloc: Global, world: &mut World, given: &[Vec<u8>]) -> Result<Answer, Trouble> {
    let target = one_text(given)?;
    let World {
        files,
        settings,
        ..
    } = world;
    failing_answer(alloc, files, &mut Turning { settings, target })
}

/// The first turn of a GET request of a worked case over failing files.
#[derive(Drop)]
struct Turning<'a> {
    settings: &'a Settings,
    target: &'a str,
}

impl Asking for Turning<'_> {
    /// The reply that the first turn of the GET request of a worked case tells over failing files, or `more`.
    fn ask(
        &mut self,
        alloc: Global,
        files: &mut FailingFiles<'_>,
    ) -> Result<Result<Answer, Trouble>, FilesFault> {
        Ok(Ok(turn_to(alloc, files, self.settings, self.target)?))
    }
}

/// The status and the body of the reply to a GET request over files that may fail, if it is answered in its
/// first turn, and else `more`.
fn turn_to<F: Listing>(
    alloc: Global,
    files: &mut F,
    settings: &Settings,
    target: &str,
) -> Result<Answer, FilesFault> {
    match Plain::new(alloc)?.question(alloc, Method::Get, target, &[])? {
        Question::OfPort(asked) => first_turn(alloc, files, settings, UnderWay::of_port(asked)),
        Question::OfIndex(asked) => first_turn(alloc, files, settings, UnderWay::of_index(asked)),
        question => {
            let prepared = answer(alloc, files, settings, question)?;
            Ok(reply_answer(alloc, &prepared.reply))
        }
    }
}

/// The status and the body of the reply over files that may fail, if this question is answered in its first
/// turn, and else `more`.
fn first_turn<F: Listing>(
    alloc: Global,
    files: &mut F,
    settings: &Settings,
    under_way: UnderWay,
) -> Result<Answer, FilesFault>
    requires { (refresh : RefreshView) → refresh.begun ≡ no_spending
        → IsUnderWayOver (view_world (F.view files.old) settings.now) refresh under_way }
{
    let mut cache = EvalCache::new(alloc, 16, 16)?;
    let mut keeper = new_keeper(alloc)?;
    turn_over(alloc, files, settings, under_way, &mut cache, &mut keeper)
}

/// The status and the body of the reply over files that may fail, with this cache and this keeper, if this
/// question is answered in its first turn, and else `more`.
fn turn_over<F: Listing>(
    alloc: Global,
    files: &mut F,
    settings: &Settings,
    under_way: UnderWay,
    cache: &mut EvalCache,
    keeper: &mut Keeper<IndexStore>,
) -> Result<Answer, FilesFault>
    requires kept { IsKept stored_by (view_world (F.view files.old) settings.now) keeper.old }
    requires pending { IsUnderWayOver (view_world (F.view files.old) settings.now)
        (refresh_of stored_by keeper.old) under_way }
{
    match under_way.turn(alloc, cache, files, settings, keeper)? {
        Turned::Done(reply, _spent) => Ok(reply_answer(alloc, &reply)),
        Turned::More(_) => Ok(Answer::of_word(alloc, "more")),
    }
}

/// A keeper of an index that has no rows yet, for a request over failing files.
fn new_keeper(alloc: Global) -> Result<Keeper<IndexStore>, FilesFault>
    ensures kept { IfOk result (λ keeper. (world : worlds.World) → IsKept stored_by world keeper) }
    ensures begun { IfOk result (λ keeper. begun_in keeper.progress ≡ no_spending) }
{
    let mut keeper = Keeper::new(alloc, IndexStore::open_in_memory(alloc)?);
    keeper.stop(alloc); // no path is under evaluation
    Ok(keeper)
}
