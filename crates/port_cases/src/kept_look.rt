//! Cases of a look for an evaluation that is kept, as the refresh of an index makes it, in files that fail.
use crate::asks::by_turns;
use case_lines::{Answer, Trouble, one_text};
use eval_ask::Ask;
use eval_cache::{EvalCache, EvalKey, Look};
use make_cases::{Asking, FailingFiles, World, failing_answer, given_name};
use mk_paths::FilesFault;
use read_trace::{Recorder, Trace};
use std::alloc::Global;

/// The call `look failing NAME` of a case of a look: the evaluation of this makefile is kept, and then looked
/// for in the same files, which fail at each call in turn. It gives how many calls there are, the cost that
/// is found or `miss`, and the answers checked.
pub fn look_failing(
    alloc: Global,
    world: &mut World,
    given: &[Vec<u8>],
) -> Result<Answer, Trouble> {
    let name = given_name(alloc, one_text(given)?.as_bytes())?;
    let World {
        files,
        settings,
        ..
    } = world;
    let mut cache = EvalCache::new(alloc, 1, 1)?;
    let mut recorder = Recorder::new(alloc, &mut *files, Trace::new(alloc));
    let turned = Ask::begin(alloc, &mut cache, &mut recorder, settings, &name, None)?;
    let _asked = by_turns(alloc, &mut cache, &mut recorder, turned, u64::MAX)?;
    drop(recorder);
    let key = EvalKey::new(alloc, settings, &name, None)?;
    failing_answer(alloc, files, &mut Looking { cache, key })
}

/// A cache in which a case looks for an evaluation.
#[derive(Drop)]
struct Looking {
    cache: EvalCache,
    key: EvalKey,
}

impl Asking for Looking {
    /// What a case's look for a kept evaluation gives over failing files: its cost or `miss`, and the answers
    /// checked.
    fn ask(
        &mut self,
        alloc: Global,
        files: &mut FailingFiles<'_>,
    ) -> Result<Result<Answer, Trouble>, FilesFault> {
        let (look, checked) = self.cache.look(&self.key, files)?;
        let mut answer = Answer::new(alloc);
        match look {
            Look::Hit(_evaluation, cost) => answer.number(cost),
            Look::Miss => answer.word("miss"),
        }
        answer.number(checked);
        Ok(Ok(answer))
    }
}
