//! The search for the files of the modules that a line asks for, by the words of MODULES.
ghost use Rattle.std.specs.Prelude.{◌≡◌, IfOk};
ghost use Rattle.mk_base.specs.Meter.{IsLater};
ghost use Rattle.mk_files.specs.Work.{Asks};
ghost use Rattle.mk_eval.specs.Steps.{MayOpen};
ghost use Rattle.mk_step.specs.Steps.{FindsModule};

use mk_base::{Budget, Fault, Stop};
use mk_eval::{EvalState, ExecutedFile, ExecutedLine, Included, open_module};
use mk_files::Files;
use std::alloc::Global;

/// The words of MODULES of which the modules are still to be included.
#[derive(Drop)]
pub(crate) struct Search {
    /// The number of the line that asks for them.
    pub(crate) line: u64,
    /// All words.
    pub(crate) words: Vec<String>,
    /// The index of the next one.
    pub(crate) next: usize,
}

impl Search {
    /// Searches for the next module that is there, and gives its file. The words of MODULES up to it are
    /// done, or all words if there is none.
    ///
    /// The errors are those of `mk_eval::open_module` for each word.
    pub(crate) fn next_module<F: Files>(
        &mut self,
        alloc: Global,
        here: ExecutedFile<'_>,
        state: &EvalState,
        files: &mut F,
        budget: &mut Budget,
    ) -> Result<Option<Included>, Stop<Fault>>
        ensures gives { FindsModule here.entry state.now (self.old, self.new) result
            (budget.old, F.view files.old) (budget.new, F.view files.new) }
        ensures asks { Asks F.fails_with result (F.view files.old) (F.view files.new) }
        ensures later { IsLater budget.old budget.new }
        ensures opens { IfOk result (MayOpen here.entry.levels) }
        ensures line { self.new.line ≡ self.old.line }
    {
        let line = ExecutedLine {
            here,
            number: self.line,
        };
        while self.next < self.words.len() {
            let word = self.words[self.next].as_str();
            let opened = open_module(alloc, line, state, word, files, budget)?;
            self.next += 1;
            if opened.is_some() {
                return Ok(opened);
            }
        }
        Ok(None)
    }
}
