//! What is under way for a question that isn't answered yet, and what was spent on it.
ghost use Rattle.mk_paths.specs.FilesView.{view_world};
ghost use Rattle.eval_cache.specs.CacheUse.{UsesCache};
ghost use Rattle.index_keep.specs.Keeper.{IsKept};
ghost use Rattle.plain_service.specs.declared.questions.Question.TheVariants.{OfPort, OfIndex};
ghost use Rattle.question_turns.specs.Questions.{BeginsAtRest, BeginsQuestion, IsPendingOver, KeepsFresh, Works};

use crate::kept_ports::KeptPorts;
use crate::port_ask::PortAsk;
use eval_cache::EvalCache;
use index_keep::Keeper;
use index_store::PathRows;
use mk_files::Listing;
use mk_paths::{FilesFault, Settings};
use plain_service::{IndexQuestion, PortQuestion};
use port_index::makefiles_are_evaluated;
use ports_http::Reply;
use read_trace::{Recorder, Trace};
use std::alloc::Global;
use turn_amounts::Spent;

/// What is under way for a question, and what was spent on it.
#[derive(Drop)]
pub struct UnderWay {
    pub(crate) stage: Stage,
    /// What was spent on the question in all turns so far.
    pub spent: Spent,
}

/// How far a question is that isn't answered yet.
#[derive(Drop)]
pub(crate) enum Stage {
    /// It had no turn yet.
    Begun(PortQuestion),
    /// The makefile of the port is evaluated. What is asked for isn't taken from the evaluation yet.
    Evaluating(PortQuestion, PortAsk),
    /// The reply is ready to be told.
    Ready(PortQuestion, Reply),
    /// The index is refreshed. The keeper knows how far.
    Refreshing(IndexQuestion),
}

/// What a turn for a question came to.
#[derive(Drop)]
pub enum Turned {
    /// The question isn't answered yet. This is under way.
    More(UnderWay),
    /// The reply to the question, and what was spent on it in all turns.
    Done(Reply, Spent),
}

impl UnderWay {
    /// What is under way for a question about a port before its first turn.
    pub fn of_port(question: PortQuestion) -> UnderWay
        ensures { BeginsQuestion (OfPort question) result }
    {
        UnderWay {
            stage: Stage::Begun(question),
            spent: Spent::nothing(),
        }
    }

    /// What is under way for a question about the index before its first turn. No path is under evaluation
    /// then: a refresh that another question has left must be stopped.
    pub fn of_index(question: IndexQuestion) -> UnderWay
        ensures { BeginsAtRest (OfIndex question) result }
    {
        makefiles_are_evaluated();
        UnderWay {
            stage: Stage::Refreshing(question),
            spent: Spent::nothing(),
        }
    }

    /// A turn for the question over the world of these files and settings. A turn acts while it has spent fewer than
    /// 1,000 units and checked answers together. It ends once an evaluation and the record of it are made, or with
    /// the reply. A makefile without a line that costs something doesn't end it.
    ///
    /// A question that needs the index refreshes the rows that the keeper has of it first. An evaluation is one that
    /// the cache keeps, if the files agree with it, and else a new one. Nothing of the world is changed.
    ///
    /// A turn without a reply leaves fewer turns to come that have none. No turn spends more than 51,000 units and
    /// checked answers. What a turn takes off the units that the index has left is told, unless evaluations were kept.
    ///
    /// # Errors
    ///
    /// It is the fault of the files or of the rows if they fail, and `Memory` if memory runs out. The keeper stays right
    /// about the world, and rows that were fresh are fresh still.
    pub fn turn<F: Listing + Drop, R: PathRows + Drop>(
        self,
        alloc: Global,
        cache: &mut EvalCache,
        files: F,
        settings: &Settings,
        keeper: &mut Keeper<R>,
    ) -> Result<Turned, FilesFault>
        requires kept { IsKept R.entries (view_world (F.view files) settings.now) keeper.old }
        requires pending { IsPendingOver R.entries F.view files settings.now keeper.old self }
        ensures turn { Works R.entries result F.view files settings.now keeper.old keeper.new self }
        ensures kept { IsKept R.entries (view_world (F.view files) settings.now) keeper.new }
        ensures fresh { KeepsFresh R.entries F.view files settings.now keeper.old keeper.new }
        ensures uses { UsesCache cache.old cache.new }
    {
        let mut files = Recorder::new(alloc, files, Trace::new(alloc));
        let mut ports = KeptPorts::new(cache, &mut files, settings, keeper);
        ports.turn(alloc, self)
    }
}
