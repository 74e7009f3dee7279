//! The row of a path, made by evaluating the path's makefile turn by turn, with what was asked for it.
ghost use Rattle.std.specs.Prelude.{◌≡◌, map, string_bytes, IfOk, OnOk};
ghost use Rattle.mk_eval.specs.Agreement.{Agrees};
ghost use Rattle.eval_cache.specs.CacheUse.{UsesCache};
ghost use Rattle.turn_amounts.specs.Spent.{no_spending, IsUpFrom};
ghost use Rattle.read_trace.specs.Recorder.{view_of};
ghost use Rattle.index_row.specs.Seen.{kept_row_seen};
ghost use Rattle.eval_ask.specs.Ask.{HasBegun, HasLooked, spent_in};
ghost use Rattle.index_keep.specs.Paths as paths;
ghost use Rattle.index_keep.specs.Paths.{IsNamed, IsUpTo};
ghost use Rattle.index_keep.specs.PathFacts.{AddsNamesAsked, BeginsPath, FindsMakefile, FindsPlace};
ghost use Rattle.index_keep.specs.PathFacts.{GivesAsked, IsWithinCost, LendsFlavors, SpendsAsAsked};
ghost use Rattle.index_keep.specs.PathFacts.{SpendsFewMore, TurnsPathOn};
ghost use Rattle.index_keep.specs.Right.{LeavesAskedFiles, names_in};

use eval_ask::{Ask, AskTurned, Asked};
use eval_cache::EvalCache;
use index_row::KeptRow;
use mk_eval::evaluations_cost_few;
use mk_files::Files;
use mk_paths::{FilesFault, Name, Settings, find};
use pkg_path::PkgPath;
use port_index::finding_of;
use port_rules::records_cost_few;
use read_trace::{Question, Recorder, Trace};
use std::alloc::{AllocError, Global};
use turn_amounts::{Spent, left_of};

/// The row of a path, and what was spent to make it.
#[derive(Drop)]
pub(crate) struct MadeRow {
    pub(crate) path: String,
    pub(crate) row: KeptRow,
    pub(crate) spent: Spent,
}

/// A directory that a path names.
#[derive(Drop)]
enum NamedDirectory {
    /// The trees' own one.
    Own,
    /// That of a package path, with the path's flavors.
    OfPath(PkgPath),
}

/// A path whose makefile is there, and what was asked to find it.
#[derive(Drop)]
pub(crate) struct FoundPath {
    path: String,
    named: NamedDirectory,
    makefile: Name,
    placed: Trace,
}

/// A path whose makefile is evaluated, and which has no row yet.
#[derive(Drop)]
pub(crate) struct PathAsk {
    found: FoundPath,
    ask: AskTurned,
}

/// What the row of a path has come to.
#[derive(Drop)]
pub(crate) enum PathTurned {
    /// The makefile's evaluation isn't at its end, or its end waits for the row to be made of it.
    More(PathAsk),
    /// The row is made.
    Made(MadeRow),
}

impl PathAsk {
    /// Begins to make the row of a path whose makefile is there: what it leads to in these files under these settings,
    /// with the names that are asked for. The makefile is evaluated until so many units are spent. Each answer that is
    /// checked before counts as one of them. Then the row is made, if fewer are spent. It fails if the files fail, or if
    /// memory runs out.
    pub(crate) fn begin<F: Files + Drop>(
        alloc: Global,
        cache: &mut EvalCache,
        files: &mut Recorder<F>,
        settings: &Settings,
        found: FoundPath,
        units: u64,
    ) -> Result<PathTurned, FilesFault>
        ensures turns { BeginsPath F.view files.old settings.now found units result }
        ensures up { IfOk result (IsUpTo no_spending) }
        ensures leaves { LeavesAskedFiles F.view result files.old files.new }
        ensures uses { UsesCache cache.old cache.new }
    {
        let ask = Ask::begin(
            alloc,
            cache,
            files,
            settings,
            &found.makefile,
            found.named.flavors(),
        )?;
        PathAsk { found, ask }.go_on(alloc, cache, files, Spent::nothing(), units)
    }

    /// Goes on with the evaluation of the makefile of a path that gets its row, until so many units more are
    /// spent, or it is at its end. Then the row is made, if fewer are spent. It fails if the files fail, or
    /// if memory runs out.
    pub(crate) fn turn<F: Files + Drop>(
        self,
        alloc: Global,
        cache: &mut EvalCache,
        files: &mut Recorder<F>,
        units: u64,
    ) -> Result<PathTurned, FilesFault>
        requires { HasBegun (view_of F.view files.old).files self.ask }
        ensures turns { TurnsPathOn F.view files.old self units (spent_in self.ask) result }
        ensures up { IfOk result (IsUpTo (spent_in self.ask)) }
        ensures leaves { LeavesAskedFiles F.view result files.old files.new }
        ensures uses { UsesCache cache.old cache.new }
    {
        let before = self.spent();
        self.go_on(alloc, cache, files, before, units)
    }

    /// Goes on with the evaluation of the makefile of a path that gets its row, in a turn before which so
    /// much was spent on the path.
    fn go_on<F: Files + Drop>(
        self,
        alloc: Global,
        cache: &mut EvalCache,
        files: &mut Recorder<F>,
        before: Spent,
        units: u64,
    ) -> Result<PathTurned, FilesFault>
        requires begun { HasBegun (view_of F.view files.old).files self.ask }
        requires up { IsUpFrom before (spent_in self.ask) }
        requires looked { HasLooked before self.ask }
        ensures turns { TurnsPathOn F.view files.old self units before result }
        ensures up { IfOk result (IsUpTo before) }
        ensures leaves { LeavesAskedFiles F.view result files.old files.new }
        ensures uses { UsesCache cache.old cache.new }
    {
        let PathAsk { found, ask } = self;
        let given = left_of(units, before, ask.spent());
        let ask = ask.turn(alloc, cache, files, given)?;
        if left_of(units, before, ask.spent()) == 0 {
            return Ok(PathTurned::More(PathAsk { found, ask }));
        }
        match ask {
            AskTurned::Done(asked) => Ok(PathTurned::Made(found.made(alloc, &asked)?)),
            AskTurned::More(_ask) => unreachable!(), // its turn has spent what was left
        }
    }

    /// What was spent so far on the path that gets its row. The units aren't more than the path costs.
    pub(crate) fn spent(&self) -> Spent
        ensures is { result ≡ spent_in self.now.ask }
        ensures within { IsWithinCost self.now result }
    {
        self.ask.spent()
    }
}

impl NamedDirectory {
    /// The directory that a path names of which a row is made, if it names one. It fails only if memory runs
    /// out.
    fn read(alloc: Global, path: &str) -> Result<Option<NamedDirectory>, AllocError>
        ensures { IfOk result (IsNamed path.now) }
    {
        if path == "." {
            return Ok(Some(NamedDirectory::Own));
        }
        match PkgPath::read_if_one(alloc, path)? {
            Some(path) => Ok(Some(NamedDirectory::OfPath(path))),
            None => Ok(None),
        }
    }

    /// The directory that a path names of which a row is made.
    fn directory(&self) -> &str
        ensures { result.now ≡ paths.directory_named self.now }
    {
        match self {
            NamedDirectory::Own => ".",
            NamedDirectory::OfPath(path) => path.directory(),
        }
    }

    /// The flavors of a path that is evaluated for its row, if the path gives any.
    fn flavors(&self) -> Option<&[String]>
        ensures { LendsFlavors self.now result }
    {
        match self {
            NamedDirectory::Own => None,
            NamedDirectory::OfPath(path) => path.flavors(),
        }
    }
}

impl FoundPath {
    /// The makefile of a path of which a row is made, in these files under these settings, if it is there. It
    /// fails if the files fail, or if memory runs out.
    pub(crate) fn find<F: Files + Drop>(
        alloc: Global,
        files: &mut Recorder<F>,
        settings: &Settings,
        path: &str,
    ) -> Result<Option<FoundPath>, FilesFault>
        ensures found { FindsMakefile F.view files.old settings.now path.now result }
        ensures leaves { LeavesAskedFiles F.view result files.old files.new }
    {
        let Some(named) = NamedDirectory::read(alloc, path)? else {
            return Ok(None);
        };
        let (makefile, placed) = place_of(alloc, files, settings, named.directory())?;
        let Some(makefile) = makefile else {
            return Ok(None);
        };
        Ok(Some(FoundPath {
            path: String::from_str(alloc, path)?,
            named,
            makefile,
            placed,
        }))
    }

    /// The row of the path, made of its makefile's evaluation, with the names that were asked for.
    fn made(self, alloc: Global, asked: &Asked) -> Result<MadeRow, AllocError>
        ensures path { IfOk result (λ made. string_bytes made.path ≡ string_bytes self.path) }
        ensures row { IfOk result (λ made. kept_row_seen made.row ≡ paths.row_made self asked.now) }
        ensures spent { IfOk result (SpendsAsAsked asked.now) }
        ensures few { IfOk result (SpendsFewMore asked.now) }
    {
        evaluations_cost_few();
        records_cost_few();
        let FoundPath {
            path,
            named,
            makefile,
            placed,
        } = self;
        let row = finding_of(alloc, &asked.evaluation.outcome, &makefile, named.flavors())?;
        let spent = asked.spent_on(row.cost);
        let mut names = names_of(alloc, placed.questions())?;
        add_names(alloc, &mut names, asked.evaluation.trace.questions())?;
        Ok(MadeRow {
            path,
            row: KeptRow { found: row, names },
            spent,
        })
    }
}

/// The makefile in the directory of a path, if it is there, and what was asked to find it. It fails if the
/// files fail, or if memory runs out.
fn place_of<F: Files + Drop>(
    alloc: Global,
    files: &mut Recorder<F>,
    settings: &Settings,
    directory: &str,
) -> Result<(Option<Name>, Trace), FilesFault>
    ensures place { FindsPlace F.view files.old settings.now directory.now result }
    ensures asked { GivesAsked F.view files.old settings.now directory.now result }
    ensures answered { IfOk result (λ found. Agrees (view_of F.view files.old).files found.1) }
    ensures leaves { LeavesAskedFiles F.view result files.old files.new }
{
    let _before = files.take_trace();
    let found = find(alloc, files, &settings.path, directory)?;
    Ok((found, files.take_trace()))
}

/// The names of the files for which a row asked: those that questions are about, in order.
fn names_of(alloc: Global, questions: &[Question]) -> Result<Vec<String>, AllocError>
    ensures { IfOk result (λ names. map string_bytes names.items ≡ names_in questions.now) }
{
    let mut names = Vec::with_capacity(alloc, questions.len())?;
    add_names(alloc, &mut names, questions)?;
    Ok(names)
}

/// Adds the names of the files for which a row asked, those that questions are about, in order, to other
/// names.
fn add_names(
    alloc: Global,
    names: &mut Vec<String>,
    questions: &[Question],
) -> Result<(), AllocError>
    ensures { OnOk result (AddsNamesAsked questions.now names.old names.new) }
{
    for question in questions {
        names.push(String::from_str(alloc, question.name().as_str())?)?;
    }
    Ok(())
}
