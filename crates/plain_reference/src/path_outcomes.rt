//! The outcomes of paths in the plain reference: what a path of a ports tree leads to, evaluated at once from
//! files.
ghost use Rattle.std.specs.Result.{result_err};
ghost use Rattle.port_index.specs.KeptFiles.{KeepsFiles};
ghost use Rattle.plain_reference.specs.Findings.{AsksAt, FindsAt, FindsBy, FindsIn, IfMeans, Logs, Polls};

use mk_base::Stop;
use mk_eval::{Evaluated, Failed};
use mk_files::Files;
use mk_paths::{FilesFault, Name, Settings, find};
use mk_step::evaluate;
use pkg_path::PkgPath;
use port_index::{Finding, finding_of};
use std::alloc::Global;

/// The outcome of a path in the plain reference: what the path leads to in these files under these settings.
/// The path is in its canonical form, without a subpackage; `.` is the trees' own directory.
///
/// The makefile that the path names is evaluated with the flavors of the path. If the text is no path, it
/// leads to nothing: `Row::Absent`. The files are asked for the place of the directory, tree by tree up to
/// the first that has its makefile, and then what the evaluation asks.
///
/// It fails if the files fail, or if memory runs out.
#[tactic(auto, unfolding(port_index::specs::PathOutcomes::finding_at, port_index::specs::PathQuestions::questions_at))]
pub fn evaluate_path<F: Files>(
    alloc: Global,
    files: &mut F,
    settings: &Settings,
    path: &str,
) -> Result<Finding, FilesFault>
    ensures finding { FindsAt result (F.view files.old) settings.now path.now }
    ensures asks { AsksAt result (F.view files.old) (F.view files.new) settings.now path.now }
    ensures keeps { KeepsFiles (result_err result) (F.view files.old) (F.view files.new) }
{
    if path == "." {
        return finding_in(alloc, files, settings, path, None);
    }
    match PkgPath::read_if_one(alloc, path)? {
        Some(path) => finding_in(alloc, files, settings, path.directory(), path.flavors()),
        None => Ok(Finding::nothing()),
    }
}

/// The outcome of a path in the plain reference: what its directory leads to, evaluated with these flavors or
/// with none given.
fn finding_in<F: Files>(
    alloc: Global,
    files: &mut F,
    settings: &Settings,
    directory: &str,
    flavors: Option<&[String]>,
) -> Result<Finding, FilesFault>
    ensures finding { FindsIn result (F.view files.old) settings.now directory.now flavors.entry }
    ensures asks { Logs F.view result files.old files.new settings.now directory.now flavors.entry }
    ensures keeps { KeepsFiles (result_err result) (F.view files.old) (F.view files.new) }
{
    match find(alloc, files, &settings.path, directory)? {
        Some(makefile) => finding_at(alloc, files, settings, &makefile, flavors),
        None => Ok(Finding::nothing()),
    }
}

/// The outcome of a path in the plain reference: what its makefile describes, evaluated with these flavors or
/// with none given.
fn finding_at<F: Files>(
    alloc: Global,
    files: &mut F,
    settings: &Settings,
    makefile: &Name,
    flavors: Option<&[String]>,
) -> Result<Finding, FilesFault>
    ensures finding { FindsBy result (F.view files.old) settings.now makefile.now flavors.entry }
    ensures asks { Polls F.view result files.old files.new settings.now makefile.now flavors.entry }
    ensures keeps { KeepsFiles (result_err result) (F.view files.old) (F.view files.new) }
{
    let outcome = outcome_of(alloc, files, settings, makefile, flavors)?;
    Ok(finding_of(alloc, &outcome, makefile, flavors)?)
}

/// How the evaluation of a path's makefile ends in the plain reference, with these flavors or with none
/// given. It fails if the files fail, or if memory runs out.
pub(crate) fn outcome_of<F: Files>(
    alloc: Global,
    files: &mut F,
    settings: &Settings,
    makefile: &Name,
    flavors: Option<&[String]>,
) -> Result<Result<Evaluated, Failed>, FilesFault>
    ensures outcome { IfMeans result (F.view files.old) settings.now makefile.now flavors.entry }
    ensures asks { Polls F.view result files.old files.new settings.now makefile.now flavors.entry }
    ensures keeps { KeepsFiles (result_err result) (F.view files.old) (F.view files.new) }
{
    match evaluate(alloc, files, settings, makefile, flavors) {
        Ok(evaluated) => Ok(Ok(evaluated)),
        Err(Stop::Fault(failed)) => Ok(Err(failed)),
        Err(Stop::Store(refusal)) => Err(FilesFault::Store(refusal)),
        Err(Stop::Memory(refused)) => Err(FilesFault::Memory(refused)),
    }
}
