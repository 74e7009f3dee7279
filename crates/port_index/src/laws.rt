//! What holds of the paths and rows of every index. The functions do nothing else: their clauses are the
//! laws.
ghost use Rattle.mk_paths.specs.World.{FileMap};
ghost use Rattle.port_index.specs.Alike.{AlikeRowsListTheSame};
ghost use Rattle.port_index.specs.Makefiles.{AreOfDirectories, SameMakefilesServe};
ghost use Rattle.port_index.specs.PathLaws.{PathIsTheSameWhereAnswered, ListedPathsCostNoMore, MakefilesAreEvaluated};
ghost use Rattle.port_index.specs.RowLaws.{KnownRowsAreEnough, NeededAreNamed, OneRowMoreLeavesLess};

use mk_eval::same_where_answered;
use mk_paths::Settings;

/// Take any world with the same settings that gives the answers on which it depends what a path of the index
/// leads to. In it the path leads to the same, at the same cost, and this depends on the same answers.
pub fn path_is_the_same_where_answered()
    ensures { PathIsTheSameWhereAnswered }
{
    same_where_answered();
}

/// The listed paths of the index cost no more than all paths on which the index depends: these, and those
/// that items name, each once.
pub fn listed_paths_cost_no_more()
    ensures { ListedPathsCostNoMore }
{}

/// For some paths of the index, as many makefiles are evaluated as there are paths among them whose makefile
/// is there.
pub fn makefiles_are_evaluated()
    ensures { MakefilesAreEvaluated }
{}

/// What the index is follows from rows alone, once they say what each path leads to on which the index
/// depends: which paths are listed and needed, and which roots and edges there are.
pub fn known_rows_are_enough()
    ensures { KnownRowsAreEnough }
{}

/// If a path that the index needs gets its row, then less is left to be done, by as much as that path takes.
pub fn one_row_more_leaves_less()
    ensures { OneRowMoreLeavesLess }
{}

/// Where the rows of directories name the same paths as before, the index lists the same paths. Where the
/// rows of listed paths do, it needs the same ones.
pub fn alike_rows_list_the_same()
    ensures { AlikeRowsListTheSame }
{}

/// Where the same makefiles are there, the index has the same directories, and the same paths have a
/// makefile.
pub fn same_makefiles_serve()
    ensures { SameMakefilesServe }
{}

/// Under any settings, a path without a comma has a makefile only if it is one of the files' directories.
pub fn makefiles_are_of_directories(settings: &Settings)
    ensures { (files : FileMap) → AreOfDirectories (files, settings.now) }
{
    let _trees = settings.path.trees();
}

/// A path is needed by the index if it is listed, or if an item of a port at a listed path names it.
pub fn needed_are_named()
    ensures { NeededAreNamed }
{}
