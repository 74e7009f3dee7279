//! The place of a port's directory: its makefile in the first tree of the search path that has one.
ghost use Rattle.mk_paths.specs.Place.{FindsPlace, SeeksPlace};
ghost use Rattle.mk_paths.specs.Place.{StopsSeeking, GivesCandidate};

use crate::file_name::{Name, NameFault};
use crate::files::{FilesFault, Names};
use crate::search_path::SearchPath;
use std::alloc::{AllocError, Global};

/// The name of a directory's makefile in the first tree of the search path that has such a file, as in
/// `/ports/editors/vim/Makefile`; `None` if no tree has one.
///
/// The trees are asked in their order, up to the first that has the makefile. If the text is no file
/// name in a tree, that tree has no makefile, and nothing is asked. If the files fail, they count one
/// more failure, and their fault is returned as it is. If there is no memory for a name, the fault is
/// `Memory`, and nothing is counted.
pub fn find<N: Names>(
    alloc: Global,
    names: &mut N,
    path: &SearchPath,
    directory: &str,
) -> Result<Option<Name>, FilesFault>
    ensures place { FindsPlace result (N.view names.old).files path.now directory.now }
    ensures asked { SeeksPlace result (N.view names.old) (N.view names.new) path.now directory.now }
    ensures fault { StopsSeeking N.Names result names.old names.new path.now directory.now }
{
    let trees = path.trees();
    for tree in trees {
        let Some(name) = candidate(alloc, tree.as_str(), directory)? else {
            continue;
        };
        let there = names.has(&name)?;
        if there {
            return Ok(Some(name));
        }
    }
    Ok(None)
}

/// The name of a directory's makefile in one tree of the search path; `None` if the text is no file name.
fn candidate(alloc: Global, tree: &str, directory: &str) -> Result<Option<Name>, AllocError>
    ensures { GivesCandidate result tree.now directory.now }
{
    let mut text = String::from_str(alloc, tree)?;
    text.push_str("/")?;
    text.push_str(directory)?;
    text.push_str("/Makefile")?;
    match Name::read(alloc, text.as_str()) {
        Ok(name) => Ok(Some(name)),
        Err(NameFault::Memory(refused)) => Err(refused.into()),
        Err(NameFault::BadName | NameFault::Above) => Ok(None),
    }
}
