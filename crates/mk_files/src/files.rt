//! Worlds of files that can be read, and those that can be listed too.
ghost use Rattle.std.specs.Prelude.{◌≡◌, IfErr, OnOk, OnErr};
ghost use Rattle.mk_paths.specs.FilesView.{Fails, AnswersContents};
ghost use Rattle.mk_files.specs.MemoryFiles.{ListsNames};

use crate::content::Content;
use mk_paths::{FilesFault, Name, Names};
use std::alloc::Global;

/// A world of files that can be read.
///
/// Its meaning is that of `Names`. It is one map, which no reading changes, a log of the questions
/// asked, if the world keeps one, and the count of the questions that failed.
pub trait Files: Names {
    /// The content of the file of this name, read in a world of files; `None` if it isn't there.
    ///
    /// The answer is what the map says, and it is added to the log if there is one. A fault leaves
    /// the map and the log as they are. It adds one to the count of failures, which goes no higher
    /// than 2^64 - 1.
    fn read(&mut self, name: &Name) -> Result<Option<Content>, FilesFault>
        ensures answer { AnswersContents result (Self.view self.old) (Self.view self.new) name.now }
        ensures fault { OnErr result (Fails (Self.view self.old) (Self.view self.new)) }
        ensures kind { IfErr result Self.fails_with };
}

// Files that are lent are read as by their owner.
impl<F: Files> Files for &mut F {
    /// The content of the file of this name, read in a world of files that is lent; `None` if it isn't there.
    fn read(&mut self, name: &Name) -> Result<Option<Content>, FilesFault> {
        (**self).read(name)
    }
}

/// A world of files that can be listed too.
pub trait Listing: Files {
    /// The names of all files of a world, in the order of their bytes.
    ///
    /// Listing isn't a question, and nothing is added to the log. A fault leaves the map and the log as
    /// they are. It adds one to the count of failures, which goes no higher than 2^64 - 1.
    fn names(&mut self, alloc: Global) -> Result<Vec<String>, FilesFault>
        ensures names { ListsNames result (Self.view self.old).files }
        ensures same { OnOk result (Self.view self.new ≡ Self.view self.old) }
        ensures fault { OnErr result (Fails (Self.view self.old) (Self.view self.new)) }
        ensures kind { IfErr result Self.fails_with };
}

// The same of files that can be listed.
impl<F: Listing> Listing for &mut F {
    /// The names of all files of a world that is lent, in the order of their bytes.
    fn names(&mut self, alloc: Global) -> Result<Vec<String>, FilesFault> {
        (**self).names(alloc)
    }
}
