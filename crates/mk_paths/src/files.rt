//! The question whether a file is there, in a world of files, and why it may get no answer.
ghost use Rattle.std.specs.Prelude.{◌≡◌, ◌↔◌, IfErr, OnErr};
ghost use Rattle.refusals.specs.Refused.{refused};
ghost use Rattle.mk_paths.specs.FilesView.{FilesView, Fails, AnswersPresence};
ghost use Rattle.mk_paths.specs.declared.files.FilesFault.{FilesFault};
ghost use Rattle.mk_paths.specs.declared.files.FilesFault.TheVariants.{Memory};

use crate::file_name::Name;
use refusals::{Database, OutOfMemory, Refusal, StoreRefusal};
use std::alloc::{AllocError, AllocFailed};
use thiserror::Error;

/// Why a question about files got no answer.
#[derive(Clone, Copy, Debug, PartialEq, Eq, Error)]
pub enum FilesFault {
    /// The store of the files failed.
    #[error("the store of the files failed")]
    Store(StoreRefusal),
    /// There was no memory for the answer.
    #[error("out of memory")]
    Memory(OutOfMemory),
}

impl From<AllocError> for FilesFault {
    ghost from_gives = { λ _ fault. fault ≡ Memory refused };

    /// If an allocation is refused, a question about files gets no answer, and the fault is `Memory`.
    fn from(error: AllocError) -> FilesFault {
        FilesFault::Memory(OutOfMemory::from(error))
    }
}

impl<T: Drop> From<AllocFailed<T>> for FilesFault {
    ghost from_gives = { λ _ fault. fault ≡ Memory refused };

    /// If an allocation that gives a value back is refused, a question about files gets no answer, and the
    /// fault is `Memory`.
    fn from(error: AllocFailed<T>) -> FilesFault {
        FilesFault::Memory(OutOfMemory::from(error))
    }
}

impl FilesFault {
    /// Why a question about files got no answer, if their database refused a statement with this error.
    pub fn of_statement<D: Database>(error: &D::Error) -> FilesFault
        ensures { (result ≡ Memory refused) ↔ D.for_memory error.now }
    {
        match Refusal::of::<D>(error) {
            Refusal::Memory(refused) => FilesFault::Memory(refused),
            Refusal::Store(refusal) => FilesFault::Store(refusal),
        }
    }
}

/// A world of files that can be asked which files are there.
///
/// Its meaning is a `FilesView`, a view of files with three parts. The first is one map from names to
/// contents, which no question changes. The second is a log of the questions asked and their answers, if
/// the world keeps one. The third is the count of the questions that failed. The world says too with
/// which faults its questions may fail.
pub trait Names {
    ghost view: { Self → FilesView };

    ghost fails_with: { FilesFault → Type 0 };

    /// Whether a file of this name is there, in a world of files.
    ///
    /// The answer is what the map says, and it is added to the log if there is one. A fault leaves
    /// the map and the log as they are. It adds one to the count of failures, which goes no higher
    /// than 2^64 - 1.
    fn has(&mut self, name: &Name) -> Result<bool, FilesFault>
        ensures answer { AnswersPresence result (view self.old) (view self.new) name.now }
        ensures fault { OnErr result (Fails (view self.old) (view self.new)) }
        ensures kind { IfErr result fails_with };
}

// Files that are lent answer as they do for their owner.
impl<N: Names> Names for &mut N {
    ghost view = { λ lent. N.view lent.now };

    ghost fails_with = { N.fails_with };

    /// Whether a file of this name is there, in a world of files that is lent.
    fn has(&mut self, name: &Name) -> Result<bool, FilesFault> {
        (**self).has(name)
    }
}
