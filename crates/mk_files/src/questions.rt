//! The questions about files that work on a makefile asks: whether a file is there, and what it contains.
ghost use Rattle.std.specs.Prelude.{◌≡◌, [], IfOk, IfErr, OnOk, OnErr};
ghost use Rattle.std.specs.FinMap.{get, contains_key};
ghost use Rattle.mk_base.specs.Meter.{question, IsLater};
ghost use Rattle.mk_base.specs.Outcome.{left};
ghost use Rattle.mk_paths.specs.FilesView.{Fails, noted};
ghost use Rattle.mk_files.specs.Questions.{LooksForFile, LooksAtFile, AsksForFile, AsksContent, NotesPresence};
ghost use Rattle.mk_files.specs.AfterQuestions as after_questions;
ghost use Rattle.mk_files.specs.AfterQuestions.{looked, IsPossibleFailure, AsksAndStops};
ghost use Rattle.mk_files.specs.Work.{Asks};

use crate::content::Content;
use crate::files::Files;
use mk_base::{Budget, FaultKind, Stop};
use mk_paths::{FilesFault, Name, Names};

/// How a question about files stops the work on a makefile, if it failed with this fault.
fn stop_of<K>(fault: FilesFault) -> Stop<K>
    ensures { result ≡ after_questions.stop_of fault }
{
    match fault {
        FilesFault::Store(refusal) => Stop::Store(refusal),
        FilesFault::Memory(refused) => Stop::Memory(refused),
    }
}

/// Whether a file of this name is there: a question about files that isn't counted. It is added to the log
/// with its answer, if there is a log.
///
/// If the files fail, their fault is returned as it is, as `Store` or `Memory`. The files have then
/// counted one more failure, and are otherwise the same. It never gives `Fault`.
pub fn look_has<F: Names, K>(files: &mut F, name: &Name) -> Result<bool, Stop<K>>
    ensures found { IfOk result (λ there. there ≡ contains_key (F.view files.old).files name.now) }
    ensures noted { NotesPresence result (F.view files.old) (F.view files.new) name.now }
    ensures gives { LooksForFile result (F.view files.old) (F.view files.new) name.now }
    ensures refusal { IfErr result (IsPossibleFailure F.fails_with) }
    ensures fails { OnErr result (Fails (F.view files.old) (F.view files.new)) }
{
    match files.has(name) {
        Ok(there) => Ok(there),
        Err(fault) => Err(stop_of(fault)),
    }
}

/// The content of a file, as the makefile itself, by a question that no budget pays for; `None` if it isn't
/// there. The question is added to the log with its answer, if there is a log.
///
/// If the files fail, their fault is returned as it is, as `Store` or `Memory`. The files have then
/// counted one more failure, and are otherwise the same. It never gives `Fault`.
pub fn look_read<F: Files, K>(files: &mut F, name: &Name) -> Result<Option<Content>, Stop<K>>
    ensures found { IfOk result (λ content. content ≡ get (F.view files.old).files name.now) }
    ensures noted { OnOk result (F.view files.new ≡ looked (F.view files.old) name.now) }
    ensures gives { LooksAtFile result (F.view files.old) (F.view files.new) name.now }
    ensures refusal { IfErr result (IsPossibleFailure F.fails_with) }
    ensures fails { OnErr result (Fails (F.view files.old) (F.view files.new)) }
{
    match files.read(name) {
        Ok(content) => Ok(content),
        Err(fault) => Err(stop_of(fault)),
    }
}

/// Whether a file of this name is there: one of the 256 questions about files that an evaluation may ask. It
/// is counted first, even if the files then fail.
///
/// # Errors
///
/// `Fault` of the kind `Questions` for the 257th question: it isn't counted, and the files aren't asked.
/// `Store` and `Memory` as in `look_has`.
pub fn ask_has<F: Names>(
    files: &mut F,
    name: &Name,
    budget: &mut Budget,
) -> Result<bool, Stop<FaultKind>>
    ensures gives { AsksForFile F.view name.now result budget.old files.old budget.new files.new }
    ensures noted { NotesPresence result (F.view files.old) (F.view files.new) name.now }
    ensures stops { IfErr result (AsksAndStops F.fails_with (F.view files.old) (F.view files.new)) }
    ensures asks { Asks F.fails_with result (F.view files.old) (F.view files.new) }
    ensures counted { budget.new ≡ left (question budget.old) }
    ensures later { IsLater budget.old budget.new }
{
    budget.ask()?; // counted, whether the files fail or not
    look_has(files, name)
}

/// The content of the file of this name; `None` if it isn't there. This is one of the 256 questions about
/// files that an evaluation may ask. It is counted first, even if the files then fail.
///
/// # Errors
///
/// `Fault` of the kind `Questions` for the 257th question: it isn't counted, and the files aren't asked.
/// `Store` and `Memory` as in `look_read`.
pub fn ask_read<F: Files>(
    files: &mut F,
    name: &Name,
    budget: &mut Budget,
) -> Result<Option<Content>, Stop<FaultKind>>
    ensures gives { AsksContent F.view name.now result budget.old files.old budget.new files.new }
    ensures noted { OnOk result (F.view files.new ≡ looked (F.view files.old) name.now) }
    ensures stops { IfErr result (AsksAndStops F.fails_with (F.view files.old) (F.view files.new)) }
    ensures asks { Asks F.fails_with result (F.view files.old) (F.view files.new) }
    ensures counted { budget.new ≡ left (question budget.old) }
    ensures later { IsLater budget.old budget.new }
{
    budget.ask()?;
    look_read(files, name)
}
