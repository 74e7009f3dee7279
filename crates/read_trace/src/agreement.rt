//! Whether files agree with a trace: whether they answer its questions as it says.
ghost use Rattle.std.specs.Prelude.{◌≡◌, [], IfErr, OnErr};
ghost use Rattle.std.specs.Option.{option_copied};
ghost use Rattle.mk_files.specs.AfterQuestions.{AfterFailedQuestion};
ghost use Rattle.mk_paths.specs.FilesView.{Fails};
ghost use Rattle.read_trace.specs.Agreement.{agreement, same_content};
ghost use Rattle.read_trace.specs.Agreement.{TellsIfAnswered, AsksUpTo, TellsIfReplied, AsksOneAgain};

use crate::trace::{Question, Reply, Trace};
use mk_files::{Content, Files};
use mk_paths::FilesFault;

/// Whether files agree with a trace, and how many answers were checked: all of them, or those up to the first
/// that differs. The questions are asked in the trace's order, and none is asked after one whose answer
/// differs.
///
/// If the files fail, their fault is returned as it is.
pub fn agrees<F: Files>(trace: &Trace, files: &mut F) -> Result<(bool, u64), FilesFault>
    ensures agreement { TellsIfAnswered result (F.view files.old).files trace.now }
    ensures asks { AsksUpTo result (F.view files.old) (F.view files.new) trace.now }
    ensures fails { OnErr result (AfterFailedQuestion (F.view files.old) (F.view files.new)) }
    ensures kind { IfErr result F.fails_with }
{
    let mut checked = 0;
    for question in trace.questions() {
        checked += 1;
        if !has_answer(question, files)? {
            return Ok((false, checked));
        }
    }
    Ok((true, checked))
}

/// Whether files give the answer of a trace's question.
fn has_answer<F: Files>(question: &Question, files: &mut F) -> Result<bool, FilesFault>
    ensures same { TellsIfReplied result (F.view files.old).files question.now }
    ensures asks { AsksOneAgain result (F.view files.old) (F.view files.new) question.now }
    ensures fails { OnErr result (Fails (F.view files.old) (F.view files.new)) }
    ensures kind { IfErr result F.fails_with }
{
    match question.reply() {
        Reply::Presence(there) => Ok(files.has(question.name())? == *there),
        Reply::Contents(content) => {
            let found = files.read(question.name())?;
            Ok(is_same(found.as_ref(), content.as_ref()))
        }
    }
}

/// Whether the content that files give agrees with that of a trace: both have the same bytes, or both are of
/// no file.
fn is_same(one: Option<&Content>, other: Option<&Content>) -> bool
    ensures { result ≡ same_content (option_copied one.entry) (option_copied other.entry) }
{
    match (one, other) {
        (Some(one), Some(other)) => one.as_slice() == other.as_slice(),
        (None, None) => true,
        _ => false,
    }
}
