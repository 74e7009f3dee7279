//! The recorder: files that write down in a trace what they are asked, with each answer.
ghost use Rattle.std.specs.Prelude.{◌≡◌, Some, [], IfErr, OnErr, true};
ghost use Rattle.mk_paths.specs.FilesView.{Presence, Contents, Fails};
ghost use Rattle.read_trace.specs.Agreement.{IsAnswered, MakesQuestion, has_reply};

use crate::trace::{Question, Reply, Trace};
use mk_files::{Content, Files, Listing};
use mk_paths::{FilesFault, Name, Names};
use std::alloc::{AllocError, Global};
use std::mem;

/// Files that write down each question with its answer, also if a file isn't there. They answer as the
/// files do that they ask. They fail if these fail, or if there is no memory for the trace.
#[derive(Drop)]
pub struct Recorder<F: Files + Drop> {
    alloc: Global,
    files: F,
    trace: Trace,
    failures: u64,
    // each question in the trace has the answer that the files give
    ghost is_answered: { IsAnswered (F.view files).files trace },
}

impl<F: Files + Drop> Recorder<F> {
    ghost use Rattle.mk_eval.specs.Agreement.{Agrees};
    ghost use Rattle.read_trace.specs.Recorder.{view_of, asked_files, recording, log_of, with_trace};
    ghost use Rattle.read_trace.specs.Recorder.{HasContent, NotesOne, NotesContent};

    /// A recorder over these files, which goes on with this trace, whose answers are those of the files. It
    /// takes no memory.
    pub fn new(alloc: Global, files: F, trace: Trace) -> Recorder<F>
        requires { IsAnswered (F.view files).files trace }
        ensures { view_of F.view result ≡ recording (F.view files) trace }
    {
        Recorder {
            alloc,
            files,
            trace,
            failures: 0,
        }
    }

    /// The trace that a recorder has written: what its files were asked.
    pub fn into_trace(self) -> Trace
        ensures { log_of F.view self ≡ Some result }
    {
        let Recorder { trace, .. } = self;
        trace
    }

    /// Takes the trace so far out of a recorder. After that nothing was asked, as far as the recorder's trace
    /// says.
    pub fn take_trace(&mut self) -> Trace
        ensures trace { log_of F.view self.old ≡ Some result }
        ensures rest { view_of F.view self.new ≡ with_trace (view_of F.view self.old) [] }
        ensures answered { Agrees (view_of F.view self.old).files result }
    {
        mem::replace(&mut self.trace, Trace::new(self.alloc))
    }

    /// The recorder goes on with this trace, whose answers are those of its files. What was written down
    /// before is dropped.
    pub fn go_on(&mut self, trace: Trace)
        requires { Agrees (view_of F.view self.old).files trace }
        ensures { view_of F.view self.new ≡ with_trace (view_of F.view self.old) trace }
    {
        self.trace = trace;
    }

    /// Writes down in the trace whether a file was there. If memory runs out, nothing changes.
    fn note_presence(&mut self, name: &Name, there: bool) -> Result<(), AllocError>
        requires { has_reply (view_of F.view self.old).files (name.now, Presence there) ≡ true }
        ensures ok { NotesOne F.view result self.old self.new (name.now, Presence there) }
        ensures err { OnErr result (view_of F.view self.new ≡ view_of F.view self.old) }
        ensures asked { asked_files F.view self.new ≡ asked_files F.view self.old }
    {
        let name = name.copy(self.alloc)?;
        self.note(Question::new(name, Reply::Presence(there)))
    }

    /// Writes down in the trace the content of a file, which the trace then shares, or that the file wasn't
    /// there. If memory runs out, nothing changes.
    fn note_content(&mut self, name: &Name, content: Option<&Content>) -> Result<(), AllocError>
        requires { HasContent (view_of F.view self.old).files name.now content }
        ensures ok { NotesContent F.view result self.old self.new name.now content.entry }
        ensures err { OnErr result (view_of F.view self.new ≡ view_of F.view self.old) }
        ensures asked { asked_files F.view self.new ≡ asked_files F.view self.old }
    {
        let question = content_question(self.alloc, name, content)?;
        self.note(question)
    }

    /// Writes down in the recorder's trace a question with the answer that the files give. If memory runs
    /// out, nothing changes.
    fn note(&mut self, question: Question) -> Result<(), AllocError>
        requires { has_reply (view_of F.view self.old).files question ≡ true }
        ensures ok { NotesOne F.view result self.old self.new question }
        ensures err { OnErr result (view_of F.view self.new ≡ view_of F.view self.old) }
        ensures asked { asked_files F.view self.new ≡ asked_files F.view self.old }
    {
        self.trace.add(question)
    }

    /// Counts one more question to a recorder's files that failed, with this fault.
    fn failed(&mut self, fault: FilesFault) -> FilesFault
        ensures counted { Fails (view_of F.view self.old) (view_of F.view self.new) }
        ensures fault { result ≡ fault }
        ensures asked { asked_files F.view self.new ≡ asked_files F.view self.old }
    {
        self.failures = self.failures.saturating_add(1);
        fault
    }
}

/// A question for the trace about the content of a file, which it shares, or about a file that wasn't there.
fn content_question(
    alloc: Global,
    name: &Name,
    content: Option<&Content>,
) -> Result<Question, AllocError>
    ensures { MakesQuestion result name.now content.entry }
{
    let name = name.copy(alloc)?;
    let shared = match content {
        Some(content) => Some(content.share()?),
        None => None,
    };
    Ok(Question::new(name, Reply::Contents(shared)))
}

impl<F: Files + Drop> Names for Recorder<F> {
    ghost use Rattle.read_trace.specs.Recorder.{AnswersSeen, AsksFilesOnce, MayFail, view_of};

    ghost view = { view_of F.view };

    ghost fails_with = { MayFail F.fails_with };

    /// Whether a file of this name is there, with the answer written down in the trace. The files are asked
    /// exactly once.
    fn has(&mut self, name: &Name) -> Result<bool, FilesFault>
        ensures answer { AnswersSeen F.view Presence result self.old self.new name.now }
        ensures fault { OnErr result (Fails (view_of F.view self.old) (view_of F.view self.new)) }
        ensures kind { IfErr result (MayFail F.fails_with) }
        ensures once { AsksFilesOnce F.Names Presence self.old self.new name.now result }
    {
        match self.files.has(name) {
            Ok(there) => match self.note_presence(name, there) {
                Ok(()) => Ok(there),
                Err(error) => Err(self.failed(FilesFault::from(error))),
            },
            Err(fault) => Err(self.failed(fault)),
        }
    }
}

impl<F: Files + Drop> Files for Recorder<F> {
    ghost use Rattle.read_trace.specs.Recorder.{AnswersSeen, AsksFilesOnce, MayFail, view_of};

    /// The content of the file of this name, with the answer written down in the trace; `None` if it isn't
    /// there. The files are asked exactly once.
    fn read(&mut self, name: &Name) -> Result<Option<Content>, FilesFault>
        ensures answer { AnswersSeen F.view Contents result self.old self.new name.now }
        ensures fault { OnErr result (Fails (view_of F.view self.old) (view_of F.view self.new)) }
        ensures kind { IfErr result (MayFail F.fails_with) }
        ensures once { AsksFilesOnce F.Names Contents self.old self.new name.now result }
    {
        match self.files.read(name) {
            Ok(content) => match self.note_content(name, content.as_ref()) {
                Ok(()) => Ok(content),
                Err(error) => Err(self.failed(FilesFault::from(error))),
            },
            Err(fault) => Err(self.failed(fault)),
        }
    }
}

impl<F: Listing + Drop> Listing for Recorder<F> {
    /// The names of all files under a recorder. Listing isn't a question, so nothing is written down.
    fn names(&mut self, alloc: Global) -> Result<Vec<String>, FilesFault> {
        match self.files.names(alloc) {
            Ok(names) => Ok(names),
            Err(fault) => Err(self.failed(fault)),
        }
    }
}
