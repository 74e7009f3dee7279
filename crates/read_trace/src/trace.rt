//! A trace: the questions that were asked of files, in order, each with its answer.
ghost use Rattle.std.specs.Prelude.{◌≡◌, [], ◌∷◌, ◌++◌, OnOk, OnErr};
ghost use Rattle.read_trace.specs.Traces.{reply_of};

use mk_files::Content;
use mk_paths::Name;
use std::alloc::{AllocError, Global};
use std::marker::Model;

/// The answer to a question about a file.
#[derive(Debug, Drop)]
pub enum Reply {
    /// Whether the file is there.
    Presence(bool),
    /// The content of the file; `None` if it isn't there.
    Contents(Option<Content>),
}

/// A question about a file, with its answer. Clauses see the pair of the name and the reply.
#[derive(Debug, Drop)]
pub struct Question {
    name: Name,
    reply: Reply,
}

impl Model for Question {
    ghost use Rattle.mk_paths.specs.FilesView as asking;
    ghost use Rattle.read_trace.specs.Traces.{reply_of};

    ghost Value = { asking.Question };

    ghost view = { λ question. (question.name, reply_of question.reply) };
}

impl Question {
    /// A question of a trace: about the file of this name, which got this answer.
    pub fn new(name: Name, reply: Reply) -> Question
        ensures { result ≡ (name, reply_of reply) }
    {
        Question { name, reply }
    }

    /// The name of the file that a question of a trace is about.
    pub fn name(&self) -> &Name
        ensures { result.now ≡ self.now.0 }
    {
        &self.name
    }

    /// The answer of the files to a question of a trace.
    pub fn reply(&self) -> &Reply
        ensures { reply_of result.now ≡ self.now.1 }
    {
        &self.reply
    }
}

/// The questions that were asked of files, in order, each with its answer. Clauses see the list of them.
#[derive(Debug, Drop)]
pub struct Trace {
    questions: Vec<Question>,
}

impl Model for Trace {
    ghost use Rattle.std.specs.Prelude.{List};
    ghost use Rattle.mk_paths.specs.FilesView as asking;

    ghost Value = { List asking.Question };

    ghost view = { λ trace. trace.questions.items };
}

impl Trace {
    /// A trace without any question. It takes no memory.
    pub fn new(alloc: Global) -> Trace
        ensures { result ≡ [] }
    {
        Trace {
            questions: Vec::new(alloc),
        }
    }

    /// The questions of a trace with their answers, the first one first.
    pub fn questions(&self) -> &[Question]
        ensures { result.now ≡ self.now }
    {
        self.questions.as_slice()
    }

    /// Adds a question to a trace after the others. It fails only if memory runs out, and then nothing
    /// changes.
    pub fn add(&mut self, question: Question) -> Result<(), AllocError>
        ensures ok { OnOk result (self.new ≡ self.old ++ question ∷ []) }
        ensures err { OnErr result (self.new ≡ self.old) }
    {
        self.questions.push(question)?;
        Ok(())
    }
}
