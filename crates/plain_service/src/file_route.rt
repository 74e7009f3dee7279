//! The route of files, `/v1/file`: its questions and answers.
ghost use Rattle.std.specs.Prelude.{◌≡◌};
ghost use Rattle.plain_service.specs.Answers.{file_answer, file_asked};
ghost use Rattle.plain_service.specs.Requests.{reply_alone};
ghost use Rattle.plain_service.specs.Questions as questions;
ghost use Rattle.plain_service.specs.Replies.{no_file as no_file_reply};
ghost use Rattle.plain_service.specs.Outcomes.{IfMade, Prepares};

use crate::change::{Change, Prepared};
use crate::parameters::parameter;
use crate::questions::Question;
use crate::replies::{file_shown, refusal, removed, stored};
use mk_files::Content;
use mk_paths::{Name, NameFault};
use ports_http::{Method, StatusCode};
use std::alloc::{AllocError, Global};

/// What is asked of one file of a tenant.
#[derive(Drop)]
pub enum FileQuestion {
    /// The content of the file of this name.
    Show(Name),
    /// That the file of this name is removed.
    Remove(Name),
}

/// The question about the file that the query names: that it is shown, stored with this body, or removed. It is
/// settled by the refusal `Parameter` if `name` is missing, empty or there twice, and by `Name` if it names no file.
/// It fails only if memory runs out.
pub fn file_question(
    alloc: Global,
    method: Method,
    query: &str,
    body: &[u8],
) -> Result<Question, AllocError>
    ensures { IfMade result (questions.file_question_in method body.now query.now) }
{
    let Some(text) = parameter(alloc, query, "name")? else {
        return Question::refused(alloc, StatusCode::BAD_REQUEST, "Parameter");
    };
    match Name::read(alloc, text.as_str()) {
        Ok(name) => named_file_question(alloc, method, name, body),
        Err(NameFault::Memory(refused)) => Err(refused.into()),
        Err(NameFault::BadName | NameFault::Above) => {
            Question::refused(alloc, StatusCode::BAD_REQUEST, "Name")
        }
    }
}

/// The question about the file of this name by the method of the request.
fn named_file_question(
    alloc: Global,
    method: Method,
    name: Name,
    body: &[u8],
) -> Result<Question, AllocError>
    ensures { IfMade result (questions.named_file_question method body.now name) }
{
    match method {
        Method::Get => Ok(Question::OfFile(FileQuestion::Show(name))),
        Method::Put => store_file(alloc, name, body),
        Method::Delete => Ok(Question::OfFile(FileQuestion::Remove(name))),
    }
}

/// The question of a PUT of a file, settled by the change that stores it, whether or not it was there, with
/// its reply.
fn store_file(alloc: Global, name: Name, body: &[u8]) -> Result<Question, AllocError>
    ensures { IfMade result (questions.named_file_question Method.Put body.now name) }
{
    let reply = stored(alloc)?;
    let content = Content::new(alloc, Vec::from_slice(alloc, body)?)?;
    let change = Some(Change::PutFile(name, content));
    Ok(Question::Settled(Prepared { reply, change }))
}

impl FileQuestion {
    /// The name of the file that is asked for on the route of files.
    pub fn name(&self) -> &Name
        ensures { result.now ≡ file_asked self.now }
    {
        match self {
            FileQuestion::Show(name) | FileQuestion::Remove(name) => name,
        }
    }

    /// The answer to the question about a file that has this content, or isn't there: its bytes, or the
    /// change that removes it. It fails only if memory runs out.
    pub fn answer(self, alloc: Global, content: Option<Content>) -> Result<Prepared, AllocError>
        ensures { Prepares result (file_answer self content) }
    {
        let Some(content) = content else {
            return no_file(alloc);
        };
        match self {
            FileQuestion::Show(_) => {
                Ok(Prepared::reply_alone(file_shown(alloc, content.as_slice())?))
            }
            FileQuestion::Remove(name) => {
                let reply = removed(alloc)?;
                let change = Some(Change::RemoveFile(name));
                Ok(Prepared { reply, change })
            }
        }
    }
}

/// The answer to a question about a file that isn't there: 404 `{"error":"NoFile"}`.
fn no_file(alloc: Global) -> Result<Prepared, AllocError>
    ensures { Prepares result (reply_alone no_file_reply) }
{
    let reply = refusal(alloc, StatusCode::NOT_FOUND, "NoFile")?;
    Ok(Prepared::reply_alone(reply))
}
