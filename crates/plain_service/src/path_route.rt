//! The route of the search path, `/v1/path`.
ghost use Rattle.plain_service.specs.SettingAnswers.{set_path as set_path_of, set_trees as set_trees_of};
ghost use Rattle.plain_service.specs.Requests.{reply_alone};
ghost use Rattle.plain_service.specs.Questions as questions;
ghost use Rattle.plain_service.specs.Replies.{bad_path as bad_path_reply};
ghost use Rattle.mk_paths.specs.SearchPath.{search_path};
ghost use Rattle.plain_service.specs.Outcomes.{IfMade, Prepares};

use crate::change::{Change, Prepared};
use crate::questions::Question;
use crate::replies::{not_allowed, path_set, refusal};
use crate::routes::Route;
use crate::spaces::trimmed;
use mk_paths::{PathFault, SearchPath};
use ports_http::{Method, StatusCode};
use std::alloc::{AllocError, Global};

/// The question about the search path, which a PUT sets and nothing shows. It is settled by the refusal `Path` if
/// the body of a PUT names no search path, and by `Method` for any other method. It fails only if memory runs out.
pub fn path_question(alloc: Global, method: Method, body: &[u8]) -> Result<Question, AllocError>
    ensures { IfMade result (questions.path_question body.now method) }
{
    match method {
        Method::Put => Ok(Question::Settled(set_path(alloc, body)?)),
        Method::Get | Method::Delete => Ok(Question::settled(not_allowed(alloc, Route::Path)?)),
    }
}

/// The change that sets the search path in the body of a PUT, without the blanks and line feeds at its ends.
fn set_path(alloc: Global, body: &[u8]) -> Result<Prepared, AllocError>
    ensures { Prepares result (set_path_of body.now) }
{
    match str::from_utf8(trimmed(body)) {
        Ok(text) => set_trees(alloc, text),
        Err(_error) => bad_path(alloc),
    }
}

/// The change that sets the search path that a text names, with its reply; or the refusal `Path`.
fn set_trees(alloc: Global, text: &str) -> Result<Prepared, AllocError>
    ensures { Prepares result (set_trees_of text.now (search_path text.now)) }
{
    match SearchPath::read(alloc, text) {
        Ok(trees) => Ok(Prepared {
            reply: path_set(alloc, text)?,
            change: Some(Change::SetPath(trees)),
        }),
        Err(PathFault::Memory(refused)) => Err(refused.into()),
        Err(PathFault::BadPath) => bad_path(alloc),
    }
}

/// The answer to a body that names no search path: 400 `{"error":"Path"}`.
fn bad_path(alloc: Global) -> Result<Prepared, AllocError>
    ensures { Prepares result (reply_alone bad_path_reply) }
{
    let reply = refusal(alloc, StatusCode::BAD_REQUEST, "Path")?;
    Ok(Prepared::reply_alone(reply))
}
