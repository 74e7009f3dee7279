//! The replies of the plain service to questions, and its refusals.
ghost use Rattle.std.specs.Prelude.{◌≡◌, false};
ghost use Rattle.std.specs.Option.{option_copied};
ghost use Rattle.serde_json.specs.View.{view};
ghost use Rattle.serde_json.specs.Written.{has_float};
ghost use Rattle.plain_service.specs.Replies.{json_reply as json_reply_of, refusal as refusal_of};
ghost use Rattle.plain_service.specs.Replies.{not_allowed as not_allowed_on, storage_full as full_reply};
ghost use Rattle.plain_service.specs.Replies.{faulty as faulty_at, file_shown as file_shown_as, stored as stored_reply};
ghost use Rattle.plain_service.specs.Replies.{removed as removed_reply, path_set as path_set_to};
ghost use Rattle.plain_service.specs.Replies.{profile_set as profile_set_to, variable_shown as variable_reply, port_shown};
ghost use Rattle.plain_service.specs.Outcomes.{IfMade};

use crate::routes::Route;
use crate::{bodies, port_bodies};
use mk_base::Fault;
use mk_text::Profile;
use pkg_path::PkgPath;
use port_rules::PortRecord;
use ports_http::{Content, Reply, StatusCode};
use serde_json::Value;
use std::alloc::{AllocError, Global};

/// The reply of this status whose body is a JSON value. It fails only if memory runs out.
pub fn json_reply(alloc: Global, status: StatusCode, value: &Value) -> Result<Reply, AllocError>
    requires { has_float (view value.now) ≡ false }
    ensures { IfMade result (json_reply_of status (view value.now)) }
{
    let text = value.to_string(alloc)?;
    Ok(Reply::of_bytes(status, Some(Content::Json), text.into_bytes()))
}

/// The reply of this status that refuses a request by this word. It fails only if memory runs out.
pub fn refusal(alloc: Global, status: StatusCode, word: &str) -> Result<Reply, AllocError>
    ensures { IfMade result (refusal_of status word.now) }
{
    let body = bodies::error(alloc, word)?;
    json_reply(alloc, status, &body)
}

/// The reply to a method that the route doesn't have, 405 with the methods that it has. It fails only if
/// memory runs out.
pub fn not_allowed(alloc: Global, route: Route) -> Result<Reply, AllocError>
    ensures { IfMade result (not_allowed_on route) }
{
    let reply = refusal(alloc, StatusCode::METHOD_NOT_ALLOWED, "Method")?;
    Ok(reply.with_allow(route.methods()))
}

/// The reply to a PUT of a file that would leave its tenant with more than 2,000 files, or with more than
/// 8,388,608 bytes of contents: 409 `{"error":"Full"}`. Whoever carries out the change finds that out, and
/// then changes nothing. It fails only if memory runs out.
pub fn full(alloc: Global) -> Result<Reply, AllocError>
    ensures { IfMade result full_reply }
{
    refusal(alloc, StatusCode::CONFLICT, "Full")
}

/// The reply about a makefile at fault: 422 with the fault. It fails only if memory runs out.
pub fn faulty(alloc: Global, fault: &Fault) -> Result<Reply, AllocError>
    ensures { IfMade result (faulty_at fault.now) }
{
    let body = bodies::fault(alloc, fault.kind().number(), fault.line(), fault.name())?;
    json_reply(alloc, StatusCode::UNPROCESSABLE_ENTITY, &body)
}

/// The reply with the content of a file, 200. It fails only if memory runs out.
pub fn file_shown(alloc: Global, content: &[u8]) -> Result<Reply, AllocError>
    ensures { IfMade result (file_shown_as content.now) }
{
    let body = Vec::from_slice(alloc, content)?;
    Ok(Reply::of_bytes(StatusCode::OK, Some(Content::Octets), body))
}

/// The reply that a file was stored, 200. It fails only if memory runs out.
pub fn stored(alloc: Global) -> Result<Reply, AllocError>
    ensures { IfMade result stored_reply }
{
    let body = bodies::stored(alloc)?;
    json_reply(alloc, StatusCode::OK, &body)
}

/// The reply that a file was removed, 200. It fails only if memory runs out.
pub fn removed(alloc: Global) -> Result<Reply, AllocError>
    ensures { IfMade result removed_reply }
{
    let body = bodies::removed(alloc)?;
    json_reply(alloc, StatusCode::OK, &body)
}

/// The reply that the search path was set, 200. It fails only if memory runs out.
pub fn path_set(alloc: Global, path: &str) -> Result<Reply, AllocError>
    ensures { IfMade result (path_set_to path.now) }
{
    let body = bodies::path(alloc, path)?;
    json_reply(alloc, StatusCode::OK, &body)
}

/// The reply that the profile was set, 200. It fails only if memory runs out.
pub fn profile_set(alloc: Global, profile: Profile) -> Result<Reply, AllocError>
    ensures { IfMade result (profile_set_to profile) }
{
    let body = bodies::profile(alloc, profile.number())?;
    json_reply(alloc, StatusCode::OK, &body)
}

/// The reply with the value of a variable, or that it isn't defined, 200. It fails only if memory runs out.
pub fn variable(alloc: Global, value: Option<&str>) -> Result<Reply, AllocError>
    ensures { IfMade result (variable_reply (option_copied value.entry)) }
{
    let body = bodies::variable(alloc, value)?;
    json_reply(alloc, StatusCode::OK, &body)
}

/// The reply with what the port is that a path names, 200. It fails only if memory runs out.
pub fn port(alloc: Global, path: &PkgPath, port: &PortRecord) -> Result<Reply, AllocError>
    ensures { IfMade result (port_shown path.now port.now) }
{
    let body = port_bodies::port(alloc, path, port)?;
    Ok(Reply::of_bytes(StatusCode::OK, Some(Content::Json), body))
}
