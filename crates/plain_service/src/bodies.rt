//! The short bodies of replies, as JSON values.
ghost use Rattle.std.specs.Prelude.{◌≡◌, IfOk};
ghost use Rattle.std.specs.Option.{option_copied};
ghost use Rattle.serde_json.specs.View.{view};
ghost use Rattle.plain_service.specs.Bodies.{stored_body, removed_body, path_body, profile_body};
ghost use Rattle.plain_service.specs.Bodies.{error_body, fault_body, variable_body};

use serde_json::{Value, json};
use std::alloc::{AllocError, Global};

/// The JSON value in the reply to a file that was stored. It fails only if memory runs out.
pub fn stored(alloc: Global) -> Result<Value, AllocError>
    ensures { IfOk result (λ value. view value ≡ stored_body) }
{
    json!(in alloc; {"stored": true})
}

/// The JSON value in the reply to a file that was removed. It fails only if memory runs out.
pub fn removed(alloc: Global) -> Result<Value, AllocError>
    ensures { IfOk result (λ value. view value ≡ removed_body) }
{
    json!(in alloc; {"removed": true})
}

/// The JSON value in the reply to a search path that was set. It fails only if memory runs out.
pub fn path(alloc: Global, path: &str) -> Result<Value, AllocError>
    ensures { IfOk result (λ value. view value ≡ path_body path.now) }
{
    json!(in alloc; {"path": path})
}

/// The JSON value in the reply to a profile that was set. It fails only if memory runs out.
pub fn profile(alloc: Global, profile: u32) -> Result<Value, AllocError>
    ensures { IfOk result (λ value. view value ≡ profile_body profile) }
{
    json!(in alloc; {"profile": profile})
}

/// The JSON value in a refusal: the word that names it. It fails only if memory runs out.
pub fn error(alloc: Global, word: &str) -> Result<Value, AllocError>
    ensures { IfOk result (λ value. view value ≡ error_body word.now) }
{
    json!(in alloc; {"error": word})
}

/// The JSON value in the reply to a fault of a makefile: the number of its kind, and the line and the file
/// where it arose. It fails only if memory runs out.
pub fn fault(alloc: Global, kind: u8, line: u64, name: &str) -> Result<Value, AllocError>
    ensures { IfOk result (λ value. view value ≡ fault_body kind line name.now) }
{
    json!(in alloc; {"error": "Fault", "kind": kind, "line": line, "name": name})
}

/// The JSON value in the reply about a variable: whether it is defined, and its value. It fails only if
/// memory runs out.
pub fn variable(alloc: Global, value: Option<&str>) -> Result<Value, AllocError>
    ensures { IfOk result (λ body. view body ≡ variable_body (option_copied value.entry)) }
{
    json!(in alloc; {"defined": value.is_some(), "value": value.unwrap_or("")})
}
