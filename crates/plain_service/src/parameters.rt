//! The parameters in the query of a request's target.
ghost use Rattle.plain_service.specs.Parameters as parameters;
ghost use Rattle.plain_service.specs.ParametersSeen.{GivesParameter, SaysTimes};
ghost use Rattle.plain_service.specs.PathParameter.{path_in as path_in_query};
ghost use Rattle.plain_service.specs.Outcomes.{IfMade};

use crate::replies::refusal;
use form_urlencoded::parse;
use pkg_path::{PkgPath, PkgPathFault};
use ports_http::{Reply, StatusCode};
use std::alloc::{AllocError, Global};
use std::borrow::CowStr;

/// How often the query of a target has a parameter.
#[derive(Drop)]
enum Found<'a> {
    Never,
    Once(CowStr<'a>),
    Often,
}

/// The value of a query's one parameter of this name, decoded. `None` if it is missing, empty or there more
/// than once. It doesn't matter which other names the query has. It fails only if memory runs out.
pub fn parameter<'a>(
    alloc: Global,
    query: &'a str,
    name: &str,
) -> Result<Option<CowStr<'a>>, AllocError>
    ensures { GivesParameter result (parameters.parameter name.now query.now) }
{
    match find(alloc, query, name)? {
        Found::Once(value) if !value.as_str().is_empty() => Ok(Some(value)),
        _ => Ok(None),
    }
}

/// The value of a query's one parameter of this name, decoded, and an empty text if it is missing. `None` if
/// it is there more than once. It fails only if memory runs out.
pub fn optional<'a>(
    alloc: Global,
    query: &'a str,
    name: &str,
) -> Result<Option<CowStr<'a>>, AllocError>
    ensures { GivesParameter result (parameters.optional name.now query.now) }
{
    match find(alloc, query, name)? {
        Found::Never => Ok(Some(CowStr::Borrowed(""))),
        Found::Once(value) => Ok(Some(value)),
        Found::Often => Ok(None),
    }
}

/// The package path that the parameter `path` of a query names, or the refusal: `Parameter` if it is missing,
/// empty or there twice, and `Path` if it is no package path. It fails only if memory runs out.
pub fn path_in(alloc: Global, query: &str) -> Result<Result<PkgPath, Reply>, AllocError>
    ensures { IfMade result (path_in_query query.now) }
{
    let Some(text) = parameter(alloc, query, "path")? else {
        return Ok(Err(refusal(alloc, StatusCode::BAD_REQUEST, "Parameter")?));
    };
    match PkgPath::read(alloc, text.as_str()) {
        Ok(path) => Ok(Ok(path)),
        Err(PkgPathFault::Memory(refused)) => Err(refused.into()),
        Err(_) => Ok(Err(refusal(alloc, StatusCode::BAD_REQUEST, "Path")?)),
    }
}

/// How often a query has the parameter of this name, and its value, decoded.
fn find<'a>(alloc: Global, query: &'a str, name: &str) -> Result<Found<'a>, AllocError>
    ensures { SaysTimes result name.now query.now }
{
    let mut found: Option<CowStr<'a>> = None;
    for pair in parse(alloc, query.as_bytes()) {
        let (written, value) = pair?;
        if written.as_str() == name {
            if found.is_some() {
                return Ok(Found::Often);
            }
            found = Some(value);
        }
    }
    match found {
        Some(value) => Ok(Found::Once(value)),
        None => Ok(Found::Never),
    }
}
