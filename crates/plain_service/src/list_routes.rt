//! The routes of lists, of packages and of faults: `/v1/list`, `/v1/match` and `/v1/faults`.
ghost use Rattle.std.specs.Prelude.{◌≡◌};
ghost use Rattle.plain_service.specs.IndexRoutes as routes;
ghost use Rattle.plain_service.specs.Questions as questions;
ghost use Rattle.ports_query.specs.ListedPackages.{admits_one};
ghost use Rattle.plain_service.specs.Outcomes.{IfMade, RepliesOver};

use crate::index_questions::IndexQuestion;
use crate::list_bodies;
use crate::parameters::{optional, parameter};
use crate::questions::Question;
use pkg_spec::{Spec, SpecFault};
use port_index::KnownIndex;
use port_rules::PortRecord;
use ports_http::{Content, Reply, StatusCode};
use ports_query::{Listed, Query, QueryFault, admits_one, admitted, answer};
use std::alloc::{AllocError, Global};

/// The question about the packages that meet the conditions that the query gives as `where`. It is settled by the
/// refusal `Parameter` if `where` is there twice, and by `Query` if it has no conditions. It fails only if memory
/// runs out.
pub fn list_question(alloc: Global, query: &str) -> Result<Question, AllocError>
    ensures { IfMade result (questions.list_question query.now) }
{
    let Some(text) = optional(alloc, query, "where")? else {
        return Question::refused(alloc, StatusCode::BAD_REQUEST, "Parameter");
    };
    match Query::read(alloc, text.as_str()) {
        Ok(conditions) => Ok(Question::OfIndex(IndexQuestion::List(conditions))),
        Err(QueryFault::Memory(refused)) => Err(refused.into()),
        Err(QueryFault::BadQuery) => { Question::refused(alloc, StatusCode::BAD_REQUEST, "Query") }
    }
}

/// The reply of `/v1/list`: the packages that meet all these conditions. It fails only if memory runs out.
pub fn list_reply(
    alloc: Global,
    index: &KnownIndex,
    conditions: &Query,
) -> Result<Reply, AllocError>
    ensures { RepliesOver index.now result (λ world. routes.list_reply world conditions.now) }
{
    let roots = index.roots(alloc)?;
    let packages = answer(alloc, conditions, &roots)?;
    packages_reply(alloc, &packages)
}

/// The question about the packages that are admitted by the spec that the query gives as `spec`. It is settled by
/// the refusal `Parameter` if `spec` is missing, empty or there twice, and by `Spec` if it is no spec. It fails only
/// if memory runs out.
pub fn match_question(alloc: Global, query: &str) -> Result<Question, AllocError>
    ensures { IfMade result (questions.match_question query.now) }
{
    let Some(text) = parameter(alloc, query, "spec")? else {
        return Question::refused(alloc, StatusCode::BAD_REQUEST, "Parameter");
    };
    match Spec::read(alloc, text.as_str()) {
        Ok(spec) => Ok(Question::OfIndex(IndexQuestion::Match(spec))),
        Err(SpecFault::Memory(refused)) => Err(refused.into()),
        Err(_) => Question::refused(alloc, StatusCode::BAD_REQUEST, "Spec"),
    }
}

/// The reply of `/v1/match`: the packages that a spec admits. It fails only if memory runs out.
pub fn match_reply(alloc: Global, index: &KnownIndex, spec: &Spec) -> Result<Reply, AllocError>
    ensures { RepliesOver index.now result (λ world. routes.match_reply world spec.now) }
{
    let ports = index.ports_that(
        alloc,
        |port: &PortRecord| -> bool
            ensures { result ≡ admits_one spec.entry.now port.now }
        { admits_one(spec, port) },
    )?;
    let packages = admitted(alloc, spec, &ports)?;
    packages_reply(alloc, &packages)
}

/// The reply of `/v1/list` or `/v1/match` that lists these packages.
fn packages_reply(alloc: Global, packages: &[Listed<'_>]) -> Result<Reply, AllocError>
    ensures { IfMade result (routes.packages_reply packages.now) }
{
    let body = list_bodies::packages(alloc, packages)?;
    Ok(Reply::of_bytes(StatusCode::OK, Some(Content::Json), body))
}

/// The reply of `/v1/faults`: the faults of ports and lists. It fails only if memory runs out.
pub fn faults_reply(alloc: Global, index: &KnownIndex) -> Result<Reply, AllocError>
    ensures { RepliesOver index.now result (λ world. routes.faults_reply world) }
{
    let roots = index.roots(alloc)?;
    let body = list_bodies::faults(alloc, &roots)?;
    Ok(Reply::of_bytes(StatusCode::OK, Some(Content::Json), body))
}
