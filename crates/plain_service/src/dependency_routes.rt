//! The routes of dependencies, `/v1/deps` and `/v1/rdeps`: their questions and replies.
ghost use Rattle.std.specs.Prelude.{Ok};
ghost use Rattle.plain_service.specs.IndexRoutes as routes;
ghost use Rattle.plain_service.specs.IndexRoutes.{dependency_reply as reply_over};
ghost use Rattle.plain_service.specs.Questions as questions;
ghost use Rattle.plain_service.specs.declared.depth.Depth.TheVariants.{Direct, All};
ghost use Rattle.plain_service.specs.Outcomes.{WritesDependencies, IfMade, RepliesOver, WritesJson, WritesOver};

use crate::depth::Depth;
use crate::index_questions::IndexQuestion;
use crate::list_bodies;
use crate::parameters::{optional, path_in};
use crate::port_routes::has_named;
use crate::questions::Question;
use crate::replies::{faulty, refusal};
use pkg_path::PkgPath;
use port_deps::RootEdge;
use port_index::KnownIndex;
use ports_http::{Content, Reply, StatusCode};
use ports_query::{Kinds, edges_to, first_edges, reached, reaching};
use std::alloc::{AllocError, Global};

/// Which way the routes of dependencies follow them.
#[derive(Clone, Copy, Debug, PartialEq, Eq)]
pub enum Direction {
    /// From a port to what it depends on.
    Dependencies,
    /// From a port to what depends on it.
    Dependents,
}

/// What is asked about the dependencies of a path.
#[derive(Drop)]
pub struct DependencyQuestion {
    /// The path of the port.
    pub path: PkgPath,
    /// The kinds of dependencies.
    pub kinds: Kinds,
    /// How far they are followed.
    pub depth: Depth,
}

/// The question of a query about the dependencies of a path. It is settled by a refusal: `Parameter` if a parameter
/// is not as it must be, `Path` if `path` is no package path, and `Kind` if `kind` or `depth` names none. It fails
/// only if memory runs out.
pub fn dependency_question(
    alloc: Global,
    direction: Direction,
    query: &str,
) -> Result<Question, AllocError>
    ensures { IfMade result (questions.dependency_question direction query.now) }
{
    match question_in(alloc, query)? {
        Ok(asked) => { Ok(Question::OfIndex(IndexQuestion::Dependencies(direction, asked))) }
        Err(refused) => Ok(Question::settled(refused)),
    }
}

/// What the query of `/v1/deps` or `/v1/rdeps` asks about a path's dependencies, or the refusal.
fn question_in(alloc: Global, query: &str) -> Result<Result<DependencyQuestion, Reply>, AllocError>
    ensures { IfMade result (routes.question_of_query query.now) }
{
    let kind = optional(alloc, query, "kind")?;
    let depth = optional(alloc, query, "depth")?;
    match (&kind, &depth) {
        (Some(kind), Some(depth)) => match path_in(alloc, query)? {
            Ok(path) => question_on(alloc, path, kind, depth),
            Err(refused) => Ok(Err(refused)),
        },
        _ => Ok(Err(refusal(alloc, StatusCode::BAD_REQUEST, "Parameter")?)),
    }
}

/// The question about a path's dependencies that the texts of kinds and a depth make, or the refusal.
fn question_on(
    alloc: Global,
    path: PkgPath,
    kind: &str,
    depth: &str,
) -> Result<Result<DependencyQuestion, Reply>, AllocError>
    ensures { IfMade result (routes.question_about path kind.now depth.now) }
{
    match (Kinds::read(kind), Depth::read(depth)) {
        (Some(kinds), Some(depth)) => Ok(Ok(DependencyQuestion { path, kinds, depth })),
        _ => Ok(Err(refusal(alloc, StatusCode::BAD_REQUEST, "Kind")?)),
    }
}

/// The reply of `/v1/deps` or `/v1/rdeps`: what a port depends on, or what depends on it. It fails only if
/// memory runs out.
pub fn dependency_reply(
    alloc: Global,
    index: &KnownIndex,
    direction: Direction,
    question: &DependencyQuestion,
) -> Result<Reply, AllocError>
    ensures { RepliesOver index.now result (λ world. reply_over world direction question.now) }
{
    match direction {
        Direction::Dependencies => dependencies_reply(alloc, index, question),
        Direction::Dependents => {
            let body = dependents_body(alloc, index, question)?;
            Ok(Reply::of_bytes(StatusCode::OK, Some(Content::Json), body))
        }
    }
}

/// The reply of `/v1/deps`: what a port depends on. The port must have the subpackage, if one is named.
fn dependencies_reply(
    alloc: Global,
    index: &KnownIndex,
    question: &DependencyQuestion,
) -> Result<Reply, AllocError>
    ensures { RepliesOver index.now result (λ world. routes.dependencies_over world question.now) }
{
    let path = question.path.port_path(alloc)?;
    let Some(root) = index.root_at(path.as_str()) else {
        return refusal(alloc, StatusCode::NOT_FOUND, "NoPort");
    };
    match root.state() {
        Err(fault) => faulty(alloc, fault),
        Ok(port) if !has_named(&question.path, port) => {
            refusal(alloc, StatusCode::NOT_FOUND, "NoSubpackage")
        }
        Ok(_port) => {
            let body = dependencies_body(alloc, index, path.as_str(), question)?;
            Ok(Reply::of_bytes(StatusCode::OK, Some(Content::Json), body))
        }
    }
}

/// The body of `/v1/deps` for the port at the question's path, which is this one without its subpackage: its
/// own dependencies, or all ports that it reaches.
fn dependencies_body(
    alloc: Global,
    index: &KnownIndex,
    path: &str,
    question: &DependencyQuestion,
) -> Result<Vec<u8>, AllocError>
    ensures { WritesDependencies index.now path.now question.now result }
{
    match question.depth {
        Depth::Direct => {
            let edges = index.edges_from(alloc, path)?;
            first_body(alloc, &edges, question)
        }
        Depth::All => match &index.edges {
            Some(edges) => reached_body(alloc, edges, question),
            None => {
                let edges = index.make_edges(alloc)?;
                reached_body(alloc, &edges, question)
            }
        },
    }
}

/// The body of `/v1/deps` at depth 1: the dependencies, out of these, of the port at the question's path.
fn first_body(
    alloc: Global,
    edges: &[RootEdge],
    question: &DependencyQuestion,
) -> Result<Vec<u8>, AllocError>
    ensures { WritesJson result (routes.dependencies_to_depth edges.now question.now Direct) }
{
    let first = first_edges(alloc, question.kinds, &question.path, edges)?;
    list_bodies::dependencies(alloc, &first)
}

/// The body of `/v1/deps` at depth `all`: the ports that the port at the question's path reaches over these
/// dependencies.
fn reached_body(
    alloc: Global,
    edges: &[RootEdge],
    question: &DependencyQuestion,
) -> Result<Vec<u8>, AllocError>
    ensures { WritesJson result (routes.dependencies_to_depth edges.now question.now All) }
{
    let paths = reached(alloc, question.kinds, &question.path, edges)?;
    list_bodies::reached(alloc, &paths)
}

/// The body of `/v1/rdeps`: what depends on the port at the question's path.
fn dependents_body(
    alloc: Global,
    index: &KnownIndex,
    question: &DependencyQuestion,
) -> Result<Vec<u8>, AllocError>
    ensures { WritesOver index.now result (λ world. routes.dependents_over world question.now) }
{
    match &index.edges {
        Some(edges) => dependents_over(alloc, edges, question),
        None => {
            let edges = index.make_edges(alloc)?;
            dependents_over(alloc, &edges, question)
        }
    }
}

/// The body of `/v1/rdeps`, given the dependencies of all ports: what depends on the port at the question's
/// path.
fn dependents_over(
    alloc: Global,
    edges: &[RootEdge],
    question: &DependencyQuestion,
) -> Result<Vec<u8>, AllocError>
    ensures { WritesJson result (routes.dependents_body_of edges.now question.now) }
{
    match question.depth {
        Depth::Direct => {
            let found = edges_to(alloc, question.kinds, &question.path, edges)?;
            list_bodies::dependents(alloc, &found)
        }
        Depth::All => {
            let paths = reaching(alloc, question.kinds, &question.path, edges)?;
            list_bodies::reaching(alloc, &paths)
        }
    }
}
