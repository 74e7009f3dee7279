//! The plain service: what each request means, as the question that it asks.
ghost use Rattle.plain_service.specs.Requests.{plain_request};
ghost use Rattle.plain_service.specs.Questions as questions;
ghost use Rattle.plain_service.specs.Questions.{question_of};
ghost use Rattle.plain_service.specs.Outcomes.{IfMade};

use crate::dependency_routes::{Direction, dependency_question};
use crate::file_route::file_question;
use crate::index_questions::IndexQuestion;
use crate::list_routes::{list_question, match_question};
use crate::path_route::path_question;
use crate::port_routes::{port_question, variable_question};
use crate::profile_route::profile_question;
use crate::questions::Question;
use crate::replies::not_allowed;
use crate::routes::{Route, Routes};
use crate::target::path_and_query;
use ports_http::{Method, StatusCode};
use std::alloc::{AllocError, Global};

/// The plain service: its routes, made once. It holds nothing of a tenant.
#[derive(Drop)]
pub struct Plain {
    routes: Routes,
}

impl Plain {
    /// The plain service, with its routes. It fails only if memory runs out.
    pub fn new(alloc: Global) -> Result<Plain, AllocError> {
        Ok(Plain {
            routes: Routes::new(alloc)?,
        })
    }

    /// What a request asks, with every refusal of its form. It fails only if memory runs out.
    ///
    /// `/v1/file?name=N` is about the file that N names. `GET` gives its bytes. `PUT` stores the body, in
    /// bytes, as that file: 200 `{"stored":true}`. `DELETE` removes it: 200 `{"removed":true}`. If the
    /// file isn't there, `GET` and `DELETE` give 404 `{"error":"NoFile"}`. If N names no file, each gives
    /// 400 `{"error":"Name"}`. If the tenant would have more than it may, whoever carries out a `PUT`
    /// answers `full` in its place.
    ///
    /// `PUT /v1/path` sets the trees that are searched for ports: those that the body names, without the
    /// blanks and line feeds at its ends. It gives 200 `{"path":P}`. If the body names no search path, it
    /// gives 400 `{"error":"Path"}`.
    ///
    /// `PUT /v1/profile` sets the make language of the tenant's files: the body, without the blanks and line
    /// feeds at its ends, is its number, 1 or 2. It gives 200 `{"profile":N}`. Any other body gives 400
    /// `{"error":"Profile"}`.
    ///
    /// `GET /v1/var?path=P&name=V` gives the variable V of the port with the package path P, in the first
    /// tree that has its directory, evaluated with P's flavors. A subpackage in P doesn't count. The reply
    /// is 200 `{"defined":B,"value":T}`, and T is empty if V isn't defined. If P is no package path, it is
    /// 400 `{"error":"Path"}`. If no tree has the port's makefile, it is 404 `{"error":"NoPort"}`. If the
    /// makefile or the value is at fault, it is 422 `{"error":"Fault","kind":K,"line":L,"name":N}`.
    ///
    /// `GET /v1/port?path=P` gives what the port is: 200 with its record (`docs/PACKAGES.md`). It is
    /// refused in the same way as `/v1/var`. It also gives 404 `{"error":"NoPort"}` if the makefile
    /// describes no port, and 422 if the record is at fault. After these it gives 404
    /// `{"error":"NoSubpackage"}` if the port doesn't have P's subpackage.
    ///
    /// `GET` of `/v1/list`, `/v1/match`, `/v1/deps`, `/v1/rdeps` and `/v1/faults` asks all ports
    /// at once (`docs/HTTP.md`).
    ///
    /// Three refusals come before these, in this order. Any other path gives 404 `{"error":"Route"}`. Any
    /// other method gives 405 `{"error":"Method"}` with the route's methods. A parameter of the route
    /// that is missing, empty or there twice gives 400 `{"error":"Parameter"}`; but `where`, `kind` and
    /// `depth` may be missing or empty. Parameters are read as forms are (URL Standard), and statuses are those of RFC
    /// 9110.
    #[tactic(auto, unfolding(crate::specs::Questions::question_of))]
    pub fn question(
        &self,
        alloc: Global,
        method: Method,
        target: &str,
        body: &[u8],
    ) -> Result<Question, AllocError>
        ensures { IfMade result (question_of (plain_request method target.now body.now)) }
    {
        let (path, query) = path_and_query(target);
        let Some(route) = self.routes.find(path) else {
            return Question::refused(alloc, StatusCode::NOT_FOUND, "Route");
        };
        match route {
            Route::File => file_question(alloc, method, query, body),
            Route::Path => path_question(alloc, method, body),
            Route::Profile => profile_question(alloc, method, body),
            Route::Deps
            | Route::Faults
            | Route::List
            | Route::Match
            | Route::Port
            | Route::Rdeps
            | Route::Var => query_question(alloc, route, method, query),
        }
    }
}

/// The question of a request on a route that is asked by the query of its target.
fn query_question(
    alloc: Global,
    route: Route,
    method: Method,
    query: &str,
) -> Result<Question, AllocError>
    ensures { IfMade result (questions.query_question query.now route method) }
{
    match method {
        Method::Get => get_question(alloc, route, query),
        Method::Put | Method::Delete => Ok(Question::settled(not_allowed(alloc, route)?)),
    }
}

/// The question of a GET request on a route that is asked by a query.
fn get_question(alloc: Global, route: Route, query: &str) -> Result<Question, AllocError>
    ensures { IfMade result (questions.get_question query.now route) }
{
    match route {
        Route::Deps => dependency_question(alloc, Direction::Dependencies, query),
        Route::Faults => Ok(Question::OfIndex(IndexQuestion::Faults)),
        Route::List => list_question(alloc, query),
        Route::Match => match_question(alloc, query),
        Route::Port => port_question(alloc, query),
        Route::Rdeps => dependency_question(alloc, Direction::Dependents, query),
        Route::Var => variable_question(alloc, query),
        Route::File | Route::Path | Route::Profile => Ok(Question::settled(not_allowed(
            alloc, route,
        )?)),
    }
}
