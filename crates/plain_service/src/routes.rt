//! The routes of the service: their paths, each with its methods.
ghost use Rattle.std.specs.Prelude.{◌≡◌, OnOk, Ok};
ghost use Rattle.matchit.specs.Route.{parse_route};
ghost use Rattle.matchit.specs.Router.{InsertsRead};
ghost use Rattle.plain_service.specs.Routes.{route_of, methods_of};
ghost use Rattle.plain_service.specs.RouteRows.{rows, IsFree};

use matchit::{InsertError, Router};
use ports_http::Method;
use refusals::{Library, OutOfMemory};
use std::alloc::{AllocError, Global};

/// A route of the service: what the path of a request's target is about.
#[derive(Clone, Copy, Debug, PartialEq, Eq)]
pub enum Route {
    /// `/v1/deps`: what a port depends on.
    Deps,
    /// `/v1/faults`: the faults of ports and lists.
    Faults,
    /// `/v1/file`: one of the tenant's files.
    File,
    /// `/v1/list`: the packages that meet conditions.
    List,
    /// `/v1/match`: the packages that a spec admits.
    Match,
    /// `/v1/path`: the tenant's search path.
    Path,
    /// `/v1/port`: what a port is.
    Port,
    /// `/v1/profile`: the make language of the tenant's files.
    Profile,
    /// `/v1/rdeps`: what depends on a port.
    Rdeps,
    /// `/v1/var`: a variable of a port's makefile.
    Var,
}

impl Route {
    /// The methods of requests that the route has (RFC 9110, section 9.1).
    pub(crate) fn methods(self) -> &'static [Method]
        ensures { result.now ≡ methods_of self }
    {
        match self {
            Route::File => &[Method::Get, Method::Put, Method::Delete],
            Route::Path | Route::Profile => &[Method::Put],
            _ => &[Method::Get],
        }
    }
}

/// The routes of the service by their paths.
#[derive(Drop)]
pub struct Routes {
    router: Router<Route>,
    ghost fixed: { router ≡ rows },
}

impl Routes {
    /// The routes of the service, in the order of their paths' bytes. It fails only if memory runs out.
    pub fn new(alloc: Global) -> Result<Routes, AllocError> {
        let mut router = Router::new(alloc);
        add(&mut router, "/v1/deps", Route::Deps)?;
        add(&mut router, "/v1/faults", Route::Faults)?;
        add(&mut router, "/v1/file", Route::File)?;
        add(&mut router, "/v1/list", Route::List)?;
        add(&mut router, "/v1/match", Route::Match)?;
        add(&mut router, "/v1/path", Route::Path)?;
        add(&mut router, "/v1/port", Route::Port)?;
        add(&mut router, "/v1/profile", Route::Profile)?;
        add(&mut router, "/v1/rdeps", Route::Rdeps)?;
        add(&mut router, "/v1/var", Route::Var)?;
        Ok(Routes { router })
    }

    /// The route of the path of a request's target, which is compared as it is written. `None` if there is no
    /// such route.
    pub fn find(&self, path: &str) -> Option<Route>
        ensures { result ≡ route_of path.now }
    {
        match self.router.at(path) {
            Ok(found) => Some(*found.value),
            Err(_missing) => None,
        }
    }
}

/// The router's library. There are no values of it: it stands for the errors of its calls.
enum Matchit {}

impl Library for Matchit {
    ghost use Rattle.std.specs.Prelude.{◌≡◌};
    ghost use Rattle.matchit.specs.declared.error.InsertError.TheVariants.{OutOfMemory};

    type Error = InsertError;

    ghost for_memory = { λ error. error ≡ OutOfMemory };

    /// Whether the router refused a route since memory ran out.
    fn is_for_memory(error: &InsertError) -> bool {
        matches!(error, InsertError::OutOfMemory)
    }
}

/// Adds a route of the service that reads well and conflicts with no earlier one.
fn add(router: &mut Router<Route>, path: &str, route: Route) -> Result<(), AllocError>
    requires { IsFree path.now router.old }
    ensures { OnOk result (InsertsRead (parse_route path.now) route router.old router.new (Ok tt)) }
{
    match router.insert(path, route) {
        Ok(()) => Ok(()),
        Err(error) => match OutOfMemory::told_by::<Matchit>(&error) {
            Some(refused) => Err(refused.into()),
            None => unreachable!(), // nothing else refuses it
        },
    }
}
