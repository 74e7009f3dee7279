//! Requests of HTTP, as they are cut from a connection's bytes.
ghost use Rattle.std.specs.Prelude.{◌≡◌};
ghost use Rattle.refusals.specs.Refused.{refused};
ghost use Rattle.ports_http.specs.declared.request.TakeError.TheVariants.{Memory};

use crate::method::Method;
use refusals::OutOfMemory;
use std::alloc::AllocError;
use std::error::Error;
use std::fmt;
use std::marker::Model;

/// A request of HTTP. A contract sees it as a `RequestMessage`.
#[derive(Drop)]
pub struct Request {
    pub method: Method,
    /// The request target as it is written in the head.
    pub target: String,
    /// The bytes that Content-Length announces; none without it.
    pub body: Vec<u8>,
    /// The value of `X-Ports-Key`, if there is exactly one.
    pub key: Option<Vec<u8>>,
    /// Whether the connection ends after the request: with HTTP/1.0, or by `Connection: close`.
    pub close: bool,
}

impl Model for Request {
    ghost use Rattle.ports_http.specs.Messages.{RequestMessage};

    ghost Value = { RequestMessage };

    ghost use Rattle.ports_http.specs.RequestView.{request_view};

    ghost view = { request_view };
}

/// Why no request could be handed out.
#[derive(Clone, Copy, Debug, PartialEq, Eq)]
pub enum TakeError {
    /// There was no memory for the request. Its bytes are lost; `close` is what the request said.
    Memory { close: bool, refused: OutOfMemory },
}

impl TakeError {
    /// The error that a request with this `close` is lost, since there was no memory for it.
    pub(crate) fn lost(close: bool, error: AllocError) -> TakeError
        ensures { result ≡ Memory close refused }
    {
        TakeError::Memory {
            close,
            refused: OutOfMemory::from(error),
        }
    }
}

impl fmt::Display for TakeError {
    ghost use Rattle.std.specs.Prelude.{Some, codes};

    ghost output = { λ _. Some (codes "out of memory") };

    /// Writes that a request is lost since memory ran out.
    fn fmt<W: fmt::Write>(&self, f: &mut fmt::Formatter<W>) -> fmt::Result {
        match self {
            TakeError::Memory { .. } => write!(f, "out of memory"),
        }
    }
}

impl Error for TakeError {}
