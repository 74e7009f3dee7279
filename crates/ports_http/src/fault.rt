//! Why the head of a request is refused, and the reply to that.
ghost use Rattle.std.specs.Prelude.{◌≡◌, Bool};
ghost use Rattle.ports_http.specs.Replies.{fault_status, fault_reply, IsFixed};

use crate::reply::{Body, Reply};
use http::StatusCode;
use thiserror::Error;

/// Why the head of a request is refused. If several reasons fit, the first in this order is given.
#[derive(Clone, Copy, Debug, PartialEq, Eq, Error)]
pub enum HeadFault {
    /// The bytes begin no head, whatever follows: 400.
    #[error("the head is malformed")]
    Malformed,
    /// 8,192 bytes hold no whole head, or it has more than 32 field lines: 431.
    #[error("the head is too large")]
    HeadTooLarge,
    /// The method isn't GET, PUT or DELETE: 501.
    #[error("the method is none of GET, PUT and DELETE")]
    UnknownMethod,
    /// There is a Transfer-Encoding: 501.
    #[error("the head has a Transfer-Encoding")]
    TransferEncoding,
    /// There is more than one Host, or none with HTTP/1.1: 400.
    #[error("the head has no Host, or more than one")]
    HostCount,
    /// There is more than one Content-Length, or one that isn't 1 to 18 digits: 400.
    #[error("the Content-Length is bad")]
    ContentLength,
    /// A PUT has no Content-Length: 411.
    #[error("the PUT has no Content-Length")]
    LengthRequired,
    /// The Content-Length is over 131,072: 413.
    #[error("the body is too large")]
    BodyTooLarge,
}

impl HeadFault {
    /// The HTTP status that answers the refusal of a head.
    pub fn status(self) -> StatusCode
        ensures { result ≡ fault_status self }
    {
        match self {
            HeadFault::Malformed => StatusCode::BAD_REQUEST,
            HeadFault::HeadTooLarge => StatusCode::REQUEST_HEADER_FIELDS_TOO_LARGE,
            HeadFault::UnknownMethod => StatusCode::NOT_IMPLEMENTED,
            HeadFault::TransferEncoding => StatusCode::NOT_IMPLEMENTED,
            HeadFault::HostCount => StatusCode::BAD_REQUEST,
            HeadFault::ContentLength => StatusCode::BAD_REQUEST,
            HeadFault::LengthRequired => StatusCode::LENGTH_REQUIRED,
            HeadFault::BodyTooLarge => StatusCode::PAYLOAD_TOO_LARGE,
        }
    }

    /// The reply to the refusal of a head: its status, and no body.
    pub fn reply(self) -> Reply
        ensures value { result ≡ fault_reply self }
        ensures fixed { (close : Bool) → IsFixed result close }
    {
        Reply {
            status: self.status(),
            body: Body::Fixed(""),
            content: None,
            allow: &[],
        }
    }
}
