//! Replies of HTTP: a status, a body with its media type, and an Allow field.
ghost use Rattle.std.specs.Prelude.{◌≡◌, [], Bool, Option, Some, None};
ghost use Rattle.ports_http.specs.Messages.{ReplyMessage};
ghost use Rattle.ports_http.specs.Replies.{content_text, unknown_key, store_failed, IsFixed, plain_reply};

use crate::method::Method;
use http::StatusCode;
use std::marker::Model;

/// The media type of a reply's body.
#[derive(Clone, Copy, Debug, PartialEq, Eq)]
pub enum Content {
    /// `application/json`
    Json,
    /// `application/octet-stream`
    Octets,
}

impl Content {
    /// The name of the media type of a reply's body.
    pub fn as_str(self) -> &'static str
        ensures { result.now ≡ content_text self }
    {
        match self {
            Content::Json => "application/json",
            Content::Octets => "application/octet-stream",
        }
    }
}

/// The bytes of a reply's body. A fixed text takes no memory.
#[derive(Drop)]
pub enum Body {
    Fixed(&'static str),
    Owned(Vec<u8>),
}

/// A reply. A contract sees it as a `ReplyMessage`: the status, the bytes of the body, its media type, and
/// the methods of its Allow field. If there is no such field, there are no methods.
#[derive(Drop)]
pub struct Reply {
    pub status: StatusCode,
    pub body: Body,
    pub content: Option<Content>,
    pub allow: &'static [Method],
}

impl Model for Reply {
    ghost use Rattle.ports_http.specs.Messages.{ReplyMessage};

    ghost Value = { ReplyMessage };

    ghost use Rattle.ports_http.specs.ReplyView.{reply_view};

    ghost view = { reply_view };
}

impl Reply {
    /// A reply of this status whose body is a text of the program's own, which takes no memory.
    pub fn of_text(status: StatusCode, content: Option<Content>, text: &'static str) -> Reply
        ensures { result ≡ plain_reply status content text.now }
    {
        Reply {
            status,
            body: Body::Fixed(text),
            content,
            allow: &[],
        }
    }

    /// A reply of this status with these bytes as its body.
    pub fn of_bytes(status: StatusCode, content: Option<Content>, body: Vec<u8>) -> Reply
        ensures { result ≡ plain_reply status content body.items }
    {
        Reply {
            status,
            body: Body::Owned(body),
            content,
            allow: &[],
        }
    }

    /// The reply with an Allow field of these methods.
    pub fn with_allow(self, allow: &'static [Method]) -> Reply
        ensures { result ≡ record self { allow = allow.now } }
    {
        let Reply {
            status,
            body,
            content,
            ..
        } = self;
        Reply {
            status,
            body,
            content,
            allow,
        }
    }

    /// The reply to a request without a known key: 403 and `{"error":"Key"}`.
    pub fn unknown_key() -> Reply
        ensures value { result ≡ unknown_key }
        ensures fixed { (close : Bool) → IsFixed result close }
    {
        Reply::of_text(
            StatusCode::FORBIDDEN,
            Some(Content::Json),
            "{\"error\":\"Key\"}",
        )
    }

    /// The reply if the store or the memory failed: 503 and `{"error":"Store"}`.
    pub fn store_failed() -> Reply
        ensures value { result ≡ store_failed }
        ensures fixed { (close : Bool) → IsFixed result close }
    {
        Reply::of_text(
            StatusCode::SERVICE_UNAVAILABLE,
            Some(Content::Json),
            "{\"error\":\"Store\"}",
        )
    }

    /// The bytes of the reply's body.
    pub fn body(&self) -> &[u8]
        ensures { result.now ≡ self.now.body }
    {
        match &self.body {
            Body::Fixed(text) => text.as_bytes(),
            Body::Owned(bytes) => bytes.as_slice(),
        }
    }
}
