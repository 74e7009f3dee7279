//! What comes first in a connection's unread bytes: a whole request, a head refusal, or too little of either.
ghost use Rattle.std.specs.Prelude.{◌≡◌, ◌≤◌, ◌<◌, length, take, drop};
ghost use Rattle.httparse.specs.Grammar.{RequestHead};
ghost use Rattle.ports_http.specs.Limits.{head_limit};
ghost use Rattle.ports_http.specs.Spans.{CoversHead, ComesFirst};
ghost use Rattle.ports_http.specs.Streams.{IsUnfinished};

use crate::announced::announced;
use crate::fault::HeadFault;
use crate::field_limit::begins_one_more;
use crate::fields::{closes, key_of};
use crate::method::Method;
use httparse::spans::{EMPTY_HEADER_SPAN, HeaderSpan, RequestSpans, Span, parse_request};
use httparse::{Error, Status};

/// The most bytes of a request's head.
pub(crate) const HEAD_LIMIT: usize = 8_192;

/// The most field lines of a head.
pub(crate) const FIELD_LIMIT: usize = 32;

/// What comes first in the unread bytes.
pub(crate) enum First {
    /// No whole request yet: so many bytes of a body are missing, or some of a head (0).
    Waiting(usize),
    Refused(HeadFault),
    Ready(Whole),
}

/// A whole request: its method, where its parts are, and whether it closes. It ends where its body ends.
#[derive(Clone, Copy)]
pub(crate) struct Whole {
    pub(crate) method: Method,
    pub(crate) target: Span,
    pub(crate) body: Span,
    pub(crate) key: Option<Span>,
    pub(crate) close: bool,
}

/// What comes first in the unread bytes: a whole request, a head refusal, or nothing whole yet.
pub(crate) fn read_first(unread: &[u8]) -> First
    ensures { ComesFirst unread.now result }
{
    let mut fields = [EMPTY_HEADER_SPAN; FIELD_LIMIT];
    match parse_request(front(unread), &mut fields) {
        Ok(Status::Complete(spans)) => after_head(unread, &spans, &fields[..spans.headers]),
        Ok(Status::Partial) => before_head(unread),
        Err(error) => match error {
            Error::TooManyHeaders => First::Refused(HeadFault::HeadTooLarge),
            _ => First::Refused(HeadFault::Malformed),
        },
    }
}

/// What comes first in unread bytes that don't begin with a whole head. A head isn't waited for that has too
/// many bytes, or begins a field line too many.
fn before_head(unread: &[u8]) -> First
    requires { IsUnfinished (take head_limit unread.now) }
    ensures { ComesFirst unread.now result }
{
    if unread.len() >= HEAD_LIMIT || begins_one_more(unread) {
        return First::Refused(HeadFault::HeadTooLarge);
    }
    First::Waiting(0)
}

/// The first unread bytes, as many as a head may take.
fn front(unread: &[u8]) -> &[u8]
    ensures { result.now ≡ take head_limit unread.now }
{
    if unread.len() < HEAD_LIMIT {
        unread
    } else {
        &unread[..HEAD_LIMIT]
    }
}

/// What comes first in unread bytes that begin with this whole head.
fn after_head(unread: &[u8], spans: &RequestSpans, fields: &[HeaderSpan]) -> First
    requires { (head : RequestHead) × CoversHead unread.now spans.now fields.now head }
    ensures { ComesFirst unread.now result }
{
    let word = spans.method.of(unread);
    let (method, length) = match announced(word, spans.version, unread, fields) {
        Ok(told) => told,
        Err(fault) => return First::Refused(fault),
    };
    let come = unread.len() - spans.len;
    if come < length {
        return First::Waiting(length - come);
    }
    First::Ready(Whole {
        method,
        target: spans.path,
        body: Span {
            start: spans.len,
            end: spans.len + length,
        },
        key: key_of(unread, fields),
        close: closes(spans.version, unread, fields),
    })
}
