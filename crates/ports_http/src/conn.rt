//! The unread bytes of one connection, from which requests are taken.
ghost use Rattle.std.specs.Prelude.{◌≡◌, ◌+◌, ◌≤◌, length, drop, vec_len, vec_capacity, IfOk, IfSome, IsUtf8};
ghost use Rattle.httparse.specs.Spans.{IsWithin, span_bytes};
ghost use Rattle.ports_http.specs.UnreadBytes.{opening_stream, ended, room_of, fed, passed, TakesOrLoses};
ghost use Rattle.ports_http.specs.Spans.{message_at, IsWholeWithin, GivesKey};

use crate::fault::HeadFault;
use crate::first::{First, Whole, read_first};
use crate::request::{Request, TakeError};
use httparse::spans::Span;
use std::alloc::{AllocError, Global};
use std::marker::Model;
use std::str;

/// The most bytes that a connection holds unread: a greatest head and a greatest body.
const UNREAD_LIMIT: usize = 139_264;

/// The bytes that are reserved. Bytes that were taken stay in front until the buffer is full. Then the
/// unread bytes move to its front. So the moves cost no more than the bytes that were fed.
const RESERVED: usize = 278_528;

/// The bytes of one connection that aren't taken yet. A contract sees them as an `Incoming`: the
/// unread bytes, and whether the stream is over.
#[derive(Drop)]
pub struct Conn {
    buffer: Vec<u8>,
    /// where the unread bytes begin
    start: usize,
    /// at least so many bytes of the body that comes first are missing
    missing: usize,
    over: bool,
}

impl Model for Conn {
    ghost use Rattle.ports_http.specs.UnreadBytes.{Incoming};

    ghost Value = { Incoming };

    ghost use Rattle.ports_http.specs.ConnView.{conn_view, IsConn};

    ghost view = { conn_view };

    ghost invariant = { IsConn };
}

impl Conn {
    /// The unread bytes of a connection that has just opened: none, with all buffers reserved. It fails only
    /// if memory runs out.
    pub fn new(alloc: Global) -> Result<Conn, AllocError>
        ensures { IfOk result (λ conn. conn ≡ opening_stream) }
    {
        Ok(Conn {
            buffer: Vec::with_capacity(alloc, RESERVED)?,
            start: 0,
            missing: 0,
            over: false,
        })
    }

    /// How many bytes a connection's stream may be fed: 139,264 less those that are unread, and none once the
    /// stream is over.
    pub fn room(&self) -> usize
        ensures { result ≡ room_of self.now }
    {
        if self.over {
            return 0;
        }
        UNREAD_LIMIT - (self.buffer.len() - self.start)
    }

    /// Whether the connection's stream is over: a request that closes or a head refusal was taken, or `close`
    /// was called. Then nothing more is taken.
    pub fn is_over(&self) -> bool
        ensures { result ≡ self.now.over }
    {
        self.over
    }

    /// Adds bytes that came on the connection after those that are unread. It takes no memory.
    pub fn feed(&mut self, bytes: &[u8])
        requires { length bytes.now ≤ room_of self.old }
        ensures { self.new ≡ fed self.old bytes.now }
    {
        self.start = make_room(&mut self.buffer, self.start, bytes.len());
        self.buffer.extend_from_slice(bytes).unwrap();
        self.missing = self.missing.saturating_sub(bytes.len());
    }

    /// Ends the connection's stream, and drops its unread bytes.
    pub fn close(&mut self)
        ensures { self.new ≡ ended }
    {
        self.buffer.clear();
        self.start = 0;
        self.missing = 0;
        self.over = true;
    }

    /// Passes over a request of this many bytes, which was taken from the connection's unread bytes.
    fn pass(&mut self, size: usize, close: bool)
        requires { size ≤ length self.old.unread }
        ensures { self.new ≡ passed self.old size close }
    {
        if close {
            self.close();
        } else {
            self.start += size;
            self.missing = 0;
        }
    }

    /// Takes the request that comes first in the connection's unread bytes, or its head refusal. A refusal
    /// ends the stream, and so does a request that closes. `None` if the stream is over, or if no whole
    /// request is there yet. If there is no memory for the request, the error is `TakeError::Memory`, and its
    /// bytes are lost.
    pub fn next_request(
        &mut self,
        alloc: Global,
    ) -> Result<Option<Result<Request, HeadFault>>, TakeError>
        ensures { TakesOrLoses self.old result self.new }
    {
        if self.over {
            return Ok(None);
        }
        if self.missing > 0 {
            return Ok(None);
        }
        let unread = &self.buffer[self.start..];
        match read_first(unread) {
            First::Waiting(missing) => {
                self.missing = missing;
                Ok(None)
            }
            First::Refused(fault) => {
                self.close();
                Ok(Some(Err(fault)))
            }
            First::Ready(whole) => {
                let copied = request_at(alloc, unread, &whole);
                self.pass(whole.body.end, whole.close);
                match copied {
                    Ok(request) => Ok(Some(Ok(request))),
                    Err(error) => Err(TakeError::lost(whole.close, error)),
                }
            }
        }
    }
}

/// Makes room in a connection's buffer for more bytes. If they don't fit at the end, the unread bytes, those
/// from `start` on, move to the front. It gives where these begin then.
fn make_room(buffer: &mut Vec<u8>, start: usize, more: usize) -> usize
    requires start { start ≤ vec_len buffer.old }
    requires fits { vec_len buffer.old + more ≤ vec_capacity buffer.old + start }
    ensures kept { drop result buffer.new.items ≡ drop start buffer.old.items }
    ensures start { result ≤ vec_len buffer.new }
    ensures fits { vec_len buffer.new + more ≤ vec_capacity buffer.new }
    ensures room { vec_capacity buffer.new ≡ vec_capacity buffer.old }
{
    if more <= buffer.capacity() - buffer.len() {
        return start;
    }
    let left = buffer.len() - start;
    buffer.rotate_left(start);
    buffer.truncate(left);
    0
}

/// The request whose parts are in the unread bytes. It fails only if memory runs out.
fn request_at(alloc: Global, unread: &[u8], whole: &Whole) -> Result<Request, AllocError>
    requires within { IsWholeWithin unread.now whole.now }
    requires text { IsUtf8 (span_bytes unread.now whole.now.target) }
    ensures { IfOk result (λ request. request ≡ message_at unread.now whole.now) }
{
    let target = str::from_utf8(whole.target.of(unread)).unwrap();
    Ok(Request {
        method: whole.method,
        target: String::from_str(alloc, target)?,
        body: Vec::from_slice(alloc, whole.body.of(unread))?,
        key: key_at(alloc, unread, whole.key)?,
        close: whole.close,
    })
}

/// A copy of the key among a connection's unread bytes, if the request that comes first there has one.
fn key_at(alloc: Global, unread: &[u8], key: Option<Span>) -> Result<Option<Vec<u8>>, AllocError>
    requires { IfSome key (IsWithin (length unread.now)) }
    ensures { GivesKey result unread.now key }
{
    match key {
        Some(span) => Ok(Some(Vec::from_slice(alloc, span.of(unread))?)),
        None => Ok(None),
    }
}
