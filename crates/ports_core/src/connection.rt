//! One open connection of the service: what came, what waits, and what is pending on it.
ghost use Rattle.std.specs.Prelude.{◌≡◌, IsTrue, true, ◌↔◌, [], IfOk};
ghost use Rattle.ports_http.specs.UnreadBytes.{ended};
ghost use Rattle.ports_http.specs.Replies.{reply_text, IsFixed};
ghost use Rattle.ports_core.specs.Tell.{at_once};

use crate::event::{Event, Tell};
use crate::outbox::Outbox;
use ports_http::{Conn, Reply};
use std::alloc::{AllocError, Global};

/// An open connection: the bytes that came and aren't taken, the bytes to be written, the tenant in
/// whose queue its request waits, whether the other side has ended, and whether it is lost.
#[derive(Drop)]
pub(crate) struct Connection {
    pub(crate) stream: Conn,
    pub(crate) pending: Outbox,
    pub(crate) waits: Option<usize>,
    pub(crate) ended: bool,
    pub(crate) lost: bool,
}

impl Connection {
    ghost use Rattle.ports_core.specs.Connections.{new_connection, hears, room_on, is_ready, is_done, with_pending, answered, MayHappenTo};
    ghost use Rattle.ports_core.specs.Answers.{AreBytesOf};

    /// A connection of the service that has just opened, with all its buffers. It fails only if memory runs
    /// out.
    pub(crate) fn new(alloc: Global) -> Result<Connection, AllocError>
        ensures { IfOk result (λ connection. connection ≡ new_connection) }
    {
        Ok(Connection {
            stream: Conn::new(alloc)?,
            pending: Outbox::new(alloc)?,
            waits: None,
            ended: false,
            lost: false,
        })
    }

    /// How many bytes may come on the connection.
    pub(crate) fn room(&self) -> usize
        ensures { result ≡ room_on self.now }
    {
        if self.ended { 0 } else { self.stream.room() }
    }

    /// What an event does to the connection before a request is taken from it.
    pub(crate) fn hear(&mut self, event: &Event)
        requires { MayHappenTo event.now self.old }
        ensures { self.new ≡ hears event.now self.old }
    {
        match event {
            Event::Piece(_, bytes) => self.stream.feed(bytes),
            Event::End(_) => self.ended = true,
            Event::Fault(_) => self.lose(),
            Event::Wrote(_, None) => self.pending.clear(),
            Event::Wrote(_, Some(count)) => self.pending.take_off(*count),
            Event::Open(_) | Event::Turn(_) => {}
        }
    }

    /// Loses the connection: its stream is over, nothing is pending any more, and the connection is marked as
    /// lost.
    fn lose(&mut self)
        ensures { self.new ≡ record self.old { stream = ended; pending = []; lost = true } }
    {
        self.stream.close();
        self.pending.clear();
        self.lost = true;
    }

    /// Whether the next request may be taken from the connection: nothing waits, nothing is pending, and the
    /// connection isn't lost.
    pub(crate) fn is_ready(&self) -> bool
        ensures { result ≡ is_ready self.now }
    {
        self.waits.is_none() && self.pending.bytes().is_empty() && !self.lost
    }

    /// Whether the connection is done, so that it closes: its stream has ended, and nothing waits or is
    /// pending.
    pub(crate) fn is_done(&self) -> bool
        ensures { result ≡ is_done self.now }
    {
        self.waits.is_none()
            && self.pending.bytes().is_empty()
            && (self.ended || self.stream.is_over())
    }

    /// Tells a fixed reply on the connection at once. Its bytes are pending.
    pub(crate) fn tell(&mut self, conn: u64, reply: Reply, close: bool) -> Tell
        requires { IsFixed reply close }
        ensures told { result ≡ at_once conn reply }
        ensures connection { self.new ≡ with_pending (reply_text reply close) self.old }
    {
        self.pending.put_fixed(&reply, close);
        Tell {
            tenant: None,
            conn,
            reply,
        }
    }

    /// Whether an event may happen to the connection now.
    pub(crate) fn fits(&self, event: &Event) -> bool
        ensures { IsTrue result ↔ MayHappenTo event.now self.now }
    {
        match event {
            Event::Piece(_, bytes) => !self.ended && bytes.len() <= self.room(),
            Event::Wrote(_, Some(count)) => *count <= self.pending.bytes().len(),
            _ => true,
        }
    }

    /// Answers the waiting request of the connection. If the connection isn't lost, the reply's bytes are
    /// pending: those that are given, or those of a fixed reply.
    pub(crate) fn answer(&mut self, reply: &Reply, bytes: Option<Vec<u8>>)
        requires { AreBytesOf reply.now self.old.stream.over bytes }
        ensures { self.new ≡ answered reply.now self.old }
    {
        self.waits = None;
        if self.lost {
            return;
        }
        match bytes {
            Some(bytes) => self.pending.put(bytes),
            None => self.pending.put_fixed(reply, self.stream.is_over()),
        }
    }
}
