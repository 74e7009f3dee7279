//! The outbox of a connection: the bytes of a reply that are still to be written.
ghost use Rattle.std.specs.Prelude.{◌≡◌, ◌≤◌, [], drop, length, Bool, IfOk};
ghost use Rattle.ports_http.specs.Replies.{reply_text, IsFixed};

use ports_http::{Reply, write_fixed};
use std::alloc::{AllocError, Global};
use std::marker::Model;

/// How many bytes an outbox reserves for a fixed reply.
const RESERVED: usize = 256;

/// The bytes of a reply that are still to be written. A fixed reply is in a buffer that is reserved from
/// the start, so it takes no memory. A contract sees the list of the bytes.
#[derive(Drop)]
pub(crate) struct Outbox {
    fixed: Vec<u8>,
    own: Option<Vec<u8>>,
    /// how many of the bytes are written
    written: usize,
}

impl Model for Outbox {
    ghost use Rattle.std.specs.Prelude.{List, ℕ};

    ghost Value = { List ℕ };

    ghost use Rattle.ports_core.specs.OutboxView.{unwritten, IsOutbox};

    ghost view = { unwritten };

    ghost invariant = { IsOutbox };
}

impl Outbox {
    /// An outbox without bytes, and with room for a fixed reply. It fails only if memory runs out.
    #[tactic(auto, unfolding(ports_http::specs::Limits::fixed_limit))]
    pub(crate) fn new(alloc: Global) -> Result<Outbox, AllocError>
        ensures { IfOk result (λ outbox. outbox ≡ []) }
    {
        Ok(Outbox {
            fixed: Vec::with_capacity(alloc, RESERVED)?,
            own: None,
            written: 0,
        })
    }

    /// The bytes in the outbox that are still to be written.
    pub(crate) fn bytes(&self) -> &[u8]
        ensures { result.now ≡ self.now }
    {
        match &self.own {
            None => &self.fixed[self.written..],
            Some(bytes) => &bytes[self.written..],
        }
    }

    /// Takes the first bytes off the outbox, which were written.
    pub(crate) fn take_off(&mut self, count: usize)
        requires { count ≤ length self.old }
        ensures { self.new ≡ drop count self.old }
    {
        self.written += count;
    }

    /// Drops all bytes in the outbox.
    pub(crate) fn clear(&mut self)
        ensures { self.new ≡ [] }
    {
        self.fixed.clear();
        self.own = None;
        self.written = 0;
    }

    /// Puts the bytes of a reply into the outbox, in place of what it had.
    pub(crate) fn put(&mut self, bytes: Vec<u8>)
        ensures { self.new ≡ bytes.items }
    {
        self.own = Some(bytes);
        self.written = 0;
    }

    /// Puts the bytes of a fixed reply into the outbox, in place of what it had. It takes no memory.
    pub(crate) fn put_fixed(&mut self, reply: &Reply, close: bool)
        requires { IsFixed reply.now close }
        ensures { self.new ≡ reply_text reply.now close }
    {
        self.fixed.clear();
        self.own = None;
        self.written = 0;
        write_fixed(reply, close, &mut self.fixed);
    }
}
