//! The queue of a tenant: the requests that wait for its turns.
ghost use Rattle.std.specs.Prelude.{◌≡◌, ◌∷◌, ◌++◌, [], length, IfOk, IfSome, IfNone, option_copied};

use crate::connections::MOST_CONNECTIONS;
use ports_http::Request;
use std::alloc::{AllocError, Global};
use std::collections::VecDeque;
use std::marker::Model;

/// A request that waits, and the connection that asked.
#[derive(Drop)]
pub(crate) struct QueuedRequest {
    pub(crate) conn: u64,
    pub(crate) request: Request,
}

/// The requests that wait for a tenant's turns, with places kept for all that can wait. A contract sees
/// their list, the oldest first.
#[derive(Drop)]
pub(crate) struct Queue {
    waiting: VecDeque<QueuedRequest>,
}

impl Model for Queue {
    ghost use Rattle.ports_core.specs.Slices as slices;

    ghost Value = { slices.Queue };

    ghost use Rattle.ports_core.specs.QueueView.{queue_view, IsQueue};

    ghost view = { queue_view };

    ghost invariant = { IsQueue };
}

impl Queue {
    ghost use Rattle.ports_core.specs.Places.{HasPlace};
    ghost use Rattle.ports_core.specs.Jobs.{first_of};

    /// A tenant's queue in which no request waits. It fails only if there is no memory for the places.
    pub(crate) fn new(alloc: Global) -> Result<Queue, AllocError>
        ensures { IfOk result (λ queue. queue ≡ []) }
    {
        Ok(Queue {
            waiting: VecDeque::with_capacity(alloc, MOST_CONNECTIONS)?,
        })
    }

    /// How many requests wait in the queue.
    pub(crate) fn len(&self) -> usize
        ensures { result ≡ length self.now }
    {
        self.waiting.len()
    }

    /// Adds a request at the end of the queue, where it waits after the others. It takes no memory.
    pub(crate) fn join(&mut self, conn: u64, request: Request)
        requires { HasPlace self.old }
        ensures { self.new ≡ self.old ++ record { conn = conn; request = request } ∷ [] }
    {
        self.waiting
            .push_back_reserved(QueuedRequest { conn, request });
    }

    /// The first request of the queue, which waited longest. `None` if no request waits.
    pub(crate) fn first(&self) -> Option<&QueuedRequest>
        ensures { option_copied result ≡ first_of self.now }
    {
        self.waiting.front()
    }

    /// Takes the first request off the queue, which waited longest. `None` if no request waits.
    pub(crate) fn next(&mut self) -> Option<QueuedRequest>
        ensures some { IfSome result (λ queued_request. self.old ≡ queued_request ∷ self.new) }
        ensures none { IfNone result (self.old ≡ []) }
        ensures same { IfNone result (self.new ≡ self.old) }
    {
        self.waiting.pop_front()
    }
}
