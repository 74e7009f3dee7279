//! The intake of requests: the next one is taken off a connection, and put in its tenant's queue or refused.
ghost use Rattle.std.specs.Prelude.{◌≡◌, true, All, length};
ghost use Rattle.ports_core.specs.Keys.{key_texts};
ghost use Rattle.ports_core.specs.Connections.{is_ready};
ghost use Rattle.ports_core.specs.Places.{HasPlace};
ghost use Rattle.ports_core.specs.OpenConnections.{IsAfterTaking, TakesFirst};
ghost use Rattle.ports_core.specs.Intake.{Whole, taken_of, refused_at_once, Joins};

use crate::connection::Connection;
use crate::event::Tell;
use crate::keys::place_of;
use crate::queue::Queue;
use ports_http::{HeadFault, Reply, Request, TakeError};
use std::alloc::Global;

/// Takes in the request that comes first on a connection, if nothing waits and nothing is pending there. A
/// request with a known key waits for its tenant's turn. Any other request is answered at once with a fixed
/// reply. So is a head refusal, and a request for whose own bytes there is no memory.
pub(crate) fn take_next(
    alloc: Global,
    keys: &[String],
    queues: &mut [Queue],
    conn: u64,
    connection: &mut Connection,
) -> Option<Tell>
    requires keyed { length queues.old ≡ length keys.now }
    requires places { is_ready connection.old ≡ true → All HasPlace queues.old }
    ensures { TakesFirst keys.now conn result connection.old connection.new queues.old queues.new }
{
    if !connection.is_ready() {
        return None;
    }
    let answer = connection.stream.next_request(alloc);
    settle(keys, queues, conn, connection, answer)
}

/// Deals with what a connection handed out: a request, a head refusal or nothing. A fixed reply that says
/// that the store failed is told only if there was no memory for the request itself.
fn settle(
    keys: &[String],
    queues: &mut [Queue],
    conn: u64,
    connection: &mut Connection,
    answer: Result<Option<Result<Request, HeadFault>>, TakeError>,
) -> Option<Tell>
    requires keyed { length queues.old ≡ length keys.now }
    requires places { All HasPlace queues.old }
    ensures told { result ≡ refused_at_once (key_texts keys.now) conn (taken_of answer) }
    ensures connection { IsAfterTaking keys.now (taken_of answer) connection.old connection.new }
    ensures queues { Joins (key_texts keys.now) conn (taken_of answer) queues.old queues.new }
{
    match answer {
        Ok(None) => None,
        Ok(Some(Ok(request))) => admit(keys, queues, conn, connection, request),
        Ok(Some(Err(fault))) => Some(connection.tell(conn, fault.reply(), true)),
        Err(TakeError::Memory { close, .. }) => Some(connection.tell(
            conn,
            Reply::store_failed(),
            close,
        )),
    }
}

/// Puts a request that was taken off a connection in its tenant's queue. A request without a known key is
/// refused at once.
fn admit(
    keys: &[String],
    queues: &mut [Queue],
    conn: u64,
    connection: &mut Connection,
    request: Request,
) -> Option<Tell>
    requires keyed { length queues.old ≡ length keys.now }
    requires places { All HasPlace queues.old }
    ensures told { result ≡ refused_at_once (key_texts keys.now) conn (Whole request) }
    ensures connection { IsAfterTaking keys.now (Whole request) connection.old connection.new }
    ensures queues { Joins (key_texts keys.now) conn (Whole request) queues.old queues.new }
{
    let close = request.close;
    let Some(place) = place_of(keys, &request.key) else {
        return Some(connection.tell(conn, Reply::unknown_key(), close));
    };
    let queue = &mut queues[place];
    queue.join(conn, request);
    connection.waits = Some(place);
    None
}
