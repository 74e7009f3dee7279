//! The open connections of the service, by their numbers.
ghost use Rattle.std.specs.Prelude.{◌≡◌, ◌≤◌, ◌↔◌, IsTrue, length};
ghost use Rattle.ports_core.specs.Connections.{closes_on};
ghost use Rattle.ports_core.specs.Answers.{AreBytesOf};
ghost use Rattle.ports_core.specs.Tell.{CountsNone};
ghost use Rattle.ports_core.specs.OpenConnections.{AnswersOn, HavePlacesFor, HearsAndTakes, KeepsOthersIn};
ghost use Rattle.ports_core.specs.OpenConnections.{KeepsUnlessDone, MayHear, TellsClosing};
ghost use Rattle.ports_core.specs.Opened.{connection_in, is_connection_done};

use crate::connection::Connection;
use crate::event::{Event, Told};
use crate::intake::take_next;
use crate::queue::Queue;
use ports_http::Reply;
use std::alloc::Global;
use std::collections::BTreeMap;

/// The most connections, and so the most requests that wait: one of each.
pub(crate) const MOST_CONNECTIONS: usize = 16;

/// The open connections of the service, by their numbers.
pub(crate) type Connections = BTreeMap<u64, Connection>;

/// Carries out an event of an open connection: what it does to the connection, and the next request that is
/// then taken. It gives what the event tells. The connection closes if it is done.
pub(crate) fn hear_connection(
    alloc: Global,
    keys: &[String],
    queues: &mut [Queue],
    connections: &mut Connections,
    conn: u64,
    event: &Event,
) -> Told
    requires keyed { length queues.old ≡ length keys.now }
    requires open { MayHear (connection_in conn connections.old.entries) event.now }
    requires places { HavePlacesFor (connection_in conn connections.old.entries) queues.old }
    ensures count { length connections.new.entries ≤ length connections.old.entries }
    ensures hears { HearsAndTakes keys.now event.now conn result
        connections.old.entries connections.new.entries queues.old queues.new }
    ensures counts { CountsNone result }
{
    let connection = connections.get_mut(&conn).unwrap();
    connection.hear(event);
    let reply = take_next(alloc, keys, queues, conn, connection);
    let closed = close_done(connections, conn);
    Told::of(reply, closed)
}

/// Whether a reply on one of the connections says that it closes: its request was the last of its stream.
/// False if the connection isn't open.
pub(crate) fn closes(connections: &Connections, conn: u64) -> bool
    ensures { result ≡ closes_on (connection_in conn connections.now.entries) }
{
    match connections.get(&conn) {
        Some(connection) => connection.stream.is_over(),
        None => false,
    }
}

/// Answers the waiting request of one of the connections, if that is open.
pub(crate) fn answer_connection(
    connections: &mut Connections,
    conn: u64,
    reply: &Reply,
    bytes: Option<Vec<u8>>,
)
    requires { AreBytesOf reply.now (closes_on (connection_in conn connections.old.entries)) bytes }
    ensures count { length connections.new.entries ≡ length connections.old.entries }
    ensures connection { AnswersOn conn reply.now connections.old.entries connections.new.entries }
    ensures others { KeepsOthersIn conn connections.old.entries connections.new.entries }
{
    if let Some(connection) = connections.get_mut(&conn) {
        connection.answer(reply, bytes);
    }
}

/// Closes one of the open connections if its stream has ended, nothing waits and nothing is pending. It gives
/// the number of the connection if that closes.
pub(crate) fn close_done(connections: &mut Connections, conn: u64) -> Option<u64>
    ensures count { length connections.new.entries ≤ length connections.old.entries }
    ensures closed { TellsClosing conn connections.old.entries result }
    ensures connection { KeepsUnlessDone conn connections.old.entries connections.new.entries }
    ensures others { KeepsOthersIn conn connections.old.entries connections.new.entries }
{
    if !is_connection_done(connections, conn) {
        return None;
    }
    let _connection = connections.remove(&conn);
    Some(conn)
}

/// Whether one of the open connections is done: its stream has ended, and nothing waits or is pending.
fn is_connection_done(connections: &Connections, conn: u64) -> bool
    ensures { result ≡ is_connection_done (connection_in conn connections.now.entries) }
{
    match connections.get(&conn) {
        Some(connection) => connection.is_done(),
        None => false,
    }
}

/// Whether an event may happen to one of the connections now: that is open, and the event fits it.
pub(crate) fn may_hear(connections: &Connections, conn: u64, event: &Event) -> bool
    ensures { IsTrue result ↔ MayHear (connection_in conn connections.now.entries) event.now }
{
    match connections.get(&conn) {
        Some(connection) => connection.fits(event),
        None => false,
    }
}
