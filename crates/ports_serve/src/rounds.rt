//! Rounds of serving: each asks the wire for clients and bytes, and makes events happen to the service.
ghost use Rattle.std.specs.Prelude.{◌≡◌, ◌<◌, ◌≤◌, map, OnErr};
ghost use Rattle.std.specs.Option.{option_to_list};
ghost use Rattle.ports_core.specs.State.{IsAllowed, room_at};
ghost use Rattle.ports_serve.specs.Calls.{Leads, Shut, GotWithin, ReadsInto};
ghost use Rattle.ports_serve.specs.Rounds.{unopened, Accepts, ReadsOnce, Writes, TakesTurn, comes, waits};
ghost use Rattle.ports_serve.specs.CourseReports.{GoesBringing, GoesByEvent, GoesByRead, GoesOver, GoesOverTenants};
ghost use Rattle.ports_serve.specs.CourseReports.{GoesRound, HearsFront, IsServedOver};
ghost use Rattle.ports_serve.specs.declared.rounds.TheConstants.{READ_SIZE};
ghost use Rattle.ports_serve.specs.Buffers.{IsBuffer};

use crate::wire::{Outcome, Wire};
use ports_core::{Event, Refused, Service, Tenants};
use std::alloc::{AllocError, Global};

/// The most bytes that are read of a connection at once.
const READ_SIZE: usize = 16_384;

/// Serves clients for so many rounds, and hands the service back. In a round at most one client is
/// accepted, under the number of the next connection. Each open connection is read once, at most as many
/// bytes as it has room for. Each that has bytes pending is written to once, and each tenant has one turn.
/// A connection that isn't opened, or that closes, is shut. The wire may wait for the next client
/// exactly if the round before brought nothing and told no reply, and no request waits.
///
/// Whatever the wire answers, the service changes by `step` alone, at events that may happen. It fails only
/// if there is no memory for the buffer of what is read, before anything is served.
pub fn serve<W: Wire, K: Tenants>(
    alloc: Global,
    wire: &mut W,
    service: Service<K>,
    rounds: u32,
) -> Result<Service<K>, AllocError>
    ensures served { IsServedOver W.after result rounds wire.old service wire.new }
    ensures err { OnErr result (wire.new ≡ wire.old) }
{
    let mut buffer = Vec::with_capacity(alloc, READ_SIZE)?;
    let mut service = service;
    let mut idle = false;
    for _round in 0..rounds {
        let (left, rested) = round(wire, &mut service, buffer, idle);
        buffer = left;
        idle = rested;
    }
    Ok(service)
}

/// One round of serving, whose caller is idle or isn't. It gives the buffer back, and whether the caller is
/// idle after it: nothing came in the round, no reply was told, and no request waits.
fn round<W: Wire, K: Tenants>(
    wire: &mut W,
    service: &mut Service<K>,
    buffer: Vec<u8>,
    idle: bool,
) -> (Vec<u8>, bool)
    requires { IsBuffer buffer }
    ensures goes { GoesRound W.after result.1 idle wire.old service.old wire.new service.new }
    ensures buffer { IsBuffer result.0 }
{
    let accepted = accept(wire, service, idle);
    let (buffer, heard) = read_all(wire, service, buffer);
    let written = write_all(wire, service);
    let told = turn_all(wire, service);
    let came = accepted | heard | written | told;
    (buffer, !(came | requests_wait(service)))
}

/// Makes an event happen to the service in a round. A connection that isn't opened, or that closes, is shut.
/// It gives whether something came from a client with it, or a reply was told.
fn happen<W: Wire, K: Tenants>(wire: &mut W, service: &mut Service<K>, event: &Event) -> bool
    requires { IsAllowed event.now service.old }
    ensures { GoesByEvent W.after result event.now wire.old service.old wire.new service.new }
{
    let told = service.step(event);
    shut_unopened(wire, event, told.refused);
    shut_closed(wire, told.closed);
    is_from_client(event) | told.reply.is_some()
}

/// Whether an event of a round comes from a client: it isn't a turn.
fn is_from_client(event: &Event) -> bool
    ensures { result ≡ comes event.now }
{
    match event {
        Event::Turn(_) => false,
        Event::Open(_)
        | Event::Piece(_, _)
        | Event::End(_)
        | Event::Fault(_)
        | Event::Wrote(_, _) => true,
    }
}

/// Shuts the connection on the wire that an event should have opened, if the service refused it.
fn shut_unopened<W: Wire>(wire: &mut W, event: &Event, refused: Option<Refused>)
    ensures { Leads W.after wire.old (map Shut (unopened event.now refused)) wire.new }
{
    if let (Event::Open(conn), Some(_why)) = (event, refused) {
        wire.shut(*conn);
    }
}

/// Shuts the connection on the wire that the service has closed, if there is one.
fn shut_closed<W: Wire>(wire: &mut W, closed: Option<u64>)
    ensures { Leads W.after wire.old (map Shut (option_to_list closed)) wire.new }
{
    if let Some(conn) = closed {
        wire.shut(conn);
    }
}

/// Accepts a client from the wire in a round, if one waits. It gives whether one came.
fn accept<W: Wire, K: Tenants>(wire: &mut W, service: &mut Service<K>, idle: bool) -> bool
    ensures { GoesBringing W.after result (Accepts idle) wire.old service.old wire.new service.new }
{
    let conn = service.next_conn();
    match wire.accept(conn, idle) {
        Outcome::Got(_client) => happen(wire, service, &Event::Open(conn)),
        Outcome::Nothing | Outcome::End | Outcome::Fault => false,
    }
}

/// Reads each open connection from the wire in a round. It gives the buffer back, and whether something came.
fn read_all<W: Wire, K: Tenants>(
    wire: &mut W,
    service: &mut Service<K>,
    buffer: Vec<u8>,
) -> (Vec<u8>, bool)
    requires { IsBuffer buffer }
    ensures goes { GoesOver W.after result.1 ReadsOnce wire.old service.old wire.new service.new }
    ensures buffer { IsBuffer result.0 }
{
    let mut buffer = buffer;
    let mut heard = false;
    let open = service.connections();
    for conn in open.as_slice() {
        let (left, came) = read(wire, service, *conn, buffer);
        buffer = left;
        heard |= came;
    }
    (buffer, heard)
}

/// Reads a connection from the wire, if it has room: as many bytes as it has room for, up to the size of one
/// read. It gives the buffer back, and whether something came.
fn read<W: Wire, K: Tenants>(
    wire: &mut W,
    service: &mut Service<K>,
    conn: u64,
    buffer: Vec<u8>,
) -> (Vec<u8>, bool)
    requires { IsBuffer buffer }
    ensures goes { GoesByRead W.after result.1 conn wire.old service.old wire.new service.new }
    ensures buffer { IsBuffer result.0 }
{
    let mut buffer = buffer;
    let size = service.room(conn).min(READ_SIZE);
    if size == 0 {
        return (buffer, false);
    }
    match fill(wire, conn, &mut buffer, size) {
        Outcome::Nothing => (buffer, false),
        Outcome::Got(count) => take_piece(wire, service, conn, buffer, count),
        Outcome::End => {
            let came = happen(wire, service, &Event::End(conn));
            (buffer, came)
        }
        Outcome::Fault => {
            let came = happen(wire, service, &Event::Fault(conn));
            (buffer, came)
        }
    }
}

/// Reads bytes of a connection from the wire into the buffer, at most so many.
fn fill<W: Wire>(wire: &mut W, conn: u64, buffer: &mut Vec<u8>, size: usize) -> Outcome<usize>
    requires sized { IsBuffer buffer.old }
    requires within { size ≤ READ_SIZE }
    ensures within { GotWithin size result }
    ensures buffer { IsBuffer buffer.new }
    ensures after { ReadsInto W.after conn size buffer.new.items result wire.old wire.new }
{
    buffer.resize(size, 0).unwrap();
    wire.read(conn, buffer.as_mut_slice())
}

/// Gives the service the first bytes of the buffer, as a piece of a connection's stream. It gives the buffer
/// back, and that something came.
fn take_piece<W: Wire, K: Tenants>(
    wire: &mut W,
    service: &mut Service<K>,
    conn: u64,
    buffer: Vec<u8>,
    count: usize,
) -> (Vec<u8>, bool)
    requires sized { IsBuffer buffer }
    requires within { count ≤ READ_SIZE }
    requires room { count ≤ room_at conn service.old }
    requires hears { 0 < room_at conn service.old }
    ensures goes { HearsFront W.after result.1 conn count buffer
        wire.old service.old wire.new service.new }
    ensures buffer { IsBuffer result.0 }
{
    let mut piece = buffer;
    piece.truncate(count);
    let event = Event::Piece(conn, piece);
    let came = happen(wire, service, &event);
    let Event::Piece(_, buffer) = event else {
        unreachable!();
    };
    (buffer, came)
}

/// Writes to each connection on the wire that has bytes pending. It gives whether some were taken, or one was
/// lost.
fn write_all<W: Wire, K: Tenants>(wire: &mut W, service: &mut Service<K>) -> bool
    ensures { GoesOver W.after result Writes wire.old service.old wire.new service.new }
{
    let mut written = false;
    let open = service.connections();
    for conn in open.as_slice() {
        let taken = write(wire, service, *conn);
        written |= taken;
    }
    written
}

/// Writes a connection's pending bytes to the wire, if there are some. It gives whether the wire took them up
/// to some place, or the connection is lost.
fn write<W: Wire, K: Tenants>(wire: &mut W, service: &mut Service<K>, conn: u64) -> bool
    ensures { GoesBringing W.after result (Writes conn) wire.old service.old wire.new service.new }
{
    let pending = service.pending(conn);
    if pending.is_empty() {
        return false;
    }
    match wire.write(conn, pending) {
        Outcome::Nothing | Outcome::End => false,
        Outcome::Got(count) => happen(wire, service, &Event::Wrote(conn, Some(count))),
        Outcome::Fault => happen(wire, service, &Event::Fault(conn)),
    }
}

/// Gives each tenant its turn in a round. It gives whether a reply was told.
fn turn_all<W: Wire, K: Tenants>(wire: &mut W, service: &mut Service<K>) -> bool
    ensures { GoesOverTenants W.after result TakesTurn wire.old service.old wire.new service.new }
{
    let mut worked = false;
    for tenant in 0..service.tenants() {
        let told = happen(wire, service, &Event::Turn(tenant));
        worked |= told;
    }
    worked
}

/// Whether a request waits for a turn of some tenant after a round. So does one for which work was done, but
/// which isn't answered yet.
fn requests_wait<K: Tenants>(service: &Service<K>) -> bool
    ensures { result ≡ waits service.now }
{
    for tenant in 0..service.tenants() {
        if service.waiting(tenant) > 0 {
            return true;
        }
    }
    false
}
