//! Clients over TCP sockets: what listens on 127.0.0.1, and a wire of sockets.
ghost use Rattle.std.specs.Prelude.{◌≡◌, ◌↔◌, IsTrue, MatchResult};
ghost use Rattle.std.specs.IoError.{error_kind};
ghost use Rattle.ports_serve.specs.declared.wire.Outcome.TheVariants as outcomes;
ghost use Rattle.portsd_host.specs.Hosts.{IsLocalAddress, IsTriedAgain, FailsAs, heard};

use mio::event::Event;
use mio::net::{TcpListener, TcpStream};
use mio::{Events, Interest, Poll, Token};
use ports_serve::{Listen, ListenFault, Outcome, Wire};
use std::alloc::Global;
use std::io::{self, ErrorKind, Read, Write};
use std::mem;
use std::net::{IpAddr, Ipv4Addr, Net, SocketAddr};
use std::time::Duration;

/// The most clients: the connections that the service opens, and one that it refuses.
const MOST_CLIENTS: usize = 17;

/// The most events of one wait: one for each client, and one for the listener.
const MOST_EVENTS: usize = 18;

/// How many milliseconds an idle wire waits for something to come.
const IDLE: u64 = 50;

/// The most accepts of a busy caller, one after another, that don't ask which sockets are ready.
const MOST_UNASKED: u32 = 2;

/// What the listener is called where sockets are said to be ready. A client is called by its connection, from 1.
const LISTENER: usize = 0;

/// What listens on 127.0.0.1.
#[derive(Clone, Copy)]
pub struct Loopback<'a, R> {
    net: &'a R,
}

impl<'a, R> Loopback<'a, R> {
    /// What listens for TCP clients over the networks of this host.
    pub fn new(net: &'a R) -> Loopback<'a, R> {
        Loopback { net }
    }
}

impl<R: Net> Listen for Loopback<'_, R> {
    type Wire = Sockets;

    ghost listens_on = { λ port wire. Unit {0} };

    /// Listens for TCP clients on the port of 127.0.0.1, and gives the wire of their sockets.
    fn listen(&self, alloc: Global, port: u16) -> Result<Sockets, ListenFault> {
        let clients = Vec::with_capacity(alloc, MOST_CLIENTS)?;
        let events = Events::with_capacity(alloc, MOST_EVENTS)?;
        let (poll, listener) = begin(self.net, port).map_err(|_| ListenFault::Port)?;
        Ok(Sockets {
            poll,
            events,
            listener,
            clients,
            may_accept: true,
            has_moved: false,
            unasked: 0,
        })
    }
}

/// The TCP listener on the port, and what waits for its sockets to be ready.
fn begin(net: &impl Net, port: u16) -> io::Result<(Poll, TcpListener)> {
    let poll = Poll::new(net)?;
    let mut listener = TcpListener::bind(net, address_of(port))?;
    poll.registry()
        .register(&mut listener, Token(LISTENER), Interest::READABLE)?;
    Ok((poll, listener))
}

/// The socket address of the port on 127.0.0.1.
fn address_of(port: u16) -> SocketAddr
    ensures { IsLocalAddress port result }
{
    SocketAddr::new(IpAddr::V4(Ipv4Addr::new(127, 0, 0, 1)), port)
}

/// A client, under the number of its connection, and what is known of its socket.
#[derive(Drop)]
struct Client {
    conn: u64,
    stream: TcpStream,
    /// Whether a read may bring something.
    may_read: bool,
    /// Whether the client has ended its stream, so that the end follows its last bytes.
    has_ended: bool,
    /// Whether a write may take something.
    may_write: bool,
}

impl Client {
    /// A client of whose TCP socket nothing is known.
    fn new(conn: u64, stream: TcpStream) -> Client {
        Client {
            conn,
            stream,
            may_read: true,
            has_ended: false,
            may_write: true,
        }
    }

    /// Notes that the host says that the client's socket is ready.
    fn note(&mut self, event: &Event) {
        self.may_read |= event.is_readable() || event.is_read_closed() || event.is_error();
        self.has_ended |= event.is_read_closed();
        self.may_write |= event.is_writable() || event.is_write_closed();
    }
}

/// The token by which the host names a client's socket that is ready.
fn token_of(conn: u64) -> Token {
    Token(conn.saturating_add(1) as usize)
}

/// Clients over TCP sockets. None of their calls waits, except an accept of an idle caller. Once a socket had nothing
/// more, it isn't asked until the host says that it is ready again.
#[derive(Drop)]
pub struct Sockets {
    poll: Poll,
    events: Events,
    listener: TcpListener,
    clients: Vec<Client>,
    may_accept: bool,
    /// Whether bytes were read or written since the last accept.
    has_moved: bool,
    unasked: u32,
}

impl Sockets {
    /// The socket address that is listened on. If the host can't give it, the error is the host's.
    pub fn address(&self) -> io::Result<SocketAddr> {
        self.listener.local_addr()
    }

    /// The client whose TCP socket has this connection's number, if there is one.
    fn client(&mut self, conn: u64) -> Option<&mut Client> {
        self.clients.iter_mut().find(|client| client.conn == conn)
    }

    /// Takes a client's TCP socket in, under this connection's number. If it fails, the client is dropped.
    fn take(&mut self, conn: u64, mut stream: TcpStream) -> io::Result<()> {
        if self.clients.len() >= MOST_CLIENTS {
            return Err(io::Error::from(ErrorKind::QuotaExceeded));
        }
        stream.set_nodelay(true)?;
        self.poll.registry().register(
            &mut stream,
            token_of(conn),
            Interest::READABLE | Interest::WRITABLE,
        )?;
        self.clients.push(Client::new(conn, stream))?;
        Ok(())
    }

    /// Asks the host which sockets are ready. For an idle caller it waits a while until one is. A busy one that has just
    /// read or written goes on with what is known, a few times at most.
    fn look(&mut self, idle: bool) {
        let has_moved = mem::replace(&mut self.has_moved, false);
        if !idle && has_moved && self.unasked < MOST_UNASKED {
            self.unasked += 1;
            return;
        }
        self.unasked = 0;
        let wait = Duration::from_millis(if idle { IDLE } else { 0 });
        let _ = self.poll.poll(&mut self.events, Some(wait));
        for event in self.events.iter() {
            if event.token() == Token(LISTENER) {
                self.may_accept = true;
            }
            for client in self.clients.iter_mut() {
                if token_of(client.conn) == event.token() {
                    client.note(event);
                }
            }
        }
    }
}

impl Wire for Sockets {
    ghost after = { λ old call new. Unit {0} };

    /// Accepts the TCP client that waited longest, if one waits; an idle caller waits a while.
    fn accept(&mut self, conn: u64, idle: bool) -> Outcome<()> {
        self.look(idle);
        if !self.may_accept {
            return Outcome::Nothing;
        }
        let accepted = self.listener.accept();
        self.may_accept = !would_wait(&accepted);
        match outcome_of(accepted) {
            Outcome::Got((stream, _)) => match self.take(conn, stream) {
                Ok(()) => Outcome::Got(()),
                Err(_) => Outcome::Nothing,
            },
            Outcome::Nothing => Outcome::Nothing,
            Outcome::End => Outcome::End,
            Outcome::Fault => Outcome::Fault,
        }
    }

    /// Reads bytes from the TCP socket of a connection, unless the host has said that there is nothing more.
    fn read(&mut self, conn: u64, buffer: &mut [u8]) -> Outcome<usize> {
        let Some(client) = self.client(conn) else {
            return Outcome::Fault;
        };
        if !client.may_read {
            return Outcome::Nothing;
        }
        let read = client.stream.read(buffer);
        client.may_read = client.has_ended || may_bring_more(&read, buffer.len());
        self.has_moved |= read.is_ok();
        outcome_of_read(read)
    }

    /// Writes bytes to the TCP socket of a connection, unless the host has said that it takes no more.
    fn write(&mut self, conn: u64, bytes: &[u8]) -> Outcome<usize> {
        let Some(client) = self.client(conn) else {
            return Outcome::Fault;
        };
        if !client.may_write {
            return Outcome::Nothing;
        }
        let written = client.stream.write(bytes);
        client.may_write = !would_wait(&written);
        self.has_moved |= written.is_ok();
        outcome_of(written)
    }

    /// Drops the TCP socket of a connection.
    fn shut(&mut self, conn: u64) {
        self.clients.retain(|client| client.conn != conn);
    }
}

/// Whether a call of a socket would have to wait. If so, the host says when that is no longer so.
fn would_wait<T>(answer: &io::Result<T>) -> bool {
    match answer {
        Ok(_) => false,
        Err(error) => error.kind() == ErrorKind::WouldBlock,
    }
}

/// Whether the next read of a socket may bring something, though the host says nothing. If a read that could
/// have brought so many bytes brought fewer, there are no more; the host says when others come.
fn may_bring_more(read: &io::Result<usize>, room: usize) -> bool {
    match read {
        Ok(count) => *count >= room,
        Err(error) => error.kind() != ErrorKind::WouldBlock,
    }
}

/// What a read of a TCP socket brought. A read of no bytes is the end.
fn outcome_of_read(read: io::Result<usize>) -> Outcome<usize>
    ensures { MatchResult read (λ count. result ≡ heard count)
        (λ error. FailsAs (error_kind error) result) }
{
    match read {
        Ok(0) => Outcome::End,
        read => outcome_of(read),
    }
}

/// What a call of a TCP socket brought: nothing yet, if it is to be tried again later, and a fault at any
/// other error.
fn outcome_of<T: Drop>(answer: io::Result<T>) -> Outcome<T>
    ensures { MatchResult answer (λ got. result ≡ outcomes.Got got)
        (λ error. FailsAs (error_kind error) result) }
{
    match answer {
        Ok(got) => Outcome::Got(got),
        Err(error) if is_later(&error) => Outcome::Nothing,
        Err(_) => Outcome::Fault,
    }
}

/// Whether a call of a socket failed so that it is to be tried again later.
fn is_later(error: &io::Error) -> bool
    ensures { IsTrue result ↔ IsTriedAgain (error_kind error.now) }
{
    error.kind() == ErrorKind::WouldBlock || error.kind() == ErrorKind::Interrupted
}
