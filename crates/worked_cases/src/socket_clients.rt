//! Socket clients of worked cases: the service's sockets, with clients of them in the same process.
ghost use Rattle.std.specs.Prelude.{ℕ};
ghost use Rattle.ports_serve.specs.Calls.{Call};

use case_lines::Trouble;
use ports_serve::{Listen, Outcome, Wire};
use portsd_host::{Loopback, Sockets};
use std::alloc::Global;
use std::net::{Net, SocketAddr};

/// Socket clients of a worked case, which do a step of their own between the steps of the service.
pub trait Clients: Drop {
    /// Does what the sockets allow now: a socket client connects, sends, takes what has come, or leaves.
    fn step(&mut self);
}

/// What listens in a worked case, and its socket clients, which do one step at each accept.
#[derive(Drop)]
pub struct WithClients<C: Clients> {
    /// What listens.
    pub sockets: Sockets,
    /// The clients.
    pub clients: C,
}

impl<C: Clients> Wire for WithClients<C> {
    ghost after = { λ old call new. Unit {0} };

    /// The socket clients do a step, and then the sockets accept a client.
    fn accept(&mut self, conn: u64, _idle: bool) -> Outcome<()> {
        self.clients.step();
        self.sockets.accept(conn, false)
    }

    /// Reads from a socket client's connection.
    fn read(&mut self, conn: u64, buffer: &mut [u8]) -> Outcome<usize> {
        self.sockets.read(conn, buffer)
    }

    /// Writes to a socket client's connection.
    fn write(&mut self, conn: u64, bytes: &[u8]) -> Outcome<usize> {
        self.sockets.write(conn, bytes)
    }

    /// Shuts a socket client's connection.
    fn shut(&mut self, conn: u64) {
        self.sockets.shut(conn);
    }
}

/// What listens on the port for socket clients of a worked case, and its address.
pub fn listening(
    alloc: Global,
    net: &impl Net,
    port: u16,
) -> Result<(Sockets, SocketAddr), Trouble> {
    let sockets = Loopback::new(net)
        .listen(alloc, port)
        .map_err(|_| Trouble::NoCase)?;
    let address = sockets.address().map_err(|_| Trouble::NoCase)?;
    Ok((sockets, address))
}
