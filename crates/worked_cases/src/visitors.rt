//! Worked cases of visitors: clients over TCP that come one after another, and where the service listens for
//! them.
use crate::service::service_of_one;
use crate::socket_clients::{Clients, WithClients, listening};
use case_lines::{Answer, Trouble, as_number};
use mio::net::TcpStream;
use ports_serve::{Listen, serve};
use portsd_host::Loopback;
use std::alloc::Global;
use std::io::{Read, Write};
use std::net::{IpAddr, Ipv4Addr, Net, SocketAddr};

/// More rounds than the visitors of a case take, each of which takes a few.
const ROUNDS: u32 = 2_000;

/// The visitors of a worked case: clients of what listens on the address. The one that is there sends what it
/// has, and leaves once it was sent something. Then the next one comes.
#[derive(Drop)]
struct Visitors<'a, N: Net> {
    net: &'a N,
    address: SocketAddr,
    sent: &'a [u8],
    client: Option<TcpStream>,
    unsent: &'a [u8],
    last: Vec<u8>,
    served: u64,
    most: u64,
}

impl<N: Net> Clients for Visitors<'_, N> {
    /// A step of the visitor that is there, or of the next one, as long as one is left.
    fn step(&mut self) {
        match &mut self.client {
            None if self.served < self.most => {
                self.unsent = self.sent;
                self.client = TcpStream::connect(self.net, self.address).ok();
            }
            None => {}
            Some(client) => {
                if let Ok(count) = client.write(self.unsent) {
                    self.unsent = self.unsent.get(count..).unwrap_or(&[]);
                }
                let mut bytes = [0; 256];
                let count = client.read(&mut bytes).unwrap_or(0);
                if count > 0 {
                    self.leave(&bytes[..count]);
                }
            }
        }
    }
}

impl<N: Net> Visitors<'_, N> {
    /// The visitor that is there was sent these bytes, and leaves.
    fn leave(&mut self, bytes: &[u8]) {
        self.client = None;
        self.last.clear();
        let _ = self.last.extend_from_slice(bytes);
        self.served = self.served.saturating_add(1);
    }
}

/// The call `visits STREAM by N` of a worked case of visitors: how many of N clients that come one after
/// another over sockets are sent something, and what the last of them was sent. The service has the key
/// `alpha`. Each client sends this stream, and leaves once it was sent something.
pub fn served(alloc: Global, net: &impl Net, given: &[Vec<u8>]) -> Result<Answer, Trouble> {
    let [sent, most] = given else {
        return Err(Trouble::NoCase);
    };
    let (sockets, address) = listening(alloc, net, 0)?;
    let visitors = Visitors {
        net,
        address,
        sent: sent.as_slice(),
        client: None,
        unsent: &[],
        last: Vec::new(alloc),
        served: 0,
        most: as_number(most)?,
    };
    let mut wire = WithClients {
        sockets,
        clients: visitors,
    };
    let _service = serve(alloc, &mut wire, service_of_one(alloc)?, ROUNDS)?;
    let visitors = wire.clients;
    let mut answer = Answer::new(alloc);
    answer.number(visitors.served);
    answer.text(visitors.last.as_slice());
    Ok(answer)
}

/// The call `listen` of a worked case of visitors: a port is found that is free, and listened on. It gives
/// whether the address that is then listened on is `127.0.0.1`, and whether it has that port; and why a
/// second one can't listen there.
pub fn listens(alloc: Global, net: &impl Net) -> Result<Answer, Trouble> {
    let port = free_port(alloc, net)?;
    let (_sockets, address) = listening(alloc, net, port)?;
    let is_local = address.ip() == IpAddr::V4(Ipv4Addr::new(127, 0, 0, 1));
    let mut answer = Answer::of_choice(alloc, is_local, "127.0.0.1", "elsewhere");
    answer.word(if address.port() == port {
        "there"
    } else {
        "on another port"
    });
    match Loopback::new(net).listen(alloc, port) {
        Ok(_sockets) => answer.word("and again"),
        Err(fault) => answer.kind(&fault),
    }
    Ok(answer)
}

/// A port that nothing listens on, where the service may listen for visitors.
fn free_port(alloc: Global, net: &impl Net) -> Result<u16, Trouble> {
    let (_sockets, address) = listening(alloc, net, 0)?;
    Ok(address.port())
}
