//! Worked cases of a loopback client: the service on a socket, with one client in the same process.
use crate::http_calls::bytes_answer;
use crate::service::service_of_one;
use crate::socket_clients::{Clients, WithClients, listening};
use case_lines::{Answer, Trouble};
use mio::net::TcpStream;
use ports_serve::serve;
use std::alloc::Global;
use std::io::{Read, Write};
use std::net::{Net, SocketAddr};

/// How many rounds a loopback client is served.
const ROUNDS: u32 = 200;

/// The loopback client of a worked case.
#[derive(Drop)]
struct Client {
    stream: TcpStream,
    unsent: Vec<u8>,
    taken: Vec<u8>,
    is_closed: bool,
}

impl Client {
    /// A loopback client of what listens on the address, which is to send these bytes.
    fn connect(
        alloc: Global,
        net: &impl Net,
        address: SocketAddr,
        sent: &[u8],
    ) -> Result<Client, Trouble> {
        Ok(Client {
            stream: TcpStream::connect(net, address).map_err(|_| Trouble::NoCase)?,
            unsent: Vec::from_slice(alloc, sent)?,
            taken: Vec::new(alloc),
            is_closed: false,
        })
    }
}

impl Clients for Client {
    /// The loopback client sends what its socket takes, and takes what has come, or learns that nothing more
    /// will.
    fn step(&mut self) {
        if let Ok(count) = self.stream.write(self.unsent.as_slice()) {
            self.unsent.drain(..count);
        }
        let mut bytes = [0; 256];
        if let Ok(count) = self.stream.read(&mut bytes) {
            self.is_closed |= count == 0;
            let _ = self.taken.extend_from_slice(&bytes[..count]);
        }
    }
}

/// The call `loopback BYTES` of a worked case of a loopback client: what a client is sent over a socket if it
/// sends these bytes, and whether its connection is then `open` or `closed`. It is served for 200 rounds by a
/// service with the key `alpha`.
pub fn answered(alloc: Global, net: &impl Net, given: &[Vec<u8>]) -> Result<Answer, Trouble> {
    let [sent] = given else {
        return Err(Trouble::NoCase);
    };
    let service = service_of_one(alloc)?;
    let (sockets, address) = listening(alloc, net, 0)?;
    let clients = Client::connect(alloc, net, address, sent.as_slice())?;
    let mut wire = WithClients { sockets, clients };
    let _service = serve(alloc, &mut wire, service, ROUNDS)?;
    let client = wire.clients;
    let mut answer = bytes_answer(alloc, client.taken.as_slice());
    answer.word(if client.is_closed { "closed" } else { "open" });
    Ok(answer)
}
