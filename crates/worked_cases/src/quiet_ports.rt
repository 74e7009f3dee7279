//! Quiet ports, for the runs of worked cases: ports on which no client comes.
ghost use Rattle.std.specs.Prelude.{ℕ};
ghost use Rattle.ports_serve.specs.Calls.{Call};

use ports_serve::{Listen, ListenFault, Outcome, Wire};
use std::alloc::Global;

/// The quiet ports of worked cases: any port can be listened on but 1, which isn't available, and 2, for
/// which there is no memory.
#[derive(Clone, Copy)]
pub struct QuietPorts;

/// The wire of a quiet port, on which no client comes.
#[derive(Drop)]
pub struct Quiet;

impl Listen for QuietPorts {
    type Wire = Quiet;

    ghost listens_on = { λ port wire. Unit {0} };

    /// Listens on a quiet port. Port 1 isn't available, and for port 2 there is no memory.
    fn listen(&self, alloc: Global, port: u16) -> Result<Quiet, ListenFault> {
        match port {
            1 => Err(ListenFault::Port),
            2 => {
                let _room = Vec::<u8>::with_capacity(alloc, usize::MAX)?;
                Ok(Quiet)
            }
            _ => Ok(Quiet),
        }
    }
}

impl Wire for Quiet {
    ghost after = { λ old call new. Unit {0} };

    /// No client comes on a quiet port.
    fn accept(&mut self, _conn: u64, _idle: bool) -> Outcome<()> {
        Outcome::Nothing
    }

    /// A quiet port has no connection to read from.
    fn read(&mut self, _conn: u64, _buffer: &mut [u8]) -> Outcome<usize> {
        Outcome::Fault
    }

    /// A quiet port has no connection to write to.
    fn write(&mut self, _conn: u64, _bytes: &[u8]) -> Outcome<usize> {
        Outcome::Fault
    }

    /// A quiet port has no connection to shut.
    fn shut(&mut self, _conn: u64) {}
}
