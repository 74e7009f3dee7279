//! The trait of what listens for clients.
ghost use Rattle.std.specs.Prelude.{ℕ, IfOk};

use crate::wire::Wire;
use refusals::OutOfMemory;
use std::alloc::{AllocError, Global};
use thiserror::Error;

/// Why nothing listens for clients.
#[derive(Clone, Copy, Debug, PartialEq, Eq, Error)]
pub enum ListenFault {
    /// The port isn't available, or no socket is.
    #[error("the port can't be had")]
    Port,
    /// There was no memory for what listens.
    #[error("out of memory")]
    Memory(OutOfMemory),
}

impl From<AllocError> for ListenFault {
    /// The fault that nothing listens for clients since there was no memory.
    fn from(error: AllocError) -> ListenFault {
        ListenFault::Memory(OutOfMemory::from(error))
    }
}

/// What can begin to listen for clients.
///
/// `listens_on` says of a wire that it listens on a port. Nothing is known of sockets,
/// so theirs may be anything.
pub trait Listen {
    type Wire: Wire + Drop;

    ghost listens_on: { ℕ → Self.Wire → Type 0 };

    /// Listens for clients on the port, and gives the wire that carries their bytes. The error is `Port` if
    /// the port isn't available, and `Memory` if memory runs out.
    fn listen(&self, alloc: Global, port: u16) -> Result<Self::Wire, ListenFault>
        ensures { IfOk result (listens_on port) };
}
