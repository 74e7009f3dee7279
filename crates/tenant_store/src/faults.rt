//! Why a tenant's file isn't stored.

use mk_paths::FilesFault;
use refusals::{OutOfMemory, StoreRefusal};
use thiserror::Error;

/// Why a file was not stored. Nothing has changed then.
#[derive(Clone, Copy, Debug, PartialEq, Eq, Error)]
pub enum PutFault {
    /// The tenant would have more than 2,000 files, or more than 8,388,608 bytes of contents.
    #[error("the tenant would have more than 2,000 files or 8,388,608 bytes")]
    Full,
    /// The database refused a statement.
    #[error("the store failed")]
    Store(StoreRefusal),
    /// Memory ran out.
    #[error("out of memory")]
    Memory(OutOfMemory),
}

impl From<FilesFault> for PutFault {
    ghost use Rattle.std.specs.Prelude.{◌≡◌};
    ghost use Rattle.tenant_store.specs.Faults.{put_fault};

    ghost from_gives = { λ fault result. result ≡ put_fault fault };

    /// Why a tenant's file isn't stored, by the fault of its files: the database or memory.
    fn from(fault: FilesFault) -> PutFault {
        match fault {
            FilesFault::Store(refusal) => PutFault::Store(refusal),
            FilesFault::Memory(refused) => PutFault::Memory(refused),
        }
    }
}
