//! The refusal of a store: the value that says that a database refused a statement.
ghost use Rattle.std.specs.Prelude.{◌≡◌, ◌↔◌};
ghost use Rattle.refusals.specs.Refused.{refused};

use crate::libraries::Database;
use crate::memory::OutOfMemory;
use thiserror::Error;

/// A database refused a statement, for another reason than that memory ran out. There is one such value, which only
/// a database's error gives.
#[derive(Clone, Copy, Debug, PartialEq, Eq, Error)]
#[error("the store failed")]
pub struct StoreRefusal {
    refused: (),
}

/// Why a database refused a statement.
#[derive(Clone, Copy, Debug, PartialEq, Eq)]
pub enum Refusal {
    /// Memory ran out.
    Memory(OutOfMemory),
    /// Any other reason.
    Store(StoreRefusal),
}

impl Refusal {
    /// Why a database refused the statement that ended in this error: memory ran out, or the store failed.
    pub fn of<D: Database>(error: &D::Error) -> Refusal
        ensures { (result ≡ Refusal.Memory refused) ↔ D.for_memory error.now }
    {
        match OutOfMemory::told_by::<D>(error) {
            Some(refused) => Refusal::Memory(refused),
            None => Refusal::Store(StoreRefusal { refused: () }),
        }
    }
}
