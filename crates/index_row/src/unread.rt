//! Why the bytes of a row were not read.
ghost use Rattle.std.specs.Prelude.{◌≡◌};
ghost use Rattle.refusals.specs.Refused.{refused};
ghost use Rattle.index_row.specs.declared.unread.Unread.TheVariants.{Memory};

use refusals::OutOfMemory;
use std::alloc::{AllocError, AllocFailed};

/// Why the bytes of a row were not read.
#[derive(Clone, Copy, Debug, PartialEq, Eq)]
pub(crate) enum Unread {
    /// What was wanted isn't there.
    Damaged,
    /// Memory ran out.
    Memory(OutOfMemory),
}

impl From<AllocError> for Unread {
    ghost from_gives = { λ _ stop. stop ≡ Memory refused };

    /// The bytes of a row were not read since memory ran out.
    fn from(error: AllocError) -> Unread {
        Unread::Memory(OutOfMemory::from(error))
    }
}

impl<T: Drop> From<AllocFailed<T>> for Unread {
    ghost from_gives = { λ _ stop. stop ≡ Memory refused };

    /// The bytes of a row were not read since memory ran out for what was to be added.
    fn from(error: AllocFailed<T>) -> Unread {
        Unread::Memory(OutOfMemory::from(error))
    }
}
