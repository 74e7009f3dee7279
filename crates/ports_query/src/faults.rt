//! Why a text is no query of packages.
ghost use Rattle.std.specs.Prelude.{◌≡◌};
ghost use Rattle.refusals.specs.Refused.{refused};
ghost use Rattle.ports_query.specs.declared.faults.QueryFault.TheVariants.{Memory};

use refusals::OutOfMemory;
use std::alloc::AllocError;
use thiserror::Error;

/// Why a text is no query of packages.
#[derive(Clone, Copy, Debug, PartialEq, Eq, Error)]
pub enum QueryFault {
    /// There are more than eight conditions, or one has no operator or is on a field that doesn't exist. Or
    /// one is of order, but isn't on the version, or its value is no version.
    #[error("not conditions on packages")]
    BadQuery,
    /// There is no memory for the query.
    #[error("out of memory")]
    Memory(OutOfMemory),
}

impl From<AllocError> for QueryFault {
    ghost from_gives = { λ _ fault. fault ≡ Memory refused };

    /// The fault that there is no memory for a query.
    fn from(error: AllocError) -> QueryFault {
        QueryFault::Memory(OutOfMemory::from(error))
    }
}
