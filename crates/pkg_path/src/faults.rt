//! Why a text names no package path.
ghost use Rattle.std.specs.Prelude.{◌≡◌};
ghost use Rattle.refusals.specs.Refused.{refused};
ghost use Rattle.pkg_path.specs.Paths.{refusal_number};
ghost use Rattle.pkg_path.specs.declared.faults.PkgPathFault.TheVariants.{Memory};

use refusals::OutOfMemory;
use std::alloc::AllocError;
use thiserror::Error;

/// Why a text is no package path. If several refusals fit, it is the first of them.
#[derive(Clone, Copy, Debug, PartialEq, Eq, Error)]
pub enum PkgPathFault {
    /// The text is empty.
    #[error("the package path is empty")]
    Empty,
    /// More than one element begins with a dash.
    #[error("the package path has two subpackages")]
    TwoSubpackages,
    /// There is a byte that isn't printable ASCII, a blank or one of `: | < > = *`. Or a part of the
    /// directory is empty, `.` or `..`, or a dash has no name.
    #[error("the package path has a bad character")]
    BadCharacter,
    /// There was no memory for the path.
    #[error("out of memory")]
    Memory(OutOfMemory),
}

impl PkgPathFault {
    /// The number of the refusal of a package path, 1 to 3; `None` for `Memory`, which isn't a refusal.
    pub fn number(&self) -> Option<u8>
        ensures { result ≡ refusal_number self.now }
    {
        match self {
            PkgPathFault::Empty => Some(1),
            PkgPathFault::TwoSubpackages => Some(2),
            PkgPathFault::BadCharacter => Some(3),
            PkgPathFault::Memory(_) => None,
        }
    }
}

impl From<AllocError> for PkgPathFault {
    ghost from_gives = { λ _ fault. fault ≡ Memory refused };

    /// The fault that there was no memory for a package path.
    fn from(error: AllocError) -> PkgPathFault {
        Self::Memory(OutOfMemory::from(error))
    }
}
