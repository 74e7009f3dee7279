//! Why a text is no package spec.
ghost use Rattle.std.specs.Prelude.{◌≡◌};
ghost use Rattle.refusals.specs.Refused.{refused};
ghost use Rattle.pkg_spec.specs.Alternatives.{refusal_number};
ghost use Rattle.pkg_spec.specs.declared.faults.SpecFault.TheVariants.{Memory};

use refusals::OutOfMemory;
use std::alloc::AllocError;
use thiserror::Error;

/// Why a text is no package spec. If several refusals fit, in one alternative or in several, it is the first
/// of them.
#[derive(Clone, Copy, Debug, PartialEq, Eq, Error)]
pub enum SpecFault {
    /// An alternative has no stem, or no versions: no dash that a digit, `*` or a sign follows.
    #[error("an alternative of the spec has no stem or no versions")]
    NoStem,
    /// What should be a version isn't one, or a flavor has no name.
    #[error("the spec has a bad version or a flavor without a name")]
    BadVersion,
    /// An alternative is empty.
    #[error("an alternative of the spec is empty")]
    EmptyAlternative,
    /// There was no memory for the spec.
    #[error("out of memory")]
    Memory(OutOfMemory),
}

impl SpecFault {
    /// The number of the refusal of a package spec, 1 to 3; `None` for `Memory`, which isn't a refusal.
    pub fn number(&self) -> Option<u8>
        ensures { result ≡ refusal_number self.now }
    {
        match self {
            SpecFault::NoStem => Some(1),
            SpecFault::BadVersion => Some(2),
            SpecFault::EmptyAlternative => Some(3),
            SpecFault::Memory(_) => None,
        }
    }
}

impl From<AllocError> for SpecFault {
    ghost from_gives = { λ _ fault. fault ≡ Memory refused };

    /// The fault that there was no memory for a package spec.
    fn from(error: AllocError) -> SpecFault {
        Self::Memory(OutOfMemory::from(error))
    }
}
