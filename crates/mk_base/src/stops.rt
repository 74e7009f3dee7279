//! How work on a makefile stops: at a fault, by a store that fails, or as memory runs out.
ghost use Rattle.std.specs.Prelude.{◌≡◌};
ghost use Rattle.refusals.specs.Refused.{refused};
ghost use Rattle.mk_base.specs.declared.stops.PureStop.TheVariants as pure;
ghost use Rattle.mk_base.specs.declared.stops.Stop.TheVariants as stops;
ghost use Rattle.mk_base.specs.Blame.{IsBlamed, IsBlamedPurely};
ghost use Rattle.mk_base.specs.Stops.{stop_of_pure};

use super::{Fault, FaultKind};
use refusals::{OutOfMemory, StoreRefusal};
use std::alloc::{AllocError, AllocFailed, Global};
use std::fmt::Display;
use thiserror::Error;

/// Why work on a makefile that looks at no file ended without its value. A fault of the makefile is a
/// result like any other. If memory ran out, the work can be done again.
#[derive(Debug, Drop, Error)]
#[error_bound(F: Display)]
pub enum PureStop<F> {
    /// The makefile is at fault.
    #[error("{0}")]
    Fault(F),
    /// Memory ran out.
    #[error("out of memory")]
    Memory(OutOfMemory),
}

impl<F> From<AllocError> for PureStop<F> {
    ghost from_gives = { λ _ stop. stop ≡ pure.Memory refused };

    /// If an allocation is refused, work on a makefile that looks at no file stops with `Memory`.
    fn from(error: AllocError) -> PureStop<F> {
        PureStop::Memory(OutOfMemory::from(error))
    }
}

impl<F, T: Drop> From<AllocFailed<T>> for PureStop<F> {
    ghost from_gives = { λ _ stop. stop ≡ pure.Memory refused };

    /// If an allocation that gives a value back is refused, work on a makefile that looks at no file stops
    /// with `Memory`.
    fn from(error: AllocFailed<T>) -> PureStop<F> {
        PureStop::Memory(OutOfMemory::from(error))
    }
}

impl From<FaultKind> for PureStop<FaultKind> {
    ghost from_gives = { λ kind stop. stop ≡ pure.Fault kind };

    /// A kind of fault as the stop of work on a makefile that looks at no file, still without its place.
    fn from(kind: FaultKind) -> PureStop<FaultKind> {
        PureStop::Fault(kind)
    }
}

impl PureStop<FaultKind> {
    /// The stop of work on a makefile that looks at no file, its fault with its place: the file's name and
    /// the line. If memory for the name runs out, the result is `Memory` instead.
    pub fn blame(self, alloc: Global, name: &str, line: u64) -> PureStop<Fault>
        ensures { IsBlamedPurely name.now line self result }
    {
        match self {
            PureStop::Fault(kind) => match Fault::new(alloc, kind, name, line) {
                Ok(fault) => PureStop::Fault(fault),
                Err(error) => PureStop::from(error),
            },
            PureStop::Memory(refused) => PureStop::Memory(refused),
        }
    }
}

/// Why work on a makefile that may look at files ended without its value. A fault of the makefile is a
/// result like any other. If the store refused or memory ran out, the work can be done again.
#[derive(Debug, Drop, Error)]
#[error_bound(F: Display)]
pub enum Stop<F> {
    /// The makefile is at fault.
    #[error("{0}")]
    Fault(F),
    /// The store of the files refused.
    #[error("the store of the files failed")]
    Store(StoreRefusal),
    /// Memory ran out.
    #[error("out of memory")]
    Memory(OutOfMemory),
}

impl<F> From<AllocError> for Stop<F> {
    ghost from_gives = { λ _ stop. stop ≡ stops.Memory refused };

    /// If an allocation is refused, work on a makefile that may look at files stops with `Memory`.
    fn from(error: AllocError) -> Stop<F> {
        Stop::Memory(OutOfMemory::from(error))
    }
}

impl<F, T: Drop> From<AllocFailed<T>> for Stop<F> {
    ghost from_gives = { λ _ stop. stop ≡ stops.Memory refused };

    /// If an allocation that gives a value back is refused, work on a makefile that may look at files stops
    /// with `Memory`.
    fn from(error: AllocFailed<T>) -> Stop<F> {
        Stop::Memory(OutOfMemory::from(error))
    }
}

impl<F> From<PureStop<F>> for Stop<F> {
    ghost from_gives = { λ pure stop. stop ≡ stop_of_pure pure };

    /// The stop of work that looks at no file, as a stop of work that may look at files.
    fn from(stop: PureStop<F>) -> Stop<F> {
        match stop {
            PureStop::Fault(fault) => Stop::Fault(fault),
            PureStop::Memory(refused) => Stop::Memory(refused),
        }
    }
}

impl From<FaultKind> for Stop<FaultKind> {
    ghost from_gives = { λ kind stop. stop ≡ stops.Fault kind };

    /// A kind of fault as the stop of work on a makefile that may look at files, still without its place.
    fn from(kind: FaultKind) -> Stop<FaultKind> {
        Stop::Fault(kind)
    }
}

impl Stop<FaultKind> {
    /// The stop of work on a makefile that may look at files, its fault with its place: the file's name and
    /// the line. If memory for the name runs out, the result is `Memory` instead.
    pub fn blame(self, alloc: Global, name: &str, line: u64) -> Stop<Fault>
        ensures { IsBlamed name.now line self result }
    {
        match self {
            Stop::Fault(kind) => Stop::from(PureStop::Fault(kind).blame(alloc, name, line)),
            Stop::Store(refusal) => Stop::Store(refusal),
            Stop::Memory(refused) => Stop::Memory(refused),
        }
    }
}
