//! The job of a tenant: what its first request has had so far.
ghost use Rattle.std.specs.Prelude.{◌≡◌};
ghost use Rattle.ports_core.specs.Jobs.{no_job};

/// The job of a tenant: what its first request has had so far, while it isn't answered. All counts stop at
/// 2^64 - 1.
#[derive(Clone, Copy, Debug, PartialEq, Eq)]
pub struct Job {
    /// The turns in which work was done for it.
    pub turns: u64,
    /// The units that these turns told.
    pub units: u64,
    /// The checked answers that these turns told.
    pub checks: u64,
}

impl Job {
    /// The job of a tenant whose first request has had nothing so far.
    pub fn nothing() -> Job
        ensures { result ≡ no_job }
    {
        Job {
            turns: 0,
            units: 0,
            checks: 0,
        }
    }
}
