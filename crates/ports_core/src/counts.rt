//! The counts of a service: how often something that is kept was used.

/// How often something was used that was kept when it was asked for. Each number goes no higher than 2^64 - 1.
#[derive(Clone, Copy, Debug, PartialEq, Eq)]
pub struct Counts {
    /// The parses.
    pub parses: u64,
    /// The evaluations.
    pub evals: u64,
}
