//! How often a parse or an evaluation that was kept in a cache was used.

/// How often something that was kept was used. Each number goes no higher than 2^64 - 1.
#[derive(Clone, Copy, Debug, PartialEq, Eq)]
pub struct Counts {
    /// The parses that were kept when they were asked for.
    pub parses: u64,
    /// The evaluations that a look found.
    pub evals: u64,
}
