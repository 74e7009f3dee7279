//! What a request asks of all ports, by the index.
ghost use Rattle.std.specs.Prelude.{◌≡◌};
ghost use Rattle.plain_service.specs.Answers.{follows_all, follows_edges, index_reply};
ghost use Rattle.plain_service.specs.Outcomes.{RepliesOver};

use crate::dependency_routes::{DependencyQuestion, Direction, dependency_reply};
use crate::depth::Depth;
use crate::list_routes::{faults_reply, list_reply, match_reply};
use pkg_spec::Spec;
use port_index::KnownIndex;
use ports_http::Reply;
use ports_query::Query;
use std::alloc::{AllocError, Global};

/// What a request asks of all ports, by the index.
#[derive(Drop)]
pub enum IndexQuestion {
    /// The packages that meet all these conditions.
    List(Query),
    /// The packages that this spec admits.
    Match(Spec),
    /// The faults of ports and lists.
    Faults,
    /// What a port depends on, or what depends on it.
    Dependencies(Direction, DependencyQuestion),
}

impl IndexQuestion {
    /// Whether the question of the index looks at the dependencies of all ports. A question about the
    /// dependencies of one port alone doesn't.
    pub fn follows_edges(&self) -> bool
        ensures { result ≡ follows_edges self.now }
    {
        match self {
            IndexQuestion::Dependencies(direction, asked) => follows_all(*direction, asked.depth),
            IndexQuestion::List(_) | IndexQuestion::Match(_) | IndexQuestion::Faults => false,
        }
    }

    /// The reply to the question of all ports, by the index of a world. It fails only if memory runs out.
    pub fn reply(&self, alloc: Global, index: &KnownIndex) -> Result<Reply, AllocError>
        ensures { RepliesOver index.now result (λ world. index_reply world self.now) }
    {
        match self {
            IndexQuestion::List(conditions) => list_reply(alloc, index, conditions),
            IndexQuestion::Match(spec) => match_reply(alloc, index, spec),
            IndexQuestion::Faults => faults_reply(alloc, index),
            IndexQuestion::Dependencies(direction, asked) => {
                dependency_reply(alloc, index, *direction, asked)
            }
        }
    }
}

/// Whether a question that follows dependencies this way, so far, looks at those of all ports.
fn follows_all(direction: Direction, depth: Depth) -> bool
    ensures { result ≡ follows_all direction depth }
{
    match direction {
        Direction::Dependencies => matches!(depth, Depth::All),
        Direction::Dependents => true,
    }
}
