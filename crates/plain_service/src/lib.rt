//! The plain service: what one request asks of one tenant's world, and the answer, given what this takes of the world: a
//! file, the evaluation of a makefile, or the index. It knows nothing of connections, queues, sharing or suspension.
#![tactic(auto)]

mod bodies;
mod change;
mod dependency_routes;
mod depth;
mod file_route;
mod index_questions;
mod json_text;
mod laws;
mod list_bodies;
mod list_routes;
mod parameters;
mod path_route;
mod plain;
mod port_bodies;
mod port_routes;
mod profile_route;
mod questions;
mod replies;
mod routes;
mod spaces;
mod target;

pub use change::{Change, Prepared};
pub use dependency_routes::{DependencyQuestion, Direction};
pub use depth::Depth;
pub use file_route::FileQuestion;
pub use index_questions::IndexQuestion;
pub use laws::{
    never_answers_503, others_keep_the_profile, rests_on_each_once, spending_is_bounded,
};
pub use plain::Plain;
pub use port_routes::{PortQuestion, VariableQuestion, no_port};
pub use questions::Question;
pub use replies::full;
