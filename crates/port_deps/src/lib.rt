//! What ports depend on: what their items ask for, whether that is there (the status of each edge), and the
//! entries in the lists of roots and edges of a ports tree.
#![tactic(auto)]

mod edge;
mod item;
mod item_text;
mod root;
mod root_edge;
mod statuses;
mod wanted;

pub use edge::{Edge, resolve};
pub use item::{Item, items};
pub use item_text::{has_comma, read_wanted};
pub use root::Root;
pub use root_edge::RootEdge;
pub use statuses::{Found, Status};
pub use wanted::Wanted;
