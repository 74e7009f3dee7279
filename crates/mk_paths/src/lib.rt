//! File names, the search path of ports trees, and the place of a directory's makefile (ports(7)).
#![tactic(auto)]

mod file_name;
mod files;
mod places;
mod search_path;

pub use file_name::{Name, NameFault};
pub use files::{FilesFault, Names};
pub use places::find;
pub use search_path::{PathFault, SearchPath, Settings};
