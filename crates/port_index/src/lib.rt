//! The index of a ports tree by the rows of its paths: its ports, each with what it is, and their dependencies with
//! their statuses.
#![tactic(auto)]

mod alike_rows;
mod asked_names;
mod flavored_paths;
mod known_index;
mod laws;
mod makefiles;
mod memory_rows;
mod noted_rows;
mod path_finder;
mod path_outcomes;
mod root_edges;
mod roots;
mod tree_paths;

pub use alike_rows::{are_same, name_alike};
pub use asked_names::insert_text;
pub use flavored_paths::flavored_targets;
pub use known_index::{IndexPaths, KnownIndex};
pub use laws::{
    alike_rows_list_the_same, known_rows_are_enough, listed_paths_cost_no_more,
    makefiles_are_evaluated, makefiles_are_of_directories, needed_are_named,
    one_row_more_leaves_less, path_is_the_same_where_answered, same_makefiles_serve,
};
pub use makefiles::{is_makefile, makefiles_are_there};
pub use memory_rows::{MemoryRows, RowFinder, is_one_among};
pub use noted_rows::KnownRow;
pub use path_finder::PathFinder;
pub use path_outcomes::{Finding, Row, finding_of};
pub use tree_paths::{directories, is_found_in, listed};
