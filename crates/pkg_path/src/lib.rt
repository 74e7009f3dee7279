//! Package paths, which name ports (pkgpath(7)).
#![tactic(auto)]

mod elements;
mod faults;
mod flavors;
mod laws;
mod path;

pub use faults::PkgPathFault;
pub use laws::{canonical_names_the_path, same_text_same_path, stays_a_path};
pub use path::{PkgPath, is_bare};
