//! Names of packages, `stem-version-flavors`, and versions with their order (packages-specs(7)).
#![tactic(auto)]

mod laws;
mod name;
mod version;
mod version_order;

pub use laws::{
    any_two_compare, equal_as_texts, lower_than_lower, name_is_its_text, never_both_lower,
    other_way_round,
};
pub use name::{NameFault, PkgName};
pub use version::{Version, VersionFault};
