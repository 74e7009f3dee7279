//! The patterns of the make language's `:M` and `:N`, matched against words.
#![tactic(auto)]

mod brackets;
mod laws;
mod matcher;
mod pattern_signs;

pub use laws::fits_where_cut;
pub use matcher::glob;
