//! Worlds of files: what it is to read them and to ask about them, the contents that are shared, and a
//! world kept in memory. Also how many files and bytes a tenant may have: 2,000 and 8,388,608.
#![tactic(auto)]

mod content;
mod files;
mod memory_files;
mod questions;
mod usage;

pub use content::Content;
pub use files::{Files, Listing};
pub use memory_files::MemoryFiles;
pub use questions::{ask_has, ask_read, look_has, look_read};
pub use usage::{MOST_BYTES, MOST_FILES, Usage};
