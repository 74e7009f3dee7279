//! The kinds of the lines of a makefile, and a makefile parsed into the tree of its blocks.
#![tactic(auto)]

mod assignments;
mod directives;
mod kinds;
mod laws;
mod line_kinds;
mod nodes;
mod parser;
mod parts;
mod reader;

pub use assignments::is_word;
pub use kinds::{Directive, LineKind, Operator};
pub use laws::{
    blocks_are_read, blocks_nest_64_deep, nothing_else_is_parsed, nothing_else_is_read,
    parts_have_one_block,
};
pub use line_kinds::{line_kind, plain_kind};
pub use nodes::{BLOCKS, Block, Branch, Branches, Makefile, Node};
pub use parser::{ParseError, ParseFault, parse};
