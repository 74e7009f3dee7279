//! The tree of a makefile's blocks: lines, choices and loops.

use mk_text::Logical;
use std::rc::Rc;

/// How many blocks may be one inside another.
pub const BLOCKS: usize = 64;

/// Lines and blocks in order. They are shared: a copy of the pointer is a copy of them all.
pub type Block = Rc<Vec<Node>>;

/// The later branches of a choice, in order. They are shared as the lines of a `Block` are.
pub type Branches = Rc<Vec<Branch>>;

/// A line that isn't part of a block's frame, or a block.
#[derive(Debug, Drop)]
#[cycle(tree)]
pub enum Node {
    /// A line that opens, divides or closes no block.
    Line(Logical),
    /// A choice, from a form of `.if` to its `.endif`.
    Choice {
        /// The line of its `.if`.
        head: Logical,
        /// What follows that line.
        body: Block,
        /// Its forms of `.elif`, in order.
        branches: Branches,
        /// What follows its `.else`, if it has one.
        otherwise: Option<Block>,
    },
    /// A loop, from a `.for` to its `.endfor`.
    Loop {
        /// The line of its `.for`.
        head: Logical,
        /// What is between that line and its `.endfor`.
        body: Block,
    },
}

/// A later branch of a choice.
#[derive(Debug, Drop)]
#[cycle(tree)]
pub struct Branch {
    /// The line of its `.elif`.
    pub head: Logical,
    /// What follows that line.
    pub body: Block,
}

/// A makefile, read into its tree.
#[derive(Debug, Drop)]
pub struct Makefile {
    /// Its lines and blocks.
    pub nodes: Block,
}
