//! The kinds of fault of makefiles, and a fault with its place: a file and a line.
ghost use Rattle.std.specs.Prelude.{◌≡◌, IfOk};
ghost use Rattle.mk_base.specs.Faults.{fault_number};
ghost use Rattle.mk_base.specs.FaultAt.{fault_at};

use std::alloc::{AllocError, Global};
use std::marker::Model;
use thiserror::Error;

/// The kinds of fault that a makefile can have, or a port that a makefile describes. Each kind has the
/// number by which replies name it.
#[derive(Clone, Copy, Debug, PartialEq, Eq, Error)]
pub enum FaultKind {
    /// A line that can't be read, found when it is executed.
    #[error("a line that can't be read")]
    Line = 1,
    /// Blocks that don't nest: a block that isn't closed, a part without its block, or a block too
    /// deep.
    #[error("blocks that don't nest")]
    Block = 2,
    /// A condition that can't be read, or one that asks for an order between texts.
    #[error("a condition that can't be read")]
    Condition = 3,
    /// A loop's header that can't be read, or a number of words that isn't a multiple of the number of
    /// variables.
    #[error("the header of a loop that can't be read")]
    For = 4,
    /// An included file that doesn't exist, or a name that isn't a file's name.
    #[error("an included file that isn't there")]
    Include = 5,
    /// Files that include one another more than 16 deep.
    #[error("files that include one another more than 16 deep")]
    IncludeDepth = 6,
    /// A reference that doesn't end: its `$` begins nothing.
    #[error("a reference that doesn't end")]
    Reference = 7,
    /// A modifier that can't be read.
    #[error("a modifier that can't be read")]
    Modifier = 8,
    /// A variable whose value refers to itself.
    #[error("a variable whose value refers to itself")]
    Recursive = 9,
    /// More than 32 references one inside another.
    #[error("more than 32 references one inside another")]
    Depth = 10,
    /// More units of work than the budget has.
    #[error("more units of work than the budget has")]
    Budget = 11,
    /// A text of more than 65,536 bytes.
    #[error("a text of more than 65,536 bytes")]
    Length = 12,
    /// An assignment of a command's output. Nothing here runs commands.
    #[error("an assignment of a command's output")]
    Shell = 13,
    /// Bytes that aren't UTF-8.
    #[error("bytes that aren't UTF-8")]
    Utf8 = 14,
    /// A flavor that the port doesn't have.
    #[error("a flavor that the port doesn't have")]
    Flavor = 15,
    /// A package without a name.
    #[error("a package without a name")]
    NoName = 16,
    /// A name that can't be a package's name.
    #[error("a name that can't be a package's")]
    BadName = 17,
    /// More than 256 questions about files.
    #[error("more than 256 questions about files")]
    Questions = 18,
}

impl FaultKind {
    /// The number of a kind of fault of makefiles, from 1 to 18, as replies show it.
    pub fn number(self) -> u8
        ensures { result ≡ fault_number self }
    {
        self as u8
    }
}

/// A fault with the place where it arose.
#[derive(Debug, Drop, Error)]
#[error("{name}:{line}: {kind}")]
pub struct Fault {
    kind: FaultKind,
    name: String,
    line: u64,
}

impl Model for Fault {
    ghost use Rattle.mk_base.specs.FaultAt.{FaultAt};

    ghost Value = { FaultAt };

    ghost use Rattle.std.specs.Prelude.{string_bytes};

    ghost view = { λ f. record { kind = f.kind; name = string_bytes f.name; line = f.line } };
}

impl Fault {
    /// A fault of a makefile with its place: its kind, and this line of the named file. Line 0 means that no
    /// line of the file is at fault. It fails only if memory for the name runs out.
    pub fn new(alloc: Global, kind: FaultKind, name: &str, line: u64) -> Result<Fault, AllocError>
        ensures { IfOk result (λ f. f ≡ fault_at kind name.now line) }
    {
        Ok(Fault {
            kind,
            name: String::from_str(alloc, name)?,
            line,
        })
    }

    /// The kind of a makefile's fault: what went wrong.
    pub fn kind(&self) -> FaultKind
        ensures { result ≡ self.now.kind }
    {
        self.kind
    }

    /// The resolved name of the file where a makefile's fault arose.
    pub fn name(&self) -> &str
        ensures { result.now ≡ self.now.name }
    {
        self.name.as_str()
    }

    /// The line where a makefile's fault arose, counted from 1. It is 0 if the file as a whole is at fault.
    pub fn line(&self) -> u64
        ensures { result ≡ self.now.line }
    {
        self.line
    }
}
