//! A makefile's bytes parsed into the tree of its blocks.
ghost use Rattle.std.specs.Prelude.{◌≡◌, ◌≤◌, ◌+◌, ◌==◌, length, take, count_by};
ghost use Rattle.refusals.specs.Refused.{refused};
ghost use Rattle.mk_text.specs.Lines.{logical_lines};
ghost use Rattle.mk_ast.specs.declared.parser.ParseError.TheVariants as errors;
ghost use Rattle.mk_ast.specs.Blocks.{blocks_of};
ghost use Rattle.mk_ast.specs.Parser.{HoldsOfAnswer, IsParse, parsed, with_kind, AnswersWith};

use crate::nodes::{BLOCKS, Makefile};
use crate::reader::Reader;
use mk_base::FaultKind;
use mk_text::logical_lines;
use refusals::OutOfMemory;
use std::alloc::{AllocError, AllocFailed, Global};
use thiserror::Error;

/// What is wrong with a makefile as a whole, and where.
#[derive(Debug, Clone, Copy, PartialEq, Eq, Error)]
#[error("line {line}: {kind}")]
pub struct ParseFault {
    /// `Utf8`, or `Block`.
    pub kind: FaultKind,
    /// The line, counted from 1: that of the first bad byte, or that of the logical line at fault.
    pub line: u64,
}

/// Why a makefile has no tree.
#[derive(Debug, Clone, Copy, PartialEq, Eq, Error)]
pub enum ParseError {
    /// It is at fault.
    #[error("{0}")]
    Fault(ParseFault),
    /// Memory ran out.
    #[error("out of memory")]
    Memory(OutOfMemory),
}

impl From<AllocError> for ParseError {
    ghost from_gives = { λ _ error. error ≡ errors.Memory refused };

    /// If an allocation is refused, a makefile isn't parsed, and the error is `Memory`.
    fn from(error: AllocError) -> ParseError {
        ParseError::Memory(OutOfMemory::from(error))
    }
}

impl<T: Drop> From<AllocFailed<T>> for ParseError {
    ghost from_gives = { λ _ error. error ≡ errors.Memory refused };

    /// If an allocation that gives a value back is refused, a makefile isn't parsed, and the error is
    /// `Memory`.
    fn from(error: AllocFailed<T>) -> ParseError {
        ParseError::Memory(OutOfMemory::from(error))
    }
}

/// The line of a makefile, counted from 1, with its first byte that isn't UTF-8. `valid` bytes come before
/// that byte.
fn bad_line(bytes: &[u8], valid: usize) -> u64
    requires { valid ≤ length bytes.now }
    ensures { result ≡ 1 + count_by (λ byte. byte == 10) (take valid bytes.now) }
{
    1 + bytes[..valid].iter().filter(|byte| **byte == b'\n').count() as u64
}

/// The bytes of a makefile parsed into the tree of its blocks. Its lines are those of
/// `mk_text::logical_lines`.
///
/// A block goes from a form of `.if` over forms of `.elif` and at most one `.else` to `.endif`, or from
/// `.for` to `.endfor`. What follows `.else`, `.endif` and `.endfor` on their lines is ignored. At most
/// `BLOCKS` blocks may be one inside another.
///
/// The time is linear in the length of `bytes`.
///
/// # Errors
///
/// - `Fault` of kind `Utf8` if the bytes aren't UTF-8, at the physical line of the first bad byte: one
///   more than the number of line feeds before it.
/// - Else `Fault` of kind `Block` at the first line that is out of place. That is a part without its
///   block, also in a block of another kind; an `.elif` or `.else` after an `.else`; or a line that
///   opens a block too deep.
/// - Else `Fault` of kind `Block` at the first line of the innermost block that doesn't end.
/// - `Memory` if memory for the lines or the tree runs out.
pub fn parse(alloc: Global, bytes: &[u8]) -> Result<Makefile, ParseError>
    ensures reads { HoldsOfAnswer result (IsParse bytes.now) }
    ensures function { HoldsOfAnswer result (λ answer. answer ≡ parsed bytes.now) }
{
    match str::from_utf8(bytes) {
        Ok(text) => parse_text(alloc, text),
        Err(error) => Err(ParseError::Fault(ParseFault {
            kind: FaultKind::Utf8,
            line: bad_line(bytes, error.valid_up_to()),
        })),
    }
}

/// The text of a makefile parsed into the tree of its blocks.
fn parse_text(alloc: Global, text: &str) -> Result<Makefile, ParseError>
    ensures { AnswersWith result (with_kind (blocks_of BLOCKS (logical_lines text.now))) }
{
    let mut reader = Reader::new(alloc);
    for line in logical_lines(alloc, text)? {
        reader = reader.step(alloc, line)?;
    }
    reader.finish(alloc)
}
