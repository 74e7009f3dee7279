//! The limit of a text of the make language: how many bytes it may have.
ghost use Rattle.std.specs.Prelude.{◌≡◌, ◌≤◌, ◌++◌, string_bytes, length, IfOk, IfErr, OnErr};
ghost use Rattle.refusals.specs.Refused.{refused};
ghost use Rattle.mk_text.specs.TextLimit.{IsTooLong};
ghost use Rattle.mk_text.specs.declared.limits.TextFault.TheVariants.{Memory};

use refusals::OutOfMemory;
use std::alloc::AllocError;
use thiserror::Error;

/// The most bytes that a text of the make language may have. It holds for a text that is stored, a text
/// that is expanded, and what a modifier makes.
pub const TEXT_LIMIT: usize = 65_536;

/// Why a text wasn't made.
#[derive(Debug, Clone, Copy, PartialEq, Eq, Error)]
pub enum TextFault {
    /// It would have more than 65,536 bytes.
    #[error("the text would have more than 65,536 bytes")]
    Length,
    /// Memory ran out.
    #[error("out of memory")]
    Memory(OutOfMemory),
}

impl From<AllocError> for TextFault {
    ghost from_gives = { λ _ fault. fault ≡ Memory refused };

    /// If an allocation is refused, a text of the make language isn't made, and the fault is `Memory`.
    fn from(error: AllocError) -> TextFault {
        TextFault::Memory(OutOfMemory::from(error))
    }
}

/// Adds `text` to the end of `made` within the limit of a text. If the whole would be too long, it fails, so
/// no longer text is ever made. If it fails, `made` stays as it was.
///
/// # Errors
///
/// `Length` if the whole would have more than 65,536 bytes; `Memory` if memory for it runs out.
pub fn add_text(made: &mut String, text: &str) -> Result<(), TextFault>
    ensures ok { IfOk result (λ _. (length (string_bytes made.new) ≤ TEXT_LIMIT)
        × (string_bytes made.new ≡ string_bytes made.old ++ text.now)) }
    ensures err { IfErr result (IsTooLong (string_bytes made.old ++ text.now)) }
    ensures kept { OnErr result (string_bytes made.new ≡ string_bytes made.old) }
{
    if made.len() + text.len() > TEXT_LIMIT {
        return Err(TextFault::Length);
    }
    made.push_str(text)?;
    Ok(())
}

/// The limit of a text of the make language is 65,536 bytes. The function does nothing: its clause is the
/// law.
pub fn text_limit()
    ensures { TEXT_LIMIT ≡ 65536 }
{}
