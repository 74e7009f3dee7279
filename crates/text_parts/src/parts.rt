//! The parts of a text between its marks, and copies of texts.
ghost use Rattle.std.specs.Prelude.{◌≡◌, ◌==◌, ◌<◌, IfOk, map};
ghost use Rattle.std.specs.String.{string_bytes};
ghost use Rattle.text_parts.specs.Cuts.{now_all, CutsAtEach};

use std::alloc::{AllocError, Global};

/// The parts of a text between its marks, in their order: one more than there are marks. It fails only
/// if memory runs out.
pub fn split_at(alloc: Global, text: &str, mark: char) -> Result<Vec<&str>, AllocError>
    requires { mark < 128 }
    ensures { CutsAtEach result mark text.now }
{
    text.split(mark).collect(alloc)
}

/// A copy of each of these texts, as the parts of a text, in the same order. It fails only if memory runs
/// out.
pub fn copies_of(alloc: Global, texts: &[&str]) -> Result<Vec<String>, AllocError>
    ensures { IfOk result (λ copies. map string_bytes copies.items ≡ now_all texts.now) }
{
    let mut copies = Vec::with_capacity(alloc, texts.len())?;
    for text in texts {
        copies.push(String::from_str(alloc, text)?)?;
    }
    Ok(copies)
}

/// A copy of a list of texts, in the same order. It fails only if memory runs out.
pub fn clones_of(alloc: Global, texts: &[String]) -> Result<Vec<String>, AllocError>
    ensures { IfOk result (λ clones. map string_bytes clones.items ≡ map string_bytes texts.now) }
{
    Vec::from_clones(alloc, texts)
}
