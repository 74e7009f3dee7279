//! Comments, which are cut off lines of makefiles.
ghost use Rattle.std.specs.Prelude.{◌≡◌, IfOk, string_bytes};
ghost use Rattle.mk_text.specs.Lines.{without_comment};

use std::alloc::{AllocError, Global};

/// A line of a makefile up to its comment. The comment begins at the first `#` that has no backslash directly
/// before it. Each `\#` before that becomes a plain `#`, also if more backslashes come before it.
pub(crate) fn without_comment(alloc: Global, line: &str) -> Result<String, AllocError>
    ensures { IfOk result (λ plain. string_bytes plain ≡ without_comment line.now) }
{
    let mut plain = String::new(alloc);
    let mut rest = line;
    while let Some((front, behind)) = rest.split_once('#') {
        match front.strip_suffix('\\') {
            Some(kept) => {
                plain.push_str(kept)?;
                plain.push('#')?;
                rest = behind;
            }
            None => {
                plain.push_str(front)?;
                return Ok(plain);
            }
        }
    }
    plain.push_str(rest)?;
    Ok(plain)
}
