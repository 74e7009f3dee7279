//! The loops around a line, whose variables are in scope there, the innermost last.
ghost use Rattle.std.specs.Prelude.{◌≡◌};
ghost use Rattle.std.specs.Option.{option_copied};
ghost use Rattle.mk_loop.specs.LoopWords.{word_of};
ghost use Rattle.mk_loop.specs.Scopes.{words_in, HasInnerIteration};

use crate::iterations::Iteration;
use std::alloc::{AllocError, Global};

/// The loops around a line inside one more loop: these, and at the end this iteration of the inner one.
pub fn inside(
    alloc: Global,
    loops: &[Iteration],
    iteration: Iteration,
) -> Result<Vec<Iteration>, AllocError>
    ensures { HasInnerIteration result loops.now iteration }
{
    let mut inner = Vec::new(alloc);
    for outer in loops {
        inner.push(outer.clone()?)?;
    }
    inner.push(iteration)?;
    Ok(inner)
}

/// The word of the loop variable of this name in the loops around a line, the innermost last. If several
/// loops have such a variable, that of the innermost loop counts.
pub(crate) fn word_in<'a>(loops: &'a [Iteration], name: &str) -> Option<&'a str>
    ensures { option_copied result ≡ word_of (words_in loops.now) name.now }
{
    for at in (0..loops.len()).rev() {
        if let Some(word) = loops[at].word(name) {
            return Some(word);
        }
    }
    None
}
