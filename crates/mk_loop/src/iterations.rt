//! The iterations of a loop: its variables, and the words of its header.
ghost use Rattle.std.specs.Prelude.{◌≤◌, ◌<◌, ◌+◌, ◌*◌, length, string_bytes, All};
ghost use Rattle.mk_text.specs.Words.{IsSpanOf};

use mk_text::Span;
use std::alloc::AllocError;
use std::rc::Rc;

/// The iterations of a loop, in order.
#[derive(Drop)]
pub struct Iterations {
    /// The variables of its header.
    pub(crate) names: Vec<String>,
    /// The text of its header, expanded.
    pub(crate) text: String,
    /// The places of its words.
    pub(crate) words: Vec<Span>,
    ghost named: { 0 < length names.items },
    ghost within: { All (IsSpanOf (string_bytes text)) words.items },
}

/// An iteration of a loop: the variables of its header, each with its word. If two variables have one
/// name, the first counts. The texts are those of the loop, which its iterations share.
#[derive(Drop)]
pub struct Iteration {
    /// The iterations of the loop.
    pub(crate) iterations: Rc<Iterations>,
    /// The index of this one among them, counted from 0.
    pub(crate) index: usize,
    ghost inside: { index * length iterations.value.names.items + length iterations.value.names.items
        ≤ length iterations.value.words.items },
}

impl Iterations {
    ghost use Rattle.std.specs.Prelude.{◌≡◌};
    ghost use Rattle.mk_loop.specs.Scopes.{iterations_in};

    /// How many iterations the header of a loop gives: its words, divided by its variables.
    pub fn count(&self) -> usize
        ensures { result ≡ length (iterations_in self.now) }
    {
        self.words.len() / self.names.len()
    }
}

impl Iteration {
    ghost use Rattle.std.specs.Prelude.{◌≡◌, [], slice_get, Some};
    ghost use Rattle.std.specs.Option.{option_copied};
    ghost use Rattle.mk_loop.specs.LoopWords.{word_of};
    ghost use Rattle.mk_loop.specs.Scopes.{iteration_words, iterations_in};

    /// The iteration of a loop with this index, counted from 0.
    pub fn new(iterations: Rc<Iterations>, index: usize) -> Iteration
        requires { index < length (iterations_in iterations.value) }
        ensures { slice_get (iterations_in iterations.value) index ≡ Some (iteration_words result) }
    {
        Iteration { iterations, index }
    }

    /// The word that an iteration gives the loop's variable of this name. If two variables have this name,
    /// the first counts.
    pub(crate) fn word(&self, name: &str) -> Option<&str>
        ensures { option_copied result ≡ word_of (iteration_words self.now) name.now }
    {
        let iterations = &*self.iterations;
        let names = iterations.names.as_slice();
        let words = &iterations.words.as_slice()[self.index * names.len()..];
        for at in 0..names.len() {
            if name == names[at].as_str() {
                return Some(words[at].of(iterations.text.as_str()));
            }
        }
        None
    }
}

/// A copy shares the texts of the loop. It fails if no more can share them.
impl Clone for Iteration {
    ghost use Rattle.std.specs.Prelude.{◌≡◌};
    ghost use Rattle.mk_loop.specs.Scopes.{iteration_words};

    ghost is_clone = { λ iteration copy. iteration_words copy ≡ iteration_words iteration };

    /// A copy of an iteration of a loop, which shares the texts of the loop.
    fn clone(&self) -> Result<Iteration, AllocError> {
        Ok(Iteration {
            iterations: self.iterations.clone()?,
            index: self.index,
        })
    }
}
