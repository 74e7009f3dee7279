//! Sets of texts, for the flavors and the packages of a port.
ghost use Rattle.std.specs.Prelude.{◌≡◌, ℕ, not, List, map, false, string_bytes, IfOk, OnOk};
ghost use Rattle.port_rules.specs.TextSets.{holds, HoldsMore, HoldsThese};
ghost use Rattle.port_rules.specs.Packages as packages;

use std::alloc::{AllocError, AllocFailed, Global};
use std::collections::BTreeSet;

/// A set of texts, which are looked up in time in proportion to the logarithm of their number.
#[derive(Drop)]
pub(crate) struct TextSet<'a> {
    texts: BTreeSet<&'a str>,
}

impl<'a> TextSet<'a> {
    /// A set without texts.
    pub(crate) fn new(alloc: Global) -> TextSet<'a>
        ensures { (text : List ℕ) → holds result text ≡ false }
    {
        TextSet {
            texts: BTreeSet::new(alloc),
        }
    }

    /// The set of these texts.
    pub(crate) fn of(alloc: Global, texts: &'a [String]) -> Result<TextSet<'a>, AllocError>
        ensures { IfOk result (λ set. HoldsThese set texts.now) }
    {
        let mut set = TextSet::new(alloc);
        for text in texts {
            set.insert(text.as_str())?;
        }
        Ok(set)
    }

    /// Adds a text to the set, and says whether it is new.
    pub(crate) fn insert(&mut self, text: &'a str) -> Result<bool, AllocError>
        ensures new { IfOk result (λ is_new. is_new ≡ not (holds self.old text.now)) }
        ensures more { OnOk result (HoldsMore self.new text.now self.old) }
    {
        match self.texts.insert(text) {
            Ok(is_new) => Ok(is_new),
            Err(failed) => Err(failed.into()),
        }
    }

    /// Whether a text is in the set.
    pub(crate) fn contains(&self, text: &'a str) -> bool
        ensures { result ≡ holds self.now text.now }
    {
        self.texts.contains(&text)
    }
}

/// Whether some text is among these twice, found with a set of texts.
pub(crate) fn has_double(alloc: Global, texts: &[String]) -> Result<bool, AllocError>
    ensures { IfOk result (λ found. found ≡ packages.has_double (map string_bytes texts.now)) }
{
    let mut before = TextSet::new(alloc);
    for text in texts {
        if !before.insert(text.as_str())? {
            return Ok(true);
        }
    }
    Ok(false)
}
