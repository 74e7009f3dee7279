//! The keys of the evaluations in a cache: settings, a makefile's name and flavors.
ghost use Rattle.std.specs.Prelude.{◌≡◌};
ghost use Rattle.eval_cache.specs.Keys.{key_of, MakesKey, CopiesFlavors};

use mk_paths::{Name, Settings};
use mk_text::Profile;
use std::alloc::{AllocError, Global};
use text_parts::clones_of;

/// Which evaluation is meant: that of the makefile of this name under these settings, with these flavors
/// or with none given. Keys with the same texts are equal, so the same flavors in another order make
/// another key.
#[derive(Debug, Drop, PartialEq, Eq, Hash)]
pub struct EvalKey {
    profile: Profile,
    trees: Vec<String>,
    name: String,
    flavors: Option<Vec<String>>,
}

impl EvalKey {
    /// The key of an evaluation in a cache: of this makefile under these settings, with these flavors or with
    /// none given. It fails only if memory runs out.
    pub fn new(
        alloc: Global,
        settings: &Settings,
        name: &Name,
        flavors: Option<&[String]>,
    ) -> Result<EvalKey, AllocError>
        ensures { MakesKey result settings.now name.now flavors.entry }
    {
        Ok(EvalKey {
            profile: settings.profile,
            trees: clones_of(alloc, settings.path.trees())?,
            name: String::from_str(alloc, name.as_str())?,
            flavors: copy_flavors(alloc, flavors)?,
        })
    }
}

impl Clone for EvalKey {
    ghost is_clone = { λ key clone. key_of clone ≡ key_of key };

    /// A copy of the key of an evaluation. It fails only if memory runs out.
    fn clone(&self) -> Result<EvalKey, AllocError> {
        let alloc = *self.trees.allocator();
        Ok(EvalKey {
            profile: self.profile,
            trees: clones_of(alloc, self.trees.as_slice())?,
            name: self.name.clone()?,
            flavors: match &self.flavors {
                Some(flavors) => Some(clones_of(alloc, flavors.as_slice())?),
                None => None,
            },
        })
    }
}

/// A copy of the flavors for the key of an evaluation, or none.
fn copy_flavors(
    alloc: Global,
    flavors: Option<&[String]>,
) -> Result<Option<Vec<String>>, AllocError>
    ensures { CopiesFlavors result flavors.entry }
{
    match flavors {
        Some(flavors) => Ok(Some(clones_of(alloc, flavors)?)),
        None => Ok(None),
    }
}
