//! The contents of makefiles as keys of the parses in a cache.
ghost use Rattle.std.specs.Prelude.{◌≡◌, nat_eq};
ghost use Rattle.std.proofs.Common.{rules};
ghost use Rattle.std.specs.Cmp.Lexicographic.{pointwise};
ghost use Rattle.std.specs.Cmp.Rules.{comparing, hashing};
ghost use Rattle.std.specs.Hash as fed;
ghost use Rattle.std.specs.Ordering.{on};

use mk_files::Content;
use std::alloc::AllocError;
use std::hash::{Hash, Hasher};

/// A content by which its parse is kept. Contents with the same bytes are the same key.
#[derive(Debug, Drop)]
pub(crate) struct ContentKey {
    pub(crate) content: Content,
}

impl Clone for ContentKey {
    ghost is_clone = { λ key clone. clone.content ≡ key.content };

    /// A copy of the key of a parse, which shares the content.
    fn clone(&self) -> Result<ContentKey, AllocError> {
        Ok(ContentKey {
            content: self.content.share()?,
        })
    }
}

impl PartialEq for ContentKey {
    ghost eq = { on (λ key. key.content) (pointwise nat_eq) };

    ghost laws = { Prim.search (comparing, rules) };

    /// Whether two keys of parses are equal: whether their contents have the same bytes.
    fn eq(&self, other: &ContentKey) -> bool {
        self.content.as_slice() == other.content.as_slice()
    }
}

impl Eq for ContentKey {
    ghost laws = { Prim.search (comparing, rules) };
}

impl Hash for ContentKey {
    ghost hash_input = { λ key. fed.slice fed.u8 key.content };

    ghost respects_eq = { Prim.search (hashing, rules) };

    /// Adds the bytes of the content, which is the key of a parse, to a hash.
    fn hash<H: Hasher>(&self, state: &mut H) {
        self.content.as_slice().hash(state);
    }
}
