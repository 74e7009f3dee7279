//! The content of a file, which many holders may share at once.
ghost use Rattle.std.specs.Prelude.{◌≡◌, IfOk};

use std::alloc::{AllocError, Global};
use std::marker::Model;
use std::rc::Rc;

/// The content of a file: bytes that never change and are shared by all who hold them. Clauses see the
/// bytes.
#[derive(Debug, Drop)]
pub struct Content {
    bytes: Rc<Vec<u8>>,
}

impl Model for Content {
    ghost use Rattle.std.specs.Prelude.{List, ℕ};

    ghost Value = { List ℕ };

    ghost view = { λ content. content.bytes.value.items };
}

impl Content {
    /// The content of a file with these bytes, to be shared. It fails only if memory runs out.
    pub fn new(alloc: Global, bytes: Vec<u8>) -> Result<Content, AllocError>
        ensures { IfOk result (λ content. content ≡ bytes.items) }
    {
        Ok(Content {
            bytes: Rc::new(alloc, bytes)?,
        })
    }

    /// The bytes of a file's content.
    pub fn as_slice(&self) -> &[u8]
        ensures { result.now ≡ self.now }
    {
        self.bytes.as_slice()
    }

    /// The content of a file once more, without a copy of its bytes. It fails only if no more can share it.
    pub fn share(&self) -> Result<Content, AllocError>
        ensures { IfOk result (λ content. content ≡ self.now) }
    {
        Ok(Content {
            bytes: self.bytes.clone()?,
        })
    }
}
