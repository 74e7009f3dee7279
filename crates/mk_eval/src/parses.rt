//! How the bytes of a makefile become its tree: parsed anew, or shared.
ghost use Rattle.std.specs.Prelude.{◌≡◌, refl, IfOk};
ghost use Rattle.std.proofs.Common.{◌∙◌};
ghost use Rattle.mk_ast.specs.Parser.{parsed};
ghost use Rattle.mk_eval.specs.Trees.{tree_or_fault};

use mk_ast::{Makefile, ParseError, ParseFault, parse};
use mk_files::Content;
use std::alloc::{AllocError, Global};
use std::rc::Rc;

/// What makes the tree of a file, or shares one that was made before.
///
/// It says what may become of it by making trees (`becomes`). To make none is one way, and to make some and
/// then more is another.
pub trait Parses {
    ghost becomes: { Self → Self → Type 0 };

    /// The tree of the makefile with these bytes, or the fault of its parse. It fails only if memory runs
    /// out.
    fn parsed(&mut self, content: &Content) -> Result<Result<Rc<Makefile>, ParseFault>, AllocError>
        ensures tree { IfOk result (λ found. tree_or_fault found ≡ parsed content.now) }
        ensures left { becomes self.old self.new };

    ghost stays: { (parses : Self) → becomes parses parses };

    ghost goes_on: { (old middle new : Self) → becomes old middle → becomes middle new
        → becomes old new };
}

/// Reads each file anew.
#[derive(Drop)]
pub struct Anew {
    alloc: Global,
}

impl Anew {
    /// What parses each makefile anew, in memory of this allocator.
    pub fn new(alloc: Global) -> Anew {
        Anew { alloc }
    }
}

impl Parses for Anew {
    ghost becomes = { λ old new. new ≡ old };

    ghost stays = { λ parses. refl };

    ghost goes_on = { λ old middle new first second. second ∙ first };

    /// The tree of the makefile with these bytes, parsed anew, or the fault of its parse.
    fn parsed(
        &mut self,
        content: &Content,
    ) -> Result<Result<Rc<Makefile>, ParseFault>, AllocError> {
        match parse(self.alloc, content.as_slice()) {
            Ok(makefile) => Ok(Ok(Rc::new(self.alloc, makefile)?)),
            Err(ParseError::Fault(fault)) => Ok(Err(fault)),
            Err(ParseError::Memory(refused)) => Err(refused.into()),
        }
    }
}
