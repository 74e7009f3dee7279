//! What holds of every parse: of the reading of a makefile's lines into blocks. Each function does nothing:
//! its clause is the law.
ghost use Rattle.mk_ast.specs.Laws.{BlocksAreRead, NothingElseIsRead, PartsHaveOneBlock, NothingElseIsParsed, BlocksNest64Deep};

/// The reading of a makefile's lines in one pass gives the block whose parts the lines are. Else it gives the
/// first line that is out of place, or else the first line of the innermost open block.
pub fn blocks_are_read()
    ensures { BlocksAreRead }
{}

/// The lines of a makefile have no other reading into blocks, neither another block nor a fault at another
/// line.
pub fn nothing_else_is_read()
    ensures { NothingElseIsRead }
{}

/// If two blocks of makefiles have the same parts in the same order, they are the same block.
pub fn parts_have_one_block()
    ensures { PartsHaveOneBlock }
{}

/// The bytes of a makefile are parsed as what `parsed` says and as nothing else: one tree, or one fault at
/// one line.
pub fn nothing_else_is_parsed()
    ensures { NothingElseIsParsed }
{}

/// A makefile's blocks may be 64 deep: `BLOCKS` is that number.
pub fn blocks_nest_64_deep()
    ensures { BlocksNest64Deep }
{}
