//! What holds of every text that is cut at marks, and of its parts. Each function does nothing: its clause is
//! the law.
ghost use Rattle.text_parts.specs.Laws.{CutIsItsText, PartsAreBetween, WrittenIsCutAgain, WrittenPartsMayOccur};

/// The two parts of a text that is cut in two, with the mark put between them, are the text again.
pub fn cut_is_its_text()
    ensures { CutIsItsText }
{}

/// If all bytes of a text are allowed, so are the bytes of its parts between marks, and none of these is a
/// mark.
pub fn parts_are_between()
    ensures { PartsAreBetween }
{}

/// Parts of a text without marks in them, written with marks between, are cut into the same parts again.
pub fn written_is_cut_again()
    ensures { WrittenIsCutAgain }
{}

/// If a mark is allowed in a text, so are all bytes of allowed parts of a text that are written with marks
/// between.
pub fn written_parts_may_occur()
    ensures { WrittenPartsMayOccur }
{}
