//! What holds of every text that is cut into literals, `$$` pairs and references. Each function does nothing:
//! its clause is the law.
ghost use Rattle.mk_ref.specs.Laws.{AtomsAreText, ReferencesArePutTogether, CutGoesOn, ReadGoesOn, PartsAreWhole};
ghost use Rattle.mk_ref.specs.Laws.{InsidesAreCutAlone, PiecesAreAtoms, DollarsAlonePartTexts, OutsideKeepsPlaces};
ghost use Rattle.mk_ref.specs.Laws.{OnlyTheUnclosedIsLeft, ReadsToTheFirstMark};

/// The atoms of a text (references, `$$` pairs and single bytes) and what is left of it, put together, are
/// the text.
pub fn atoms_are_text()
    ensures { AtomsAreText }
{}

/// Each reference of a text is its name and its modifiers, put together with its marks and its colon.
pub fn references_are_put_together()
    ensures { ReferencesArePutTogether }
{}

/// A text is cut into atoms by cutting off its first atom, and then cutting what follows that.
pub fn cut_goes_on()
    ensures { CutGoesOn }
{}

/// The atoms inside a reference, up to its closing mark, are read one after another, until the mark comes
/// first.
pub fn read_goes_on()
    ensures { ReadGoesOn }
{}

/// What is inside a reference ends at the first closing mark that is outside inner references.
pub fn reads_to_the_first_mark()
    ensures { ReadsToTheFirstMark }
{}

/// A text is cut into atoms up to its end, or up to the first reference that no mark closes.
pub fn only_the_unclosed_is_left()
    ensures { OnlyTheUnclosedIsLeft }
{}

/// Inside a reference every reference ends: its name and its modifiers, cut alone, leave nothing.
pub fn parts_are_whole()
    ensures { PartsAreWhole }
{}

/// The inside of a reference, its name and its modifiers, each cut alone, have the atoms that are read
/// of them in their place.
pub fn insides_are_cut_alone()
    ensures { InsidesAreCutAlone }
{}

/// The pieces of a text (literals, `$$` pairs and references) are made of exactly its atoms: nothing is lost
/// when bytes are put together.
pub fn pieces_are_atoms()
    ensures { PiecesAreAtoms }
{}

/// A text without a dollar is its bytes: it has no reference and no `$$` pair, and nothing is left of it.
pub fn dollars_alone_part_texts()
    ensures { DollarsAlonePartTexts }
{}

/// What `outside` gives of a text, with dollars over its references, is as long as the text. Each of its
/// bytes that isn't a dollar is the text's byte at the same place.
pub fn outside_keeps_places()
    ensures { OutsideKeepsPlaces }
{}
