//! What holds of every substitution, the modifier `:S`. The functions do nothing: their clauses are the laws.
ghost use Rattle.mk_mods.specs.Places.{FirstActsAtLeast, EachActsAtLeast, NoneWhereNowhere};
ghost use Rattle.mk_mods.specs.Signs.{SignsAreReadInTurn};

/// The old and the new text of a substitution (`:S`) are read sign by sign, up to the first delimiter that no
/// backslash makes plain.
pub fn signs_are_read_in_turn()
    ensures { SignsAreReadInTurn }
{}

/// A substitution (`:S`) without anchors acts at the leftmost place of the old text, and with `g` again at
/// the leftmost place after that. If the old text is nowhere in the word, it doesn't act.
pub fn acts_at_least_places()
    ensures first { FirstActsAtLeast }
    ensures each { EachActsAtLeast }
    ensures nowhere { NoneWhereNowhere }
{}
