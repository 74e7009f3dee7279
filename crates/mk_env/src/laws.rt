//! What holds of every expansion of a text. The function does nothing: its clause is the law.
ghost use Rattle.mk_env.specs.Laws.{PlainSubstitutionIsApplied};

/// The expansion of a reference with a `:S` without references makes of its value what `mk_mods::apply` makes
/// of it.
pub fn plain_substitution_is_applied()
    ensures { PlainSubstitutionIsApplied }
{}
