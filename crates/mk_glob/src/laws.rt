//! What holds of patterns (`:M`, `:N`) and words. Each function does nothing: its clause is the law.
ghost use Rattle.mk_glob.specs.Laws.{FitsWhereCut};

/// A word fits a pattern exactly if it can be cut into as many parts as the pattern has items, each
/// allowed by its item.
pub fn fits_where_cut()
    ensures { FitsWhereCut }
{}
