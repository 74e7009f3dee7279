//! What holds of the tokens and of the text of every condition. Each function does nothing: its clause is the
//! law.
ghost use Rattle.mk_cond_tree.specs.Laws.{TokensHaveOneTree, TreesAreRead, ConditionsAreRead};

/// The tokens of a condition have at most one tree.
pub fn tokens_have_one_tree()
    ensures { TokensHaveOneTree }
{}

/// The reading of a condition's tokens gives their tree, and none if they have none.
pub fn trees_are_read()
    ensures { TreesAreRead }
{}

/// If the references of a condition's text end, the text has the tree that is read of it, and no other.
pub fn conditions_are_read()
    ensures { ConditionsAreRead }
{}
