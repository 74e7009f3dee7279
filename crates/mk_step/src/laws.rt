//! What holds of all machines that evaluate makefiles. The functions do nothing: their clauses are the laws.
ghost use Rattle.mk_step.specs.Turn.{IsAskedAsSpent, IsAskedFirst};

/// What a machine under way has asked of files is the beginning of what its whole evaluation asks.
pub fn asked_comes_first()
    ensures { IsAskedFirst }
{}

/// What a machine has asked of files is also the beginning of what an evaluation asks with a budget of only
/// what the machine has spent. So nothing is asked before the units that come before it are spent. The
/// makefile itself is asked for before the first unit, in every budget.
pub fn asked_as_spent()
    ensures { IsAskedAsSpent }
{}
