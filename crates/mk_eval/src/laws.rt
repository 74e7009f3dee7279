//! What holds of the evaluations of all makefiles. The functions do nothing: their clauses are the laws.
ghost use Rattle.mk_eval.specs.Costs.{CostFew};
ghost use Rattle.mk_eval.specs.Agreement.{IsTheSameWhereAnswered};

/// If a world with the same settings gives the answers that an evaluation got, the makefile means the same in
/// it, at the same cost, and asks the same.
pub fn same_where_answered()
    ensures { IsTheSameWhereAnswered }
{}

/// An evaluation of a makefile costs at most 50,000 units, and so does each value of a variable after it.
pub fn evaluations_cost_few()
    ensures { CostFew }
{}
