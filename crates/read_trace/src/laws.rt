//! What holds of the traces of all evaluations. The functions do nothing else: their clauses are the laws.
ghost use Rattle.read_trace.specs.Agreement.{AgreesWhereAnswered};
ghost use Rattle.read_trace.specs.Recorded.{IsTheSameWhereAgreed};

use mk_eval::same_where_answered;

/// If a world with the same settings agrees with the trace of an evaluation, the makefile means the same in
/// it, at the same cost, and its evaluation has the same trace.
pub fn same_where_agreed()
    ensures { IsTheSameWhereAgreed }
{
    same_where_answered();
}

/// The answers of a trace are found to be those of the files exactly if the files agree with the trace.
pub fn agrees_where_answered()
    ensures { AgreesWhereAnswered }
{}
