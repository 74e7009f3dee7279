//! What holds of every refresh of a kept index, as a function that does nothing.
ghost use Rattle.index_keep.specs.Turns.{RefreshingPays};

use mk_eval::evaluations_cost_few;
use port_index::{makefiles_are_evaluated, one_row_more_leaves_less};

/// If a refresh renews a row, then less is left to be done, by at least what was spent on it. If the rows are
/// those of the index, nothing is left. What a turn takes off the units that are left is spent in it, unless
/// evaluations were kept.
pub fn refreshing_pays()
    ensures { RefreshingPays }
{
    one_row_more_leaves_less();
    makefiles_are_evaluated();
    evaluations_cost_few();
}
