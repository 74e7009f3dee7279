//! The value of a variable after an evaluation.
ghost use Rattle.mk_eval.specs.Meaning.{value_of_variable};
ghost use Rattle.mk_eval.specs.Outcome.{TellsPurely, CostsPurelyAtMost};
ghost use Rattle.mk_eval.specs.Expanded.{value_cost};
ghost use Rattle.mk_base.specs.declared.budget.TheConstants.{UNITS};

use crate::outcome::{Evaluated, Failed, Valued, with_units};
use mk_base::{Budget, PureStop, UNITS};
use mk_env::expand_variable;
use mk_paths::Name;
use std::alloc::Global;

/// The value of a variable after the evaluation of the named makefile, in a budget of 50,000 units of
/// its own. If the variable isn't defined, it is `None`, at no cost. The name is taken as it is.
///
/// The faults are those of `mk_env::expand_variable`, at line 0 of the makefile. The other error is that
/// memory runs out.
pub fn value(
    alloc: Global,
    evaluated: &Evaluated,
    name: &Name,
    variable: &str,
) -> Result<Option<Valued>, PureStop<Failed>>
    ensures means { TellsPurely (λ x. x) result (value_of_variable evaluated.now.env name.now variable.now) }
    ensures within { CostsPurelyAtMost value_cost UNITS result }
{
    if !evaluated.env.defined(variable) {
        return Ok(None);
    }
    let mut budget = Budget::new(UNITS);
    match expand_variable(alloc, &evaluated.env, variable, &mut budget) {
        Ok(text) => Ok(Some(Valued::new(text, budget.spent()))),
        Err(stop) => {
            let stop = stop.blame(alloc, name.as_str(), 0);
            Err(with_units(stop, budget.spent()))
        }
    }
}
