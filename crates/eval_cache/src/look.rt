//! A look at the evaluations that a cache keeps under one key, one after another.
ghost use Rattle.std.specs.Prelude.{◌≤◌, IfOk};
ghost use Rattle.turn_amounts.specs.declared.TheConstants.{MOST_CHECKS};
ghost use Rattle.eval_cache.specs.Held.{AreShort, traces_of};
ghost use Rattle.eval_cache.specs.Looks.{AsksToCheck, FailsChecking, TellsAgreement, FindsAnswered};

use mk_files::Files;
use mk_paths::FilesFault;
use read_trace::{Evaluation, agrees};
use std::rc::Rc;

/// What a look into the cache found.
#[derive(Drop)]
pub enum Look {
    /// The evaluation that is asked for, and the units that it cost.
    Hit(Rc<Evaluation>, u64),
    /// No evaluation that is kept under the key has a trace that agrees with the files.
    Miss,
}

/// The first of these kept evaluations whose trace agrees with the files, and how many answers were checked.
/// If the files fail, their fault is returned as it is. It is also `Memory` if no more can share the
/// evaluation.
pub(crate) fn first_agreeing<F: Files>(
    kept: &[Rc<Evaluation>],
    files: &mut F,
) -> Result<(Option<Rc<Evaluation>>, u64), FilesFault>
    requires { AreShort kept.now }
    ensures checked { TellsAgreement result (F.view files.old).files (traces_of kept.now) }
    ensures found { FindsAnswered result (F.view files.old).files kept.now }
    ensures bound { IfOk result (λ found. found.1 ≤ MOST_CHECKS) }
    ensures asks { AsksToCheck result (F.view files.old) (F.view files.new) (traces_of kept.now) }
    ensures fails { FailsChecking F.fails_with result (F.view files.old) (F.view files.new) }
{
    let mut checked = 0;
    for evaluation in kept {
        let (same, more) = agrees(&evaluation.trace, files)?;
        checked += more;
        if same {
            return Ok((Some(evaluation.clone()?), checked));
        }
    }
    Ok((None, checked))
}
