//! The iterations of a loop that a `.for` line begins, and their cost.
ghost use Rattle.std.specs.Prelude.{◌<◌, IfOk, length};
ghost use Rattle.mk_base.specs.Meter.{IsLater};
ghost use Rattle.mk_loop.specs.Scopes.{iterations_in};
ghost use Rattle.mk_eval.specs.Steps.{Pays, LoopAt, PaysAt, GoesInside};

use crate::heads::{Head, loop_iterations};
use crate::includes::{ExecutedFile, ExecutedLine};
use crate::state::EvalState;
use mk_base::{Budget, Fault, PureStop};
use mk_loop::{Iteration, Iterations, inside};
use mk_text::Logical;
use std::alloc::{AllocError, Global};
use std::rc::Rc;

/// The iterations of the loop that this `.for` line begins, with the words of the loops around it put in.
///
/// At its line, it is `Budget` if no unit is left. In a loop, the faults of `mk_loop::put_words` come
/// next. Then come those of `mk_loop::read_header`. The other error is that memory runs out.
pub fn iterations_at(
    alloc: Global,
    here: ExecutedFile<'_>,
    line: &Logical,
    state: &EvalState,
    budget: &mut Budget,
) -> Result<Rc<Iterations>, PureStop<Fault>>
    ensures gives { LoopAt here.entry line.now state.now result budget.old budget.new }
    ensures later { IsLater budget.old budget.new }
{
    let head = Head {
        variables: &state.variables,
        loops: here.loops,
        text: line.text(),
    };
    match loop_iterations(alloc, head, budget) {
        Ok(iterations) => Ok(iterations),
        Err(stop) => Err(stop.blame(alloc, here.file.as_str(), line.line())),
    }
}

/// Spends the unit of an iteration of the loop that this `.for` line begins.
///
/// It is `Budget` at the line if no unit is left. The other error is that memory runs out.
pub fn begin_iteration(
    alloc: Global,
    line: ExecutedLine<'_>,
    budget: &mut Budget,
) -> Result<(), PureStop<Fault>>
    ensures gives { PaysAt line.entry result budget.old budget.new }
    ensures later { IsLater budget.old budget.new }
    ensures paid { IfOk result (λ _. Pays budget.old budget.new) }
{
    match budget.pay() {
        Ok(()) => Ok(()),
        Err(kind) => Err(PureStop::Fault(kind).blame(alloc, line.here.file.as_str(), line.number)),
    }
}

/// The loops around a line of a loop's body, at its iteration with this index: those around the loop, and
/// inside them this one. It fails only if memory runs out.
pub fn loops_at(
    alloc: Global,
    loops: &[Iteration],
    iterations: &Rc<Iterations>,
    index: usize,
) -> Result<Vec<Iteration>, AllocError>
    requires { index < length (iterations_in iterations.now.value) }
    ensures { GoesInside loops.now iterations.now.value index result }
{
    inside(alloc, loops, Iteration::new(iterations.clone()?, index))
}
