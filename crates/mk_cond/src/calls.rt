//! The truth of calls in conditions: `defined`, `empty`, `exists`, `make` and `target`.
ghost use Rattle.mk_base.specs.Meter.{IsLater};
ghost use Rattle.mk_cond.specs.Tasks.{TellsCall, TellsExists, TellsDefined, TellsEmpty};

use crate::setting::Setting;
use mk_base::{Budget, FaultKind, PureStop, Stop};
use mk_cond_tree::Call;
use mk_env::{Env, expand, expand_inside};
use mk_files::ask_has;
use mk_paths::{Name, NameFault, Names};
use mk_text::words;
use std::alloc::{AllocError, Global};

/// The truth of a call in a condition. Whether a target is asked for or defined (`make`, `target`) is always
/// false, and then the argument isn't looked at.
pub(crate) fn call_truth<F: Names>(
    alloc: Global,
    setting: Setting<'_>,
    call: Call,
    argument: &str,
    files: &mut F,
    budget: &mut Budget,
) -> Result<bool, Stop<FaultKind>>
    ensures { TellsCall F.Names setting.entry call argument.now result
        budget.old files.old budget.new files.new }
{
    match call {
        Call::Defined => Ok(is_defined(alloc, setting.variables, argument, budget)?),
        Call::Empty => Ok(is_empty(alloc, setting.variables, argument, budget)?),
        Call::Exists => exists(alloc, setting, argument, files, budget),
        Call::Make | Call::Target => Ok(false),
    }
}

/// The truth of the call `defined` in a condition: whether the argument, expanded, is the name of a variable.
fn is_defined(
    alloc: Global,
    variables: &Env,
    argument: &str,
    budget: &mut Budget,
) -> Result<bool, PureStop<FaultKind>>
    ensures later { IsLater budget.old budget.new }
    ensures gives { TellsDefined result variables.now argument.now budget.old budget.new }
{
    let name = expand(alloc, variables, argument, budget)?;
    Ok(variables.defined(name.as_str()))
}

/// The truth of the call `empty` in a condition: whether the meaning of a reference with this inside has no
/// word.
fn is_empty(
    alloc: Global,
    variables: &Env,
    argument: &str,
    budget: &mut Budget,
) -> Result<bool, PureStop<FaultKind>>
    ensures later { IsLater budget.old budget.new }
    ensures gives { TellsEmpty result variables.now argument.now budget.old budget.new }
{
    let value = expand_inside(alloc, variables, argument, budget)?;
    Ok(words(alloc, value.as_str())?.is_empty())
}

/// The truth of the call `exists` in a condition: whether the file that the argument names, expanded, is
/// there.
fn exists<F: Names>(
    alloc: Global,
    setting: Setting<'_>,
    argument: &str,
    files: &mut F,
    budget: &mut Budget,
) -> Result<bool, Stop<FaultKind>>
    ensures { TellsExists F.Names setting.entry argument.now result
        budget.old files.old budget.new files.new }
{
    let file = expand(alloc, setting.variables, argument, budget)?;
    match Name::under(alloc, setting.makefile.directory(), file.as_str()) {
        Ok(name) => ask_has(files, &name, budget),
        Err(NameFault::BadName | NameFault::Above) => Ok(false),
        Err(NameFault::Memory(refused)) => Err(Stop::Memory(refused)),
    }
}
