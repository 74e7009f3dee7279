//! The truth of a condition under its directive: a word and the condition, or a condition in its form.
ghost use Rattle.std.specs.Prelude.{Some};
ghost use Rattle.mk_cond.specs.Tasks.{DoesCondition, DoesDirective, TellsTruth};

use crate::forms::parted;
use crate::setting::Setting;
use crate::trees::condition_truth;
use mk_base::{Budget, FaultKind, Stop};
use mk_cond_tree::{Condition, ConditionError, conditions_are_read, read_condition};
use mk_env::Env;
use mk_paths::{Name, Names};
use std::alloc::Global;

/// Whether a condition holds under its directive, as make(1), "CONDITIONALS", says. The text is the
/// directive's word, a blank, and the condition. The word is one of `if`, `ifdef`, `ifndef`, `ifmake`,
/// `ifnmake` and the same after `el`. Under the `make` words a lone word `W` is read as `make(W)`, and
/// under the others as `defined(W)`. The `n` words negate the truth of the whole.
///
/// The condition is read whole and unexpanded. Then it is looked at from left to right, only as far as
/// is needed. `defined(N)` holds if N, expanded, is a variable. `empty(N:M)` holds if what a reference
/// to N with these modifiers means has no word. `exists(F)` holds if the file F, expanded, is there; a
/// relative name is under the makefile's directory. A text that is no file name is false there, and
/// nothing is asked. `make` and `target` are false, and their argument isn't expanded.
///
/// If both sides of a comparison are numbers, they are compared as numbers, and otherwise as texts. A
/// quoted side is text. A side without quotes that expands to nothing is 0. A number is `0x` and 1 to 15
/// hexadecimal digits, or a sign, if any, and 1 to 18 decimal digits.
///
/// A side alone with a reference holds unless it expands to nothing or to the number 0. A number alone
/// holds unless it is 0, and a quoted side alone unless it expands to nothing.
///
/// # Errors
///
/// The fault is `Condition` if the text doesn't begin with a directive's word and a blank. Then it is
/// `Reference` if a reference of the condition doesn't end, before anything else of it is looked at.
/// Then it is `Condition` if the condition can't be read, for example if more than 64 `!` and
/// parentheses are nested.
///
/// Then, from the left, come the faults of `mk_env::expand` and `mk_env::expand_inside`. It is
/// `Condition` if texts are compared by an order, after both sides are expanded. It is `Questions` for
/// the 257th question about a file, and then nothing is asked.
///
/// If the files fail, their fault is returned as it is, as `Store` or `Memory`. It is also `Memory` if
/// memory runs out. The budget says afterwards what was spent and asked, after a fault too.
pub fn truth<F: Names>(
    alloc: Global,
    variables: &Env,
    text: &str,
    makefile: &Name,
    files: &mut F,
    budget: &mut Budget,
) -> Result<bool, Stop<FaultKind>>
    ensures { TellsTruth F.Names variables.now makefile.now text.now result
        budget.old files.old budget.new files.new }
{
    let Some((form, condition)) = parted(text) else {
        return Err(Stop::Fault(FaultKind::Condition));
    };
    let setting = Setting {
        variables,
        makefile,
        form,
        text: condition,
    };
    directive_truth(alloc, setting, files, budget)
}

/// Whether the condition in this setting holds under its directive: that is `truth` of a text with the
/// condition after a directive's word of the setting's form. The errors are those of `truth`.
pub fn directive_truth<F: Names>(
    alloc: Global,
    setting: Setting<'_>,
    files: &mut F,
    budget: &mut Budget,
) -> Result<bool, Stop<FaultKind>>
    ensures { DoesDirective F.Names setting.entry result budget.old files.old budget.new files.new }
{
    let held = text_truth(alloc, setting, files, budget)?;
    Ok(if setting.form.negated { !held } else { held })
}

/// The truth of the condition in the setting's text, before the directive negates it.
#[tactic(auto, unfolding(crate::specs::Truth::condition_truth))]
fn text_truth<F: Names>(
    alloc: Global,
    setting: Setting<'_>,
    files: &mut F,
    budget: &mut Budget,
) -> Result<bool, Stop<FaultKind>>
    ensures { DoesCondition F.Names setting.entry result budget.old files.old budget.new files.new }
{
    conditions_are_read();
    match read_condition(alloc, setting.text) {
        Ok(condition) => condition_truth(alloc, setting, &condition, files, budget),
        Err(ConditionError::Unclosed) => Err(Stop::Fault(FaultKind::Reference)),
        Err(ConditionError::Unreadable) => Err(Stop::Fault(FaultKind::Condition)),
        Err(ConditionError::Memory(refused)) => Err(Stop::Memory(refused)),
    }
}
