//! The heads of blocks and of their branches: forms of `.if` and `.elif`, and `.for`.
ghost use Rattle.std.specs.Prelude.{◌≡◌, IfOk};
ghost use Rattle.mk_base.specs.Meter.{IsLater};
ghost use Rattle.mk_ast.specs.Kinds.{shown_kind};
ghost use Rattle.mk_files.specs.Work.{Asks};
ghost use Rattle.mk_eval.specs.Heads as heads;
ghost use Rattle.mk_eval.specs.LineParts.{PutsIn, GivesHead, GivesHeader, BeginsLoop, condition};
ghost use Rattle.mk_eval.specs.Steps.{Pays, Judges, condition_at};

use crate::includes::ExecutedFile;
use crate::state::EvalState;
use mk_ast::{Directive, LineKind, line_kind};
use mk_base::{Budget, Fault, FaultKind, PureStop, Stop};
use mk_cond::{Form, Setting, directive_truth};
use mk_cond_tree::Call;
use mk_env::Env;
use mk_loop::{Iteration, Iterations, put_words, read_header};
use mk_paths::{Name, Names};
use mk_text::Logical;
use std::alloc::{AllocError, Global};
use std::rc::Rc;

/// A line that begins a block or a branch, before the words of loops are put in.
#[derive(Clone, Copy)]
pub(crate) struct Head<'a> {
    /// The variables.
    pub(crate) variables: &'a Env,
    /// The loops around the line, of which the innermost is the last.
    pub(crate) loops: &'a [Iteration],
    /// Its text.
    pub(crate) text: &'a str,
}

/// Whether the condition of the head of a block or a branch holds: of a form of `.if` or `.elif`. It costs a
/// unit, before anything else.
///
/// # Errors
///
/// At the line, it is `Budget` if no unit is left. In a loop, the faults of `mk_loop::put_words` come
/// next. Then come those of `mk_cond::directive_truth`. If the files fail, their fault is returned as it
/// is. It is also `Memory` if memory runs out.
pub fn holds<F: Names>(
    alloc: Global,
    here: ExecutedFile<'_>,
    line: &Logical,
    state: &EvalState,
    files: &mut F,
    budget: &mut Budget,
) -> Result<bool, Stop<Fault>>
    ensures gives { Judges (condition_at here.entry line.now state.now) result
        (budget.old, F.view files.old) (budget.new, F.view files.new) }
    ensures asks { Asks F.fails_with result (F.view files.old) (F.view files.new) }
    ensures later { IsLater budget.old budget.new }
    ensures paid { IfOk result (λ held. Pays budget.old budget.new) }
{
    let head = Head {
        variables: &state.variables,
        loops: here.loops,
        text: line.text(),
    };
    match judge(alloc, here.makefile, head, files, budget) {
        Ok(held) => Ok(held),
        Err(stop) => Err(stop.blame(alloc, here.file.as_str(), line.line())),
    }
}

/// What this directive at the head of a block makes of its condition; `None` if it has none.
fn form_of(word: Directive) -> Option<Form>
    ensures { result ≡ heads.form_of word }
{
    match word {
        Directive::If | Directive::Ifdef | Directive::Elif | Directive::Elifdef => {
            Some(form(Call::Defined, false))
        }
        Directive::Ifndef | Directive::Elifndef => Some(form(Call::Defined, true)),
        Directive::Ifmake | Directive::Elifmake => Some(form(Call::Make, false)),
        Directive::Ifnmake | Directive::Elifnmake => Some(form(Call::Make, true)),
        _ => None,
    }
}

/// What a directive at the head of a block makes of its condition: what a lone word asks, and whether it is
/// negated.
fn form(word: Call, negated: bool) -> Form
    ensures { result ≡ record { word = word; negated = negated } }
{
    Form { word, negated }
}

/// What a head of a block of this kind of line makes of its condition; `None` if the line has no condition.
fn form_in(kind: LineKind<'_>) -> Option<Form>
    ensures { result ≡ heads.form_in (shown_kind kind.entry) }
{
    match kind {
        LineKind::Directive { word, rest: _ } => form_of(word),
        _ => None,
    }
}

/// The text of a block's head with the words of the loops around it put in; `None` if it stays as it is.
fn put_in(
    alloc: Global,
    variables: &Env,
    loops: &[Iteration],
    text: &str,
    budget: &mut Budget,
) -> Result<Option<String>, PureStop<FaultKind>>
    ensures gives { PutsIn variables.now loops.now text.now result budget.old budget.new }
    ensures later { IsLater budget.old budget.new }
{
    if loops.is_empty() {
        return Ok(None);
    }
    put_words(alloc, variables, loops, text, budget)
}

/// What follows the directive's word at the head of a block, with the words of the loops around it put in. It
/// costs a unit, before anything else.
fn head_text(
    alloc: Global,
    variables: &Env,
    loops: &[Iteration],
    kind: LineKind<'_>,
    budget: &mut Budget,
) -> Result<String, PureStop<FaultKind>>
    ensures gives { GivesHead variables.now loops.now kind.entry result budget.old budget.new }
    ensures later { IsLater budget.old budget.new }
    ensures paid { IfOk result (λ _. Pays budget.old budget.new) }
{
    let LineKind::Directive { word: _, rest } = kind else {
        return Err(PureStop::Fault(FaultKind::Block)); // no other line begins a block
    };
    budget.pay()?;
    match put_in(alloc, variables, loops, rest, budget)? {
        Some(put) => Ok(put),
        None => Ok(String::from_str(alloc, rest)?),
    }
}

/// Whether the condition of a block's head, a form of `.if` or `.elif`, holds in the named makefile. It costs
/// a unit, before anything else.
pub(crate) fn judge<F: Names>(
    alloc: Global,
    makefile: &Name,
    head: Head<'_>,
    files: &mut F,
    budget: &mut Budget,
) -> Result<bool, Stop<FaultKind>>
    ensures gives { Judges (condition makefile.now head.entry) result
        (budget.old, F.view files.old) (budget.new, F.view files.new) }
    ensures asks { Asks F.fails_with result (F.view files.old) (F.view files.new) }
    ensures later { IsLater budget.old budget.new }
    ensures paid { IfOk result (λ held. Pays budget.old budget.new) }
{
    let kind = line_kind(alloc, head.text)?;
    let text = head_text(alloc, head.variables, head.loops, kind, budget)?;
    let Some(form) = form_in(kind) else {
        return Err(Stop::Fault(FaultKind::Condition)); // no other line has a condition
    };
    let setting = Setting {
        variables: head.variables,
        makefile,
        form,
        text: text.as_str(),
    };
    directive_truth(alloc, setting, files, budget)
}

/// The text after the `.for` at the head of a loop, with the words of the loops around it put in. It costs a
/// unit, before anything else.
pub(crate) fn header_text(
    alloc: Global,
    head: Head<'_>,
    budget: &mut Budget,
) -> Result<String, PureStop<FaultKind>>
    ensures gives { GivesHeader head.entry result budget.old budget.new }
    ensures later { IsLater budget.old budget.new }
    ensures paid { IfOk result (λ _. Pays budget.old budget.new) }
{
    let kind = line_kind(alloc, head.text)?;
    head_text(alloc, head.variables, head.loops, kind, budget)
}

/// The iterations of the loop with this head, a `.for` line. The header costs a unit, before anything else.
pub(crate) fn loop_iterations(
    alloc: Global,
    head: Head<'_>,
    budget: &mut Budget,
) -> Result<Rc<Iterations>, PureStop<FaultKind>>
    ensures gives { BeginsLoop head.entry result budget.old budget.new }
    ensures later { IsLater budget.old budget.new }
{
    let header = header_text(alloc, head, budget)?;
    let iterations = read_header(alloc, head.variables, header.as_str(), budget)?;
    Ok(Rc::new(alloc, iterations)?)
}
