//! What the lines of makefiles that frame no block do: to the variables, and which file they open.
ghost use Rattle.std.specs.Prelude.{◌≡◌, OnOk, OnErr, IfOk};
ghost use Rattle.mk_base.specs.Meter.{IsLater};
ghost use Rattle.mk_text.specs.Words.{words_of};
ghost use Rattle.mk_ast.specs.declared.kinds.Operator.TheVariants as operators;
ghost use Rattle.mk_loop.specs.Places.{made_or_line};
ghost use Rattle.mk_eval.specs.Lines as lines;
ghost use Rattle.mk_eval.specs.LineParts.{Executes, ExecutesKind, Directs, Assigns, AssignsFreely};
ghost use Rattle.mk_files.specs.Work.{Asks};
ghost use Rattle.mk_eval.specs.Steps.{OpensFile, PaysToOpen, Performs, Requests, line_file};

use crate::file_requests::Request;
use crate::includes::{ExecutedFile, Included, open_request};
use crate::state::EvalState;
use mk_ast::{Directive, LineKind, Operator, is_word, line_kind, plain_kind};
use mk_base::{Budget, Fault, FaultKind, PureStop, Stop};
use mk_env::{Env, expand, expand_now};
use mk_files::Files;
use mk_loop::{Iteration, put_words};
use mk_text::{Logical, TEXT_LIMIT, words};
use std::alloc::{AllocError, Global};

/// Does what a line of a makefile that frames no block says, except executing the file that it opens, if any:
/// that is the answer. A line that isn't blank costs a unit.
///
/// # Errors
///
/// At its line, the faults are those of `perform`. If the line asks for a file, these come next, in this
/// order. It is `Include` if its text names no file in one of the forms. It is `IncludeDepth` if more than
/// 16 files would include one another. It is `Include` if a name in quotes is no file name. It is
/// `Questions` for the 257th question. It is `Include` if the file is missing and may not be. If the files
/// fail, their fault is returned as it is. It is also `Memory` if memory runs out.
pub fn open_line<F: Files>(
    alloc: Global,
    here: ExecutedFile<'_>,
    line: &Logical,
    state: &mut EvalState,
    files: &mut F,
    budget: &mut Budget,
) -> Result<Option<Included>, Stop<Fault>>
    ensures gives { OpensFile (line_file here.entry line.now) (state.old, state.new) result
        (budget.old, F.view files.old) (budget.new, F.view files.new) }
    ensures asks { Asks F.fails_with result (F.view files.old) (F.view files.new) }
    ensures later { IsLater budget.old budget.new }
    ensures opens { IfOk result (PaysToOpen here.entry.levels budget.old budget.new) }
{
    let opened = match perform(alloc, &mut state.variables, here.loops, line.text(), budget) {
        Ok(None) => Ok(None),
        Ok(Some(request)) => open_request(alloc, here, state, &request, files, budget),
        Err(stop) => Err(Stop::from(stop)),
    };
    match opened {
        Ok(opened) => Ok(opened),
        Err(stop) => Err(stop.blame(alloc, here.file.as_str(), line.line())),
    }
}

/// Does what the line of a makefile with this text says. The line doesn't begin, part or end a block. `loops`
/// are the loops around it, the innermost last. If the line asks for a file, the answer is that request:
/// opening the file is all that is left to do for `.include` and `.sinclude`.
///
/// A line that isn't blank costs a unit, before anything else: so it is `Budget` first if no unit is
/// left. Then the words of the loops are put in, and the line is read. An error leaves the variables
/// as they were.
///
/// In a loop, the faults of `mk_loop::put_words` come first. It is `Line` if the line can't be read. For
/// an assignment, the faults of expanding its name come next. Then it is `Line` if the expanded name
/// isn't one word, and `Shell` for `!=`. Then come the faults of expanding the value of `:=`. It is
/// `Length` if the text to be stored has more than 65,536 bytes. For `.undef`, `.include` and
/// `.sinclude`, the faults are those of expanding what follows the word.
pub fn perform(
    alloc: Global,
    env: &mut Env,
    loops: &[Iteration],
    text: &str,
    budget: &mut Budget,
) -> Result<Option<Request>, PureStop<FaultKind>>
    ensures gives { Performs loops.now text.now (env.old, budget.old) (env.new, budget.new) result }
    ensures err { OnErr result (env.new ≡ env.old) }
    ensures later { IsLater budget.old budget.new }
    ensures paid { IfOk result (Requests budget.old budget.new) }
{
    let kind = line_kind(alloc, text)?;
    if let LineKind::Blank = kind {
        return Ok(None);
    }
    budget.pay()?;
    execute_in(alloc, env, loops, text, kind, budget)
}

/// Does what a line of a makefile in these loops says. Its text, as written, is of this kind.
fn execute_in(
    alloc: Global,
    env: &mut Env,
    loops: &[Iteration],
    text: &str,
    kind: LineKind<'_>,
    budget: &mut Budget,
) -> Result<Option<Request>, PureStop<FaultKind>>
    ensures gives { Executes loops.now text.now kind.entry
        (env.old, budget.old) (env.new, budget.new) result }
    ensures err { OnErr result (env.new ≡ env.old) }
    ensures later { IsLater budget.old budget.new }
{
    if loops.is_empty() {
        return execute_kind(alloc, env, kind, budget);
    }
    match kind {
        LineKind::Directive { word, rest } => {
            let put = put_words(alloc, env, loops, rest, budget)?;
            direct(alloc, env, word, put_or(&put, rest), budget)
        }
        LineKind::Command => {
            put_words(alloc, env, loops, text, budget)?;
            Ok(None)
        }
        _ => {
            let put = put_words(alloc, env, loops, text, budget)?;
            let kind = plain_kind(alloc, put_or(&put, text))?;
            execute_kind(alloc, env, kind, budget)
        }
    }
}

/// The text of a line with the words of loops put in; if none was put in, it is the text as written.
pub(crate) fn put_or<'a>(put: &'a Option<String>, written: &'a str) -> &'a str
    ensures { result.now ≡ made_or_line written.now put.now }
{
    match put {
        Some(text) => text.as_str(),
        None => written,
    }
}

/// Does what a line of a makefile of this kind says: an assignment or a directive. Blank lines, commands and
/// dependencies do nothing, and a line that can't be read is the fault `Line`.
fn execute_kind(
    alloc: Global,
    env: &mut Env,
    kind: LineKind<'_>,
    budget: &mut Budget,
) -> Result<Option<Request>, PureStop<FaultKind>>
    ensures gives { ExecutesKind kind.entry (env.old, budget.old) (env.new, budget.new) result }
    ensures err { OnErr result (env.new ≡ env.old) }
    ensures later { IsLater budget.old budget.new }
{
    match kind {
        LineKind::Blank | LineKind::Command | LineKind::Dependency => Ok(None),
        LineKind::Directive { word, rest } => direct(alloc, env, word, rest, budget),
        LineKind::Assignment {
            operator,
            name,
            value,
        } => {
            let name = expand(alloc, env, name, budget)?;
            if !is_word(name.as_str()) {
                return Err(PureStop::Fault(FaultKind::Line));
            }
            assign(alloc, env, operator, name.as_str(), value, budget)?;
            Ok(None)
        }
        LineKind::Bad => Err(PureStop::Fault(FaultKind::Line)),
    }
}

/// Does what the line of an assignment says to the variable of this name.
fn assign(
    alloc: Global,
    env: &mut Env,
    operator: Operator,
    name: &str,
    text: &str,
    budget: &mut Budget,
) -> Result<(), PureStop<FaultKind>>
    ensures gives { Assigns operator name.now text.now
        (env.old, budget.old) (env.new, budget.new) result }
    ensures err { OnErr result (env.new ≡ env.old) }
    ensures later { IsLater budget.old budget.new }
{
    match operator {
        Operator::Set => store(env, name, text),
        Operator::Default => store_default(env, name, text),
        Operator::Append => append(env, name, text),
        Operator::Expand => {
            let found = expand_now(alloc, env, text, budget)?;
            store(env, name, found.as_str())
        }
        Operator::Shell => Err(PureStop::Fault(FaultKind::Shell)),
    }
}

/// Gives the variable this text, as the line of an assignment says. If the text is too long, that is the
/// fault `Length`.
fn store(env: &mut Env, name: &str, text: &str) -> Result<(), PureStop<FaultKind>>
    ensures gives { AssignsFreely operators.Set name.now text.now env.old env.new result }
    ensures err { OnErr result (env.new ≡ env.old) }
{
    if text.len() > TEXT_LIMIT {
        return Err(PureStop::Fault(FaultKind::Length));
    }
    env.set(name, text)?;
    Ok(())
}

/// Gives the variable this text if it has none, as a line with `?=` says. If that text is too long, that is
/// the fault `Length`.
fn store_default(env: &mut Env, name: &str, text: &str) -> Result<(), PureStop<FaultKind>>
    ensures gives { AssignsFreely operators.Default name.now text.now env.old env.new result }
    ensures err { OnErr result (env.new ≡ env.old) }
{
    if text.len() > TEXT_LIMIT && !env.defined(name) {
        return Err(PureStop::Fault(FaultKind::Length));
    }
    env.default(name, text)?;
    Ok(())
}

/// Does what a line with `+=` says: a text is added to the end of the variable's text. If the whole is too long, that is
/// the fault `Length`.
fn append(env: &mut Env, name: &str, text: &str) -> Result<(), PureStop<FaultKind>>
    ensures gives { AssignsFreely operators.Append name.now text.now env.old env.new result }
    ensures err { OnErr result (env.new ≡ env.old) }
{
    let before = match env.get(name) {
        Some(before) => before.len() + 1,
        None => 0,
    };
    if before + text.len() > TEXT_LIMIT {
        return Err(PureStop::Fault(FaultKind::Length));
    }
    env.append(name, text)?;
    Ok(())
}

/// Does what the line of a directive that belongs to no block says: `.undef`, `.include` or `.sinclude`. Any
/// other directive is the fault `Line`.
fn direct(
    alloc: Global,
    env: &mut Env,
    word: Directive,
    text: &str,
    budget: &mut Budget,
) -> Result<Option<Request>, PureStop<FaultKind>>
    ensures gives { Directs word text.now (env.old, budget.old) (env.new, budget.new) result }
    ensures err { OnErr result (env.new ≡ env.old) }
    ensures later { IsLater budget.old budget.new }
{
    match word {
        Directive::Undef => {
            let found = expand(alloc, env, text, budget)?;
            undef_words(alloc, env, found.as_str())?;
            Ok(None)
        }
        Directive::Include => {
            let found = expand(alloc, env, text, budget)?;
            Ok(Some(Request::new(found, false)))
        }
        Directive::Sinclude => {
            let found = expand(alloc, env, text, budget)?;
            Ok(Some(Request::new(found, true)))
        }
        _ => Err(PureStop::Fault(FaultKind::Line)),
    }
}

/// Removes the variable of each word of this text, as a line with `.undef` says.
fn undef_words(alloc: Global, env: &mut Env, text: &str) -> Result<(), AllocError>
    ensures ok { OnOk result (env.new ≡ lines.without_variables env.old (words_of text.now)) }
    ensures err { OnErr result (env.new ≡ env.old) }
{
    for span in &words(alloc, text)? {
        env.undef(span.of(text));
    }
    Ok(())
}
