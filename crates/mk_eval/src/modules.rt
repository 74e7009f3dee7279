//! The modules that a port names in MODULES, and their files, which `<bsd.port.mk>` includes.
ghost use Rattle.std.specs.Prelude.{◌≡◌, IfOk, map, option_map, string_bytes};
ghost use Rattle.mk_base.specs.Meter.{IsLater};
ghost use Rattle.mk_files.specs.Work.{Asks};
ghost use Rattle.text_parts.specs.Cuts.{now_all};
ghost use Rattle.mk_text.specs.Words as splits;
ghost use Rattle.mk_eval.specs.Modules as modules;
ghost use Rattle.mk_eval.specs.LineParts.{OpensInEveryState, first_file};
ghost use Rattle.mk_eval.specs.Steps.{MayOpen, OpensFile, GivesWords, module_at, words_at};

use crate::includes::{ExecutedFile, ExecutedLine, Included, open_if_there};
use crate::state::EvalState;
use mk_base::{Budget, Fault, FaultKind, PureStop, Stop};
use mk_env::{Env, expand_variable};
use mk_files::Files;
use mk_text::{Profile, words};
use std::alloc::{AllocError, Global};
use text_parts::split_at;

/// Whether modules are included after the next line, if it includes `<bsd.port.mk>`: no line did before it,
/// and the make language is the second profile.
pub fn may_ask_modules(state: &EvalState) -> bool
    ensures { result ≡ modules.may_ask_modules state.now }
{
    !state.shared_asked && has_modules(state.variables.profile())
}

/// Whether `<bsd.port.mk>` includes the modules of MODULES too, in this profile of the make language.
fn has_modules(profile: Profile) -> bool
    ensures { result ≡ modules.has_modules profile }
{
    match profile {
        Profile::One => false,
        Profile::Two => true,
    }
}

/// The words of MODULES, expanded, at the line that includes `<bsd.port.mk>`. If MODULES isn't defined, there
/// are none, at no cost.
///
/// At the line, the faults are those of `mk_env::expand_variable`. The other error is that memory runs out.
pub fn module_words(
    alloc: Global,
    line: ExecutedLine<'_>,
    state: &EvalState,
    budget: &mut Budget,
) -> Result<Vec<String>, PureStop<Fault>>
    ensures gives { GivesWords result (words_at line.entry state.now) budget.old budget.new }
    ensures later { IsLater budget.old budget.new }
{
    match expanded_words(alloc, &state.variables, budget) {
        Ok(words) => Ok(words),
        Err(stop) => Err(stop.blame(alloc, line.here.file.as_str(), line.number)),
    }
}

/// The words of MODULES, expanded among these variables; none if it isn't defined.
fn expanded_words(
    alloc: Global,
    variables: &Env,
    budget: &mut Budget,
) -> Result<Vec<String>, PureStop<FaultKind>>
    ensures gives { GivesWords result (modules.module_words variables.now) budget.old budget.new }
    ensures later { IsLater budget.old budget.new }
{
    if !variables.defined("MODULES") {
        return Ok(Vec::new(alloc));
    }
    let text = expand_variable(alloc, variables, "MODULES", budget)?;
    Ok(words_of(alloc, text.as_str())?)
}

/// The words of the text of MODULES, each as a text of its own.
fn words_of(alloc: Global, text: &str) -> Result<Vec<String>, AllocError>
    ensures { IfOk result (λ found. map string_bytes found.items ≡ splits.words_of text.now) }
{
    let spans = words(alloc, text)?;
    let mut found = Vec::with_capacity(alloc, spans.len())?;
    for span in spans.as_slice() {
        found.push(String::from_str(alloc, span.of(text))?)?;
    }
    Ok(found)
}

/// The file of the module that a word of MODULES names, at the line that includes `<bsd.port.mk>`. It is the one in
/// the first tree of the search path that has one. A word that isn't `category/name` names none, and asks nothing.
///
/// # Errors
///
/// At the line, before each question, it is `IncludeDepth` if more than 16 files would include one another, and
/// `Questions` for the 257th question. If the files fail, their fault is returned as it is. It is also `Memory` if
/// memory runs out.
pub fn open_module<F: Files>(
    alloc: Global,
    line: ExecutedLine<'_>,
    state: &EvalState,
    word: &str,
    files: &mut F,
    budget: &mut Budget,
) -> Result<Option<Included>, Stop<Fault>>
    ensures gives { OpensFile (module_at line.entry word.now) (state.now, state.now) result
        (budget.old, F.view files.old) (budget.new, F.view files.new) }
    ensures asks { Asks F.fails_with result (F.view files.old) (F.view files.new) }
    ensures later { IsLater budget.old budget.new }
    ensures opens { IfOk result (MayOpen line.entry.here.levels) }
{
    let opened = match module_file(alloc, word) {
        Ok(None) => Ok(None),
        Ok(Some(file)) => {
            open_first(
                alloc,
                line.here,
                state.path.trees(),
                file.as_str(),
                files,
                budget,
            )
        }
        Err(error) => Err(Stop::from(error)),
    };
    match opened {
        Ok(opened) => Ok(opened),
        Err(stop) => Err(stop.blame(alloc, line.here.file.as_str(), line.number)),
    }
}

/// Opens the file of a module: the one of this name in the first of these trees that has one.
fn open_first<F: Files>(
    alloc: Global,
    here: ExecutedFile<'_>,
    trees: &[String],
    file: &str,
    files: &mut F,
    budget: &mut Budget,
) -> Result<Option<Included>, Stop<FaultKind>>
    ensures gives { OpensInEveryState (first_file here.entry trees.now file.now) result
        (budget.old, F.view files.old) (budget.new, F.view files.new) }
    ensures asks { Asks F.fails_with result (F.view files.old) (F.view files.new) }
    ensures later { IsLater budget.old budget.new }
    ensures opens { IfOk result (MayOpen here.entry.levels) }
{
    for tree in trees {
        let opened = open_if_there(alloc, here, tree.as_str(), file, files, budget)?;
        if opened.is_some() {
            return Ok(opened);
        }
    }
    Ok(None)
}

/// The file of the module that a word of MODULES names, in a tree: `category/name/name.port.mk`. It is `None`
/// if the word isn't `category/name`.
fn module_file(alloc: Global, word: &str) -> Result<Option<String>, AllocError>
    ensures { IfOk result (λ file. option_map string_bytes file ≡ modules.module_file word.now) }
{
    let parts = split_at(alloc, word, '/')?;
    let Some(name) = module_name(parts.as_slice()) else {
        return Ok(None);
    };
    let mut file = String::from_str(alloc, word)?;
    file.push_str("/")?;
    file.push_str(name)?;
    file.push_str(".port.mk")?;
    Ok(Some(file))
}

/// The name of the module that a word of MODULES with these parts names; `None` if it isn't `category/name`.
fn module_name<'a>(parts: &[&'a str]) -> Option<&'a str>
    ensures { option_map (λ name. name.now) result ≡ modules.module_name (now_all parts.now) }
{
    match parts {
        [category, name] if is_directory(category) && is_directory(name) => Some(name),
        _ => None,
    }
}

/// Whether a part of a word of MODULES may name a directory.
fn is_directory(part: &str) -> bool
    ensures { result ≡ modules.may_name_directory part.now }
{
    match part {
        "" | "." | ".." => false,
        _ => true,
    }
}
