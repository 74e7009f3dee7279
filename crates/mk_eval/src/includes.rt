//! The files that lines include, opened: those with names in quotes, and the one of `<bsd.port.mk>`.
ghost use Rattle.std.specs.Prelude.{◌≡◌, IfOk};
ghost use Rattle.mk_base.specs.Meter.{IsLater};
ghost use Rattle.mk_files.specs.Work.{Asks};
ghost use Rattle.mk_eval.specs.Includes as includes;
ghost use Rattle.mk_eval.specs.LineParts.{OpensInEveryState, asked_file, own_file, named_file};
ghost use Rattle.mk_eval.specs.LineParts.{inner_file, file_if_there, port_file};
ghost use Rattle.mk_eval.specs.Steps.{MayOpen, OpensFile};

use crate::file_forms::{Form, form_of};
use crate::file_requests::Request;
use crate::outcome::Kind;
use crate::state::EvalState;
use mk_base::{Budget, FaultKind, Stop};
use mk_files::{Content, Files, ask_read};
use mk_loop::Iteration;
use mk_paths::{Name, NameFault};
use std::alloc::Global;

/// Where a line is executed: in which file, and in which loops.
#[derive(Clone, Copy)]
pub struct ExecutedFile<'a> {
    /// The makefile that is evaluated.
    pub makefile: &'a Name,
    /// The file that the lines are in.
    pub file: &'a Name,
    /// How many levels deep files may still include one another.
    pub levels: u32,
    /// The loops around the line, of which the innermost is the last.
    pub loops: &'a [Iteration],
}

/// A line of an executed file.
#[derive(Clone, Copy)]
pub struct ExecutedLine<'a> {
    /// Where it is executed.
    pub here: ExecutedFile<'a>,
    /// Its number.
    pub number: u64,
}

/// A file that is to be executed.
#[derive(Drop)]
pub struct Included {
    /// Its name.
    pub name: Name,
    /// Its content.
    pub content: Content,
}

/// The file that a line's request to include opens, if any. Of the system files only the first
/// `<bsd.port.mk>` opens one: `../Makefile.inc` of the makefile's directory, if it is there. `<bsd.port.mk>`
/// says that the makefile is a port's, and `<bsd.port.subdir.mk>` says that it lists ports. The first of
/// these that is included says what the makefile is.
///
/// The faults are looked for in this order. `Include` if the text names no file in one of the forms.
/// `IncludeDepth` if more than 16 files would include one another. `Include` if a name in quotes is no
/// file name. `Questions` for the 257th question. `Include` if the file is missing, and may not be.
pub(crate) fn open_request<F: Files>(
    alloc: Global,
    here: ExecutedFile<'_>,
    state: &mut EvalState,
    request: &Request,
    files: &mut F,
    budget: &mut Budget,
) -> Result<Option<Included>, Stop<FaultKind>>
    ensures gives { OpensFile (asked_file here.entry request.now) (state.old, state.new) result
        (budget.old, F.view files.old) (budget.new, F.view files.new) }
    ensures asks { Asks F.fails_with result (F.view files.old) (F.view files.new) }
    ensures later { IsLater budget.old budget.new }
    ensures opens { IfOk result (MayOpen here.entry.levels) }
{
    match form_of(request.text()) {
        Form::Own(file) => open_own(alloc, here, file, request.optional(), files, budget),
        Form::Port => open_port(alloc, here, state, files, budget),
        Form::Subdir => {
            say(state, Kind::List);
            Ok(None)
        }
        Form::System => Ok(None),
        Form::Nothing => Err(Stop::Fault(FaultKind::Include)),
    }
}

/// Opens the included file with this name in quotes: under the directory of the including file, or with an
/// absolute name.
fn open_own<F: Files>(
    alloc: Global,
    here: ExecutedFile<'_>,
    file: &str,
    optional: bool,
    files: &mut F,
    budget: &mut Budget,
) -> Result<Option<Included>, Stop<FaultKind>>
    ensures gives { OpensInEveryState (own_file here.entry file.now optional) result
        (budget.old, F.view files.old) (budget.new, F.view files.new) }
    ensures asks { Asks F.fails_with result (F.view files.old) (F.view files.new) }
    ensures later { IsLater budget.old budget.new }
    ensures opens { IfOk result (MayOpen here.entry.levels) }
{
    if here.levels == 0 {
        return Err(Stop::Fault(FaultKind::IncludeDepth));
    }
    match Name::under(alloc, here.file.directory(), file) {
        Ok(name) => open_named(name, optional, files, budget),
        Err(NameFault::BadName | NameFault::Above) => Err(Stop::Fault(FaultKind::Include)),
        Err(NameFault::Memory(refused)) => Err(Stop::Memory(refused)),
    }
}

/// Opens the included file of this name. If it is missing and may not be, that is the fault `Include`.
fn open_named<F: Files>(
    name: Name,
    optional: bool,
    files: &mut F,
    budget: &mut Budget,
) -> Result<Option<Included>, Stop<FaultKind>>
    ensures gives { OpensInEveryState (named_file name optional) result
        (budget.old, F.view files.old) (budget.new, F.view files.new) }
    ensures asks { Asks F.fails_with result (F.view files.old) (F.view files.new) }
    ensures later { IsLater budget.old budget.new }
{
    match ask_read(files, &name, budget)? {
        Some(content) => Ok(Some(Included { name, content })),
        None if optional => Ok(None),
        None => Err(Stop::Fault(FaultKind::Include)),
    }
}

/// Notes what the makefile describes by the system file that it includes, unless an earlier one said that.
fn say(state: &mut EvalState, kind: Kind)
    ensures { state.new ≡ includes.with_makefile_kind state.old kind }
{
    if state.kind == Kind::Other {
        state.kind = kind;
    }
}

/// Notes that the first `<bsd.port.mk>` is included.
fn say_first_port(state: &mut EvalState)
    ensures { state.new ≡ includes.first_port state.old }
{
    say(state, Kind::Port);
    state.shared_asked = true;
}

/// Opens the file that an include of `<bsd.port.mk>` stands for, if any: the first time `../Makefile.inc`, if
/// it is there.
fn open_port<F: Files>(
    alloc: Global,
    here: ExecutedFile<'_>,
    state: &mut EvalState,
    files: &mut F,
    budget: &mut Budget,
) -> Result<Option<Included>, Stop<FaultKind>>
    ensures gives { OpensFile (port_file here.entry) (state.old, state.new) result
        (budget.old, F.view files.old) (budget.new, F.view files.new) }
    ensures asks { Asks F.fails_with result (F.view files.old) (F.view files.new) }
    ensures later { IsLater budget.old budget.new }
    ensures opens { IfOk result (MayOpen here.entry.levels) }
{
    if state.shared_asked {
        say(state, Kind::Port);
        return Ok(None);
    }
    say_first_port(state);
    let directory = here.makefile.directory();
    open_if_there(alloc, here, directory, "../Makefile.inc", files, budget)
}

/// Opens an included file under a directory, if it is there. If the text is no file name, it isn't.
pub(crate) fn open_if_there<F: Files>(
    alloc: Global,
    here: ExecutedFile<'_>,
    directory: &str,
    file: &str,
    files: &mut F,
    budget: &mut Budget,
) -> Result<Option<Included>, Stop<FaultKind>>
    ensures gives { OpensInEveryState (file_if_there here.entry directory.now file.now) result
        (budget.old, F.view files.old) (budget.new, F.view files.new) }
    ensures asks { Asks F.fails_with result (F.view files.old) (F.view files.new) }
    ensures later { IsLater budget.old budget.new }
    ensures opens { IfOk result (MayOpen here.entry.levels) }
{
    match Name::under(alloc, directory, file) {
        Ok(name) => open_inside(here, name, true, files, budget),
        Err(NameFault::BadName | NameFault::Above) => Ok(None),
        Err(NameFault::Memory(refused)) => Err(Stop::Memory(refused)),
    }
}

/// Opens the included file of this name. If no more files may include one another, that is the fault
/// `IncludeDepth`.
fn open_inside<F: Files>(
    here: ExecutedFile<'_>,
    name: Name,
    optional: bool,
    files: &mut F,
    budget: &mut Budget,
) -> Result<Option<Included>, Stop<FaultKind>>
    ensures gives { OpensInEveryState (inner_file here.entry name optional) result
        (budget.old, F.view files.old) (budget.new, F.view files.new) }
    ensures asks { Asks F.fails_with result (F.view files.old) (F.view files.new) }
    ensures later { IsLater budget.old budget.new }
    ensures opens { IfOk result (MayOpen here.entry.levels) }
{
    if here.levels == 0 {
        return Err(Stop::Fault(FaultKind::IncludeDepth));
    }
    open_named(name, optional, files, budget)
}
